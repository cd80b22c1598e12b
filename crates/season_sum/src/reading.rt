// A report's text read.
ghost use Rattle.std.specs.Prelude.{◌≡◌, ◌+◌, ◌*◌, ◌-◌, ◌<◌, length};
ghost use Rattle.limits.specs.Sizes.{report_lines};
ghost use Rattle.text.specs.Fill.{put};
ghost use Rattle.season_sum.specs.Outcome.{outcome_of};
ghost use Rattle.season_sum.specs.Reading.{continues, figures_of, reading};
ghost use Rattle.season_sum.specs.Steps.{ReadsNumber, ReadsFigure};

use crate::BadReport;

// The number that a line is, and where the next line begins.
#[derive(Clone, Copy)]
pub struct Figure {
    pub value: u64,
    pub next: usize,
}

// Whether a digit may follow the number n: n does not begin with 0, and the longer number fits.
fn is_next(n: u64, b: u8) -> bool
    ensures { result ≡ continues n b }
{
    if !b.is_ascii_digit() {
        return false;
    }
    if n == 0 {
        return false;
    }
    n <= (u64::MAX - (b - b'0') as u64) / 10
}

// The number that is n so far and goes on at `at`.
fn number(text: &[u8], at: usize, n: u64) -> Option<Figure>
    ensures { ReadsNumber text.now at n result }
{
    let mut value = n;
    for i in at..text.len() {
        let b = text[i];
        if b == b'\n' {
            return Some(Figure { value, next: i + 1 });
        }
        if !is_next(value, b) {
            return None;
        }
        value = value * 10 + (b - b'0') as u64;
    }
    None
}

// The figure of the line at `at`.
fn figure_at(text: &[u8], at: usize) -> Option<Figure>
    requires { at < length text.now }
    ensures { ReadsFigure text.now at result }
{
    let b = text[at];
    if !b.is_ascii_digit() {
        return None;
    }
    number(text, at + 1, (b - b'0') as u64)
}

// Puts the figures of a report into `figures`, up to the first line that is at fault.
pub fn read(text: &[u8], figures: &mut [u64; limits::REPORT_LINES]) -> Result<(), BadReport>
    requires { length figures.old ≡ report_lines }
    ensures { (outcome_of result ≡ reading report_lines 1 text.now)
        × (figures.new ≡ put figures.old 0 (figures_of report_lines text.now)) }
{
    let mut at = 0;
    for i in 0..limits::REPORT_LINES {
        if text.len() <= at {
            return Err(BadReport::LineCount { line: i + 1 });
        }
        let Some(figure) = figure_at(text, at) else {
            return Err(BadReport::NoFigure { line: i + 1 });
        };
        figures[i] = figure.value;
        at = figure.next;
    }
    if at < text.len() {
        return Err(BadReport::LineCount {
            line: limits::REPORT_LINES + 1,
        });
    }
    Ok(())
}
