// The lines of a log, counted one after another.
ghost use Rattle.std.specs.Prelude.{◌≡◌, ◌≤◌, ◌<◌, length};
ghost use Rattle.limits.specs.Limits.{max_log_lines};
ghost use Rattle.season_count.specs.Loaded.{Remembered};
ghost use Rattle.season_count.specs.Counting.{Reaches, Counts-line, Counts-lines};

use crate::count::Tally;
use crate::loaded::Loaded;
use crate::run::Run;
use refusal::{Fault, Refusal};
use table_line::Line;

// How far a good line that starts at `from` can reach in a text that ends at `end`.
fn reach(from: usize, end: usize) -> usize
    requires { from ≤ end }
    ensures { Reaches from end result }
{
    if end - from <= limits::MAX_LOG_LINE {
        return end;
    }
    from + limits::MAX_LOG_LINE
}

// Counts the line of the text that starts at `from`, and is decoded into `line`; where the next one starts. None: the line is bad.
fn count_line(
    table: Loaded,
    text: &[u8],
    from: usize,
    line: &mut [u8; limits::MAX_LOG_FRAME],
    run: &mut Run,
    tally: &mut Tally,
) -> Option<usize>
    requires { Remembered table run.old × (tally.old.lines < max_log_lines) × (from < length text.now) }
    ensures { Counts-line table.entry text.now from tally.old run.new tally.new result }
{
    let to = reach(from, text.len());
    let Line { len, next } = table_line::read_line(&text[..to], from, line, 0)?;
    let frame = &line[..len];
    let answer = run.judge(table, frame)?;
    tally.count(line[0], answer);
    Some(next)
}

// Counts the lines of the text, which come after those that are counted already.
pub fn count_lines(
    table: Loaded,
    text: &[u8],
    run: &mut Run,
    tally: &mut Tally,
) -> Result<(), Fault>
    requires { Remembered table run.old }
    ensures { Counts-lines table.entry text.now tally.old run.new tally.new result }
{
    let mut line = [0; limits::MAX_LOG_FRAME];
    let mut from = 0;
    while from < text.len() {
        if limits::MAX_LOG_LINES <= tally.lines {
            return Err(Fault::at(Refusal::LogTooLong, 0));
        }
        let number = tally.lines + 1;
        let Some(next) = count_line(table, text, from, &mut line, run, tally) else {
            return Err(Fault::at(Refusal::BadLogLine, number));
        };
        from = next;
    }
    Ok(())
}
