#![tactic(auto)]

// Lines of a log to readable lines, and back, as many at once as there is room for.
ghost use Rattle.std.specs.Prelude.{◌≡◌, ◌≤◌, ◌<◌, length};
ghost use Rattle.readable_lines.specs.declared.Source.TheVariants.{Log};
ghost use Rattle.readable_lines.specs.Lines.{line_by};
ghost use Rattle.readable_lines.specs.Steps.{max_made_line, Lays};
ghost use Rattle.readable_log.specs.Run.{overlong, LineEnds, Runs};

use path_read::reader::Stored;
use readable_lines::Source;
use readable_parts::Direction;

// How far lines were converted, and what was made of them.
#[derive(Clone, Copy)]
pub struct Run {
    // Where the first line that is left starts.
    pub next: usize,
    // How many lines were converted.
    pub count: usize,
    // How many bytes were made of them.
    pub made: usize,
    // The line at `next` is not converted: it is no good line of a log, or no readable one. A flag, since the counts hold in either case.
    pub stopped: bool,
}

// Where the line at `from` ends.
fn line_end(text: &[u8], from: usize) -> usize
    requires { from < length text.now }
    ensures { LineEnds text.now from result }
{
    let stop = text_search::find(text, from, b'\n');
    if stop < text.len() { stop + 1 } else { stop }
}

// Whether a line of so many bytes is longer than any that can be shown; a readable one may be of any length.
fn is_overlong(direction: Direction, len: usize) -> bool
    ensures { result ≡ overlong direction len }
{
    match direction {
        Direction::Show => limits::MAX_LOG_LINE < len,
        Direction::Pack => false,
    }
}

// The line at `from`.
fn convert_line(direction: Direction, text: &[u8], from: usize, out: &mut [u8]) -> Option<Stored>
    requires { (from < length text.now) × (max_made_line ≤ length out.old) }
    ensures { Lays (line_by Log direction) text.now from out.old out.new result }
{
    let end = line_end(text, from);
    if is_overlong(direction, end - from) {
        return None;
    }
    let line = readable_lines::convert_line(Source::Log, direction, &text[from..end], 0, out)?;
    Some(Stored { next: end, ..line })
}

// Converts lines of a text, `most` of them at most, as long as there is room in out for the longest.
pub fn convert(direction: Direction, text: &[u8], most: usize, out: &mut [u8]) -> Run
    ensures { Runs (line_by Log direction) text.now most out.old out.new result }
{
    let mut next = 0;
    let mut count = 0;
    let mut made = 0;
    // where the next line starts is known once this one is converted, so no iterator goes over them
    while (next < text.len())
        & (count < most)
        & (readable_lines::MAX_MADE_LINE <= out.len() - made)
    {
        let line = convert_line(direction, text, next, &mut out[made..]);
        let Some(Stored { next: after, end }) = line else {
            return Run {
                next,
                count,
                made,
                stopped: true,
            };
        };
        next = after;
        count += 1;
        made += end;
    }
    Run {
        next,
        count,
        made,
        stopped: false,
    }
}
