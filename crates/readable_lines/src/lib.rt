#![tactic(auto)]

// A line of a table or of a log to its readable line, and back.
ghost use Rattle.std.specs.Prelude.{◌≡◌, ◌≤◌, ◌<◌, length};
ghost use Rattle.limits.specs.Limits.{max_table_text};
ghost use Rattle.readable_parts.specs.declared.Direction.TheVariants.{Show};
ghost use Rattle.readable_lines.specs.Lines.{shown_for, packed_for, shown_line_by, packed_line_by, line_by};
ghost use Rattle.readable_lines.specs.Steps.{max_made_frame, max_made_line, Fills, Lays};

use path_read::reader::Stored;
use readable_parts::Direction;
use table_line::Line;

pub mod form;
mod request;

// What lines are of: a rule table, or a log of requests.
#[derive(Clone, Copy, Debug, PartialEq, Eq)]
pub enum Source {
    Table,
    Log,
}

// The longest frame that is made of a readable line, and its line: `max_made_frame` and `max_made_line` of the definitions.
const MAX_MADE_FRAME: usize = 1 + limits::MAX_READABLE_LINE;

pub const MAX_MADE_LINE: usize = 2 * MAX_MADE_FRAME + 1;

// The readable form of a frame, without its LF. This and `pack_frame` go by the source, each in its direction.
fn show_frame(source: Source, f: &[u8], out: &mut [u8]) -> Option<usize>
    requires { max_made_frame ≤ length out.old }
    ensures { Fills (shown_for source f.now) out.old out.new result }
{
    match source {
        Source::Table => crate::form::show_frame(f, out),
        Source::Log => crate::request::show_request(f, out),
    }
}

// The readable line of the hex line that starts at `from`.
fn show_line(source: Source, text: &[u8], from: usize, out: &mut [u8]) -> Option<Stored>
    requires { (from < length text.now) × (length text.now ≤ max_table_text) × (max_made_line ≤ length out.old) }
    ensures { Lays (shown_line_by (shown_for source)) text.now from out.old out.new result }
{
    let mut frame = [0u8; limits::MAX_TABLE_BYTES];
    let Some(Line { len, next }) = table_line::read_line(text, from, &mut frame, 0) else {
        return None;
    };
    let end = show_frame(source, &frame[..len], out)?;
    out[end] = b'\n';
    Some(Stored { next, end: end + 1 })
}

// The frame of a readable line, which is given without its LF.
fn pack_frame(source: Source, s: &[u8], out: &mut [u8]) -> Option<usize>
    requires { max_made_frame ≤ length out.old }
    ensures { Fills (packed_for source s.now) out.old out.new result }
{
    match source {
        Source::Table => crate::form::pack_frame(s, out),
        Source::Log => crate::request::pack_request(s, out),
    }
}

// The hex line of the readable line that starts at `from`.
fn pack_line(source: Source, text: &[u8], from: usize, out: &mut [u8]) -> Option<Stored>
    requires { (from < length text.now) × (max_made_line ≤ length out.old) }
    ensures { Lays (packed_line_by (packed_for source)) text.now from out.old out.new result }
{
    let stop = text_search::find(text, from, b'\n');
    if text.len() <= stop {
        return None;
    }
    let mut frame = [0u8; MAX_MADE_FRAME];
    let end = pack_frame(source, &text[from..stop], &mut frame)?;
    let close = readable_parts::hex::write_hex(&frame[..end], out, 0);
    out[close] = b'\n';
    Some(Stored {
        next: stop + 1,
        end: close + 1,
    })
}

// Either of the two.
pub fn convert_line(
    source: Source,
    direction: Direction,
    text: &[u8],
    from: usize,
    out: &mut [u8],
) -> Option<Stored>
    requires { (from < length text.now) × (direction ≡ Show → length text.now ≤ max_table_text) × (max_made_line ≤ length out.old) }
    ensures { Lays (line_by source direction) text.now from out.old out.new result }
{
    match direction {
        Direction::Show => show_line(source, text, from, out),
        Direction::Pack => pack_line(source, text, from, out),
    }
}
