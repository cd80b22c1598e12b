// Requests of a log: frames and readable lines, part by part.
ghost use Rattle.std.specs.Prelude.{◌≡◌, not, ◌≤◌, length};
ghost use Rattle.text.specs.Test.{absent};
ghost use Rattle.request_log.specs.Request.{good_request};
ghost use Rattle.readable_lines.specs.Request.{shown_request, packed_request};
ghost use Rattle.readable_lines.specs.Steps.{max_made_frame, Fills};

use crate::form;
use path_read::reader::Stored;
use readable_parts::Direction;

// Whether the frame holds a good request.
fn is_good(f: &[u8]) -> bool
    ensures { result ≡ not (absent (good_request f.now)) }
{
    let Some(heading) = request_log::read_heading(f) else {
        return false;
    };
    heading.refusal.is_ok() && path_frame::is_path_from(f, heading.path)
}

// The readable form of a good request, without its LF.
pub fn show_request(f: &[u8], out: &mut [u8]) -> Option<usize>
    requires { max_made_frame ≤ length out.old }
    ensures { Fills (shown_request f.now) out.old out.new result }
{
    if !is_good(f) {
        return None;
    }
    let shown = form::convert_parts(Direction::Show, b"M S origin S P", f, 0, out, 0);
    form::close_shown(shown, f.len(), out)
}

// The frame of a readable request, which is given without its LF.
pub fn pack_request(s: &[u8], out: &mut [u8]) -> Option<usize>
    requires { max_made_frame ≤ length out.old }
    ensures { Fills (packed_request s.now) out.old out.new result }
{
    if !text::string::all_print(s) {
        return None;
    }
    let Stored { next, end } = form::convert_parts(
        Direction::Pack,
        b"M S origin S P",
        s,
        0,
        out,
        0,
    )?;
    if next != s.len() {
        return None;
    }
    if !is_good(&out[..end]) {
        return None;
    }
    Some(end)
}
