// The path with which a frame or a line ends: of path bytes their text is made, or of path text its bytes.
ghost use Rattle.std.specs.Prelude.{◌+◌, ◌≤◌, length};
ghost use Rattle.limits.specs.Sizes.{max_path_text};
ghost use Rattle.path_read.specs.Calls.{filled_of};
ghost use Rattle.path_read.specs.Steps.{Delivers};
ghost use Rattle.readable_parts.specs.Parts.{of_rest};
ghost use Rattle.readable_parts.specs.Steps.{Puts, path_for};

use crate::Direction;
use path_read::reader::Stored;
use refusal::Refusal;

fn convert(direction: Direction, s: &[u8], out: &mut [u8]) -> Result<usize, Refusal>
    ensures { Delivers out.old (path_for direction s.now) out.new (filled_of result) }
{
    match direction {
        Direction::Show => path_write::write_text(s, out),
        Direction::Pack => path_read::reader::read_text(s, out),
    }
}

pub fn path(direction: Direction, s: &[u8], at: usize, out: &mut [u8], to: usize) -> Option<Stored>
    requires { to + max_path_text ≤ length out.old }
    ensures { Puts max_path_text (of_rest (path_for direction)) s.now at out.old to out.new result }
{
    if s.len() <= at {
        return None;
    }
    let Ok(n) = convert(direction, &s[at..], &mut out[to..]) else {
        return None;
    };
    Some(Stored {
        next: s.len(),
        end: to + n,
    })
}
