// Frames and readable lines, part by part.
ghost use Rattle.std.specs.Prelude.{◌≡◌, ◌+◌, ◌≤◌, length};
ghost use Rattle.limits.specs.Sizes.{max_readable_line};
ghost use Rattle.readable_parts.specs.Parts.{part_of};
ghost use Rattle.readable_lines.specs.Form.{parts, form_by, shown_frame, kind_by, packed_frame};
ghost use Rattle.readable_parts.specs.Steps.{longest, Puts};
ghost use Rattle.readable_lines.specs.Steps.{max_made_frame, parts_by, room_for, Fills, stored_end, closed, kind_said};

use path_read::reader::Stored;
use readable_parts::Direction;

// The part that c names.
fn convert_part(
    direction: Direction,
    c: u8,
    s: &[u8],
    at: usize,
    out: &mut [u8],
    to: usize,
) -> Option<Stored>
    requires { (to + longest c ≤ length out.old) × (at ≤ length s.now) }
    ensures { Puts (longest c) (part_of (parts_by direction) c) s.now at out.old to out.new result }
{
    match direction {
        Direction::Show => readable_parts::shown::part(c, s, at, out, to),
        Direction::Pack => readable_packed::part(c, s, at, out, to),
    }
}

// The parts that the form names, one after another.
pub fn convert_parts(
    direction: Direction,
    form: &[u8],
    s: &[u8],
    at: usize,
    out: &mut [u8],
    to: usize,
) -> Option<Stored>
    requires { (to + room_for form.now ≤ length out.old) × (at ≤ length s.now) }
    ensures { Puts (room_for form.now) (parts (parts_by direction) form.now)
        s.now at out.old to out.new result }
{
    let mut done = Stored { next: at, end: to };
    for c in form {
        done = convert_part(direction, *c, s, done.next, out, done.end)?;
    }
    Some(done)
}

// The parts of a frame of that kind.
fn by_kind(
    direction: Direction,
    kind: u8,
    s: &[u8],
    at: usize,
    out: &mut [u8],
    to: usize,
) -> Option<Stored>
    requires { (to + max_readable_line ≤ length out.old) × (at ≤ length s.now) }
    ensures { Puts max_readable_line (form_by (parts_by direction) kind) s.now at out.old to out.new result }
{
    match kind {
        1 => convert_parts(direction, b"version S time T", s, at, out, to),
        2 => convert_parts(direction, b"group S", s, at, out, to),
        3 => convert_parts(direction, b"member S S", s, at, out, to),
        4 => convert_parts(direction, b"rule A M K S id S origin S P", s, at, out, to),
        _ => None,
    }
}

// The length of what was shown of a frame of `size` bytes, where it is all of the frame, and printable.
pub fn close_shown(shown: Option<Stored>, size: usize, out: &[u8]) -> Option<usize>
    requires { stored_end shown ≤ length out.now }
    ensures { result ≡ closed size out.now shown }
{
    let stored = shown?;
    if stored.next != size {
        return None;
    }
    if text::string::all_print(&out[..stored.end]) {
        Some(stored.end)
    } else {
        None
    }
}

// The readable form of a frame of a table, without its LF.
pub fn show_frame(f: &[u8], out: &mut [u8]) -> Option<usize>
    requires { max_made_frame ≤ length out.old }
    ensures { Fills (shown_frame f.now) out.old out.new result }
{
    if f.len() == 0 {
        return None;
    }
    let shown = by_kind(Direction::Show, f[0], f, 1, out, 0);
    close_shown(shown, f.len(), out)
}

// The kind of a readable line, by its first letter.
#[tactic(auto, using(text::proofs::Choices::choices), unfolding(crate::specs::Form::kind_by))]
fn kind_by(b: u8) -> Option<u8>
    ensures { kind_said result ≡ kind_by b }
{
    match b {
        b'v' => Some(1),
        b'g' => Some(2),
        b'm' => Some(3),
        b'r' => Some(4),
        _ => None,
    }
}

// The frame of a readable line of a table, which is given without its LF.
pub fn pack_frame(s: &[u8], out: &mut [u8]) -> Option<usize>
    requires { max_made_frame ≤ length out.old }
    ensures { Fills (packed_frame s.now) out.old out.new result }
{
    if !text::string::all_print(s) {
        return None;
    }
    if s.len() == 0 {
        return None;
    }
    let kind = kind_by(s[0])?;
    let Stored { next, end } = by_kind(Direction::Pack, kind, s, 0, out, 1)?;
    if next != s.len() {
        return None;
    }
    out[0] = kind;
    Some(end)
}
