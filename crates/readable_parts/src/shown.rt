// The parts of a frame, as text: each function stores the text of the part at `at` of f into out from `to` on, and answers where it ended in both. The buffer
// is lent by the caller of all; a writer that held it would be no plainer, since the answer has to say where the frame is read on too.
ghost use Rattle.std.specs.Prelude.{◌+◌, ◌≤◌, length};
ghost use Rattle.limits.specs.Sizes.{max_quoted};
ghost use Rattle.readable_parts.specs.Parts.{shown, part_of, shown_string, shown_time, shown_code};
ghost use Rattle.readable_parts.specs.Steps.{Puts, longest};

use crate::Direction;
use path_read::reader::Stored;

// In brackets.
fn string(f: &[u8], at: usize, out: &mut [u8], to: usize) -> Option<Stored>
    requires { to + max_quoted ≤ length out.old }
    ensures { Puts max_quoted shown_string f.now at out.old to out.new result }
{
    let end = text::frame::string_end(f, at)?;
    let start = at + 1;
    let s = &f[start..end];
    if limits::MAX_STRING < s.len() {
        return None;
    }
    out[to] = b'[';
    let close = path_write::write_value(s, out, to + 1);
    out[close] = b']';
    Some(Stored {
        next: end,
        end: close + 1,
    })
}

// The rest of the frame, as 16 digits.
fn time(f: &[u8], at: usize, out: &mut [u8], to: usize) -> Option<Stored>
    requires { (to + 16 ≤ length out.old) × (at ≤ length f.now) }
    ensures { Puts 16 shown_time f.now at out.old to out.new result }
{
    if f.len() - at != 8 {
        return None;
    }
    let end = crate::hex::write_hex(&f[at..], out, to);
    Some(Stored { next: f.len(), end })
}

// The code byte n as the word a, the next one as b.
fn code(f: &[u8], at: usize, n: u8, a: &[u8], b: &[u8], out: &mut [u8], to: usize) -> Option<Stored>
    requires { (to + 6 ≤ length out.old) × (length a.now ≤ 6) × (length b.now ≤ 6) × (n ≤ 1) }
    ensures { Puts 6 (shown_code n a.now b.now) f.now at out.old to out.new result }
{
    if f.len() <= at {
        return None;
    }
    let c = f[at];
    if c == n {
        text::fill::copy(a, out, to);
        return Some(Stored {
            next: at + 1,
            end: to + a.len(),
        });
    }
    if c == n + 1 {
        text::fill::copy(b, out, to);
        return Some(Stored {
            next: at + 1,
            end: to + b.len(),
        });
    }
    None
}

// The part that c names.
pub fn part(c: u8, f: &[u8], at: usize, out: &mut [u8], to: usize) -> Option<Stored>
    requires { (to + longest c ≤ length out.old) × (at ≤ length f.now) }
    ensures { Puts (longest c) (part_of shown c) f.now at out.old to out.new result }
{
    match c {
        b'S' => string(f, at, out, to),
        b'T' => time(f, at, out, to),
        b'P' => crate::ending::path(Direction::Show, f, at, out, to),
        b'A' => code(f, at, 0, b"deny", b"permit", out, to),
        b'M' => code(f, at, 1, b"read", b"write", out, to),
        b'K' => code(f, at, 0, b"user", b"group", out, to),
        _ => {
            out[to] = c;
            Some(Stored {
                next: at,
                end: to + 1,
            })
        }
    }
}
