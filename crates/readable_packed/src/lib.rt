#![tactic(auto)]

// The parts of a readable line, as the bytes of a frame: each function stores the bytes of the part at `at` of s into out from `to` on,
// as those of readable_parts do.
ghost use Rattle.std.specs.Prelude.{◌≡◌, ◌+◌, ◌≤◌, length};
ghost use Rattle.limits.specs.Sizes.{max_quoted};
ghost use Rattle.readable_parts.specs.Parts.{packed, part_of, stands_at, packed_string, packed_time, packed_code};
ghost use Rattle.readable_parts.specs.Steps.{Puts, longest};

use path_read::reader::Stored;
use readable_parts::Direction;
use table_line::Line;

// In brackets.
fn string(s: &[u8], at: usize, out: &mut [u8], to: usize) -> Option<Stored>
    requires { (to + max_quoted ≤ length out.old) × (at ≤ length s.now) }
    ensures { Puts max_quoted packed_string s.now at out.old to out.new result }
{
    if s.len() <= at {
        return None;
    }
    if s[at] != b'[' {
        return None;
    }
    path_read::reader::read_value(s, at + 1, out, to)
}

// The rest of the line, 16 digits.
fn time(s: &[u8], at: usize, out: &mut [u8], to: usize) -> Option<Stored>
    requires { (to + 16 ≤ length out.old) × (at ≤ length s.now) }
    ensures { Puts 16 packed_time s.now at out.old to out.new result }
{
    if s.len() - at != 16 {
        return None;
    }
    // the digits with an LF, a hex line
    let mut digits = [b'\n'; 17];
    text::fill::copy(&s[at..], &mut digits, 0);
    let Some(Line { len, next }) = table_line::read_line(&digits, 0, out, to) else {
        return None;
    };
    if next != 17 {
        return None;
    }
    Some(Stored {
        next: s.len(),
        end: to + len,
    })
}

// The word w stands at `at`.
fn stands_at(w: &[u8], s: &[u8], at: usize) -> bool
    requires { at ≤ length s.now }
    ensures { result ≡ stands_at w.now s.now at }
{
    if s.len() - at < w.len() {
        return false;
    }
    let end = at + w.len();
    text::string::is_same(&s[at..end], w)
}

// The word a as the code byte n, the word b as the next one.
fn code(s: &[u8], at: usize, n: u8, a: &[u8], b: &[u8], out: &mut [u8], to: usize) -> Option<Stored>
    requires { (to + 6 ≤ length out.old) × (at ≤ length s.now) × (n ≤ 1) }
    ensures { Puts 6 (packed_code n a.now b.now) s.now at out.old to out.new result }
{
    if stands_at(a, s, at) {
        out[to] = n;
        return Some(Stored {
            next: at + a.len(),
            end: to + 1,
        });
    }
    if stands_at(b, s, at) {
        out[to] = n + 1;
        return Some(Stored {
            next: at + b.len(),
            end: to + 1,
        });
    }
    None
}

// The part that c names.
pub fn part(c: u8, s: &[u8], at: usize, out: &mut [u8], to: usize) -> Option<Stored>
    requires { (to + longest c ≤ length out.old) × (at ≤ length s.now) }
    ensures { Puts (longest c) (part_of packed c) s.now at out.old to out.new result }
{
    match c {
        b'S' => string(s, at, out, to),
        b'T' => time(s, at, out, to),
        b'P' => readable_parts::ending::path(Direction::Pack, s, at, out, to),
        b'A' => code(s, at, 0, b"deny", b"permit", out, to),
        b'M' => code(s, at, 1, b"read", b"write", out, to),
        b'K' => code(s, at, 0, b"user", b"group", out, to),
        _ => {
            // a byte that stands for itself: nothing is stored
            if s.len() <= at {
                return None;
            }
            if s[at] != c {
                return None;
            }
            Some(Stored {
                next: at + 1,
                end: to,
            })
        }
    }
}
