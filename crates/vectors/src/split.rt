// The parts of a line.
ghost use Rattle.std.specs.Prelude.{◌≤◌, ◌<◌, length};

// Where the first such byte or LF from `from` on stands, or the end.
pub fn up_to(line: &[u8], from: usize, stop: u8) -> usize
    requires { from ≤ length line.now }
    ensures { (from ≤ result) × (result ≤ length line.now) }
{
    let end = text_search::find(line, from, b'\n');
    let found = text_search::find(line, from, stop);
    if found < end { found } else { end }
}

// Past the byte at `at`, if there is one.
pub fn after(line: &[u8], at: usize) -> usize
    requires { at ≤ length line.now }
    ensures { (at ≤ result) × (result ≤ length line.now) × (at < length line.now → at < result) }
{
    if at < line.len() { at + 1 } else { at }
}

// The first byte, 0 where there is none.
pub fn first(s: &[u8]) -> u8 {
    if s.len() == 0 { 0 } else { s[0] }
}

// The digit that s begins with.
pub fn digit(s: &[u8]) -> u8 {
    text::byte::hex_value(first(s))
}

fn line_byte(b: u8, sign: u8) -> u8 {
    if b == sign { b'\n' } else { b }
}

// The lines that s stands for: each sign is an LF.
pub fn lines(s: &[u8], sign: u8, out: &mut [u8])
    requires { length s.now ≤ length out.old }
{
    let mut i = 0;
    while i < s.len() {
        out[i] = line_byte(s[i], sign);
        i += 1;
    }
}
