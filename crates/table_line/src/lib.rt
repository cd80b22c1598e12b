#![tactic(auto)]

// Hex lines: checked and decoded in one pass.
ghost use Rattle.std.specs.Prelude.{◌≡◌, ◌+◌, ◌-◌, ◌/◌, ◌≤◌, length, drop};
ghost use Rattle.text.specs.Fill.{put};
ghost use Rattle.table_line.specs.Lines.{lines};
ghost use Rattle.table_line.specs.Decoding.{digits, first_line};

// A hex line: how long its frame is, and where the next line starts.
#[derive(Clone, Copy)]
pub struct Line {
    pub len: usize,
    pub next: usize,
}

// Decodes the pairs of digits from `from` on into out from `at` on, and answers how many they are.
fn decode(text: &[u8], from: usize, out: &mut [u8], at: usize) -> usize
    requires { (from ≤ length text.now) × (at + (length text.now - from) / 2 ≤ length out.old) }
    ensures value { result ≡ length (digits (drop from text.now)) }
    ensures out_after { out.new ≡ put out.old at (digits (drop from text.now)) }
{
    let pairs = (text.len() - from) / 2;
    for k in 0..pairs {
        let i = from + 2 * k;
        let high = text::byte::hex_value(text[i]);
        let low = text::byte::hex_value(text[i + 1]);
        if (15 < high) | (15 < low) {
            return k;
        }
        out[at + k] = high * 16 + low;
    }
    pairs
}

// The line that starts at `from`, if it is a hex line. Its digits are decoded into out from `at` on.
pub fn read_line(text: &[u8], from: usize, out: &mut [u8], at: usize) -> Option<Line>
    requires { (from ≤ length text.now) × (at + (length text.now - from) / 2 ≤ length out.old) }
    ensures value { result ≡ first_line from (lines (drop from text.now)) }
    ensures out_after { out.new ≡ put out.old at (digits (drop from text.now)) }
{
    let len = decode(text, from, out, at);
    let end = from + 2 * len;
    if text.len() <= end || text[end] != b'\n' || len == 0 {
        return None;
    }
    Some(Line { len, next: end + 1 })
}
