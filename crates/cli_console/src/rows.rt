// The lines of an accepted table text, by kind: 2 for groups, 3 for members, 4 for rules.
ghost use Rattle.std.specs.Prelude.{◌≤◌, ◌<◌, length};

// The kind of the frame of the line at `at`: the second of its digits.
fn is_kind(text: &[u8], at: usize, kind: u8) -> bool
    requires { at < length text.now }
{
    let second = at + 1;
    second < text.len() && text::byte::hex_value(text[second]) == kind
}

// Where the line of the row that has this number among those of its kind begins.
pub fn find(text: &[u8], kind: u8, number: usize) -> usize
    ensures { result ≤ length text.now }
{
    let mut left = number;
    let mut at = 0;
    while at < text.len() {
        if is_kind(text, at, kind) {
            if left == 0 {
                return at;
            }
            left -= 1;
        }
        at = cli_refusal::entry::next(text, at);
    }
    at
}
