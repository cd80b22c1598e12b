#![tactic(auto)]

// Where a byte stands in a text, and where bytes that print end.
ghost use Rattle.std.specs.Prelude.{◌≡◌, ◌+◌, ◌≤◌, length, drop};
ghost use Rattle.text_search.specs.Search.{until, is, unprinted};

// Where the first byte b from `at` on stands; the end where there is none.
pub fn find(text: &[u8], at: usize, b: u8) -> usize
    requires { at ≤ length text.now }
    ensures { result ≡ at + until (is b) (drop at text.now) }
{
    match text[at..].iter().position(|x| *x == b) {
        Some(n) => at + n,
        None => text.len(),
    }
}

// Where the first byte from `at` on stands that does not print; the end where there is none.
pub fn print_end(text: &[u8], at: usize) -> usize
    requires { at ≤ length text.now }
    ensures { result ≡ at + until unprinted (drop at text.now) }
{
    match text[at..].iter().position(|x| !text::byte::is_print(*x)) {
        Some(n) => at + n,
        None => text.len(),
    }
}
