// The lines of a text.
ghost use Rattle.std.specs.Prelude.{◌≡◌, ◌≤◌, ◌==◌, count_by, length};
ghost use Rattle.cli_console.specs.Quoted.{from_line, unended, line_number};
ghost use Rattle.cli_console.specs.Steps.{LineAt};

use cli_refusal::entry::next;
use cli_show::Stream;
use cli_show::console::Console;

// Where line n begins, counted from 1.
fn start(text: &[u8], n: usize) -> usize
    ensures { LineAt text.now n result }
{
    let mut at = 0;
    for passed in 1..n {
        if text.len() <= at {
            return at;
        }
        at = next(text, at);
    }
    at
}

fn count_feeds(text: &[u8]) -> usize
    ensures value { result ≡ count_by (λ b. b == 10) text.now }
    ensures short { result ≤ length text.now }
{
    text.iter().filter(|b| **b == b'\n').count()
}

// The number of the line that position p is in, counted from 1; the last line's where p is past them all.
pub fn number_at(text: &[u8], p: usize) -> usize
    ensures { result ≡ line_number p text.now }
{
    let last = text.len().saturating_sub(1);
    count_feeds(&text[..p.min(last)]) + 1
}

// Prints the line at `at` without its LF; bytes that do not print in hex, after \x.
fn quote_at(console: &mut Console, to: Stream, text: &[u8], at: usize)
    requires { at ≤ length text.now }
{
    let end = text_search::find(text, at, b'\n');
    crate::quote::print(console, to, &text[at..end]);
}

// Prints line n.
pub fn quote(console: &mut Console, to: Stream, text: &[u8], n: usize) {
    quote_at(console, to, text, start(text, n));
}

// Whether line n has no LF at its end.
pub fn is_open(text: &[u8], n: usize) -> bool
    ensures { result ≡ unended (from_line n text.now) }
{
    text_search::find(text, start(text, n), b'\n') == text.len()
}

// Whether the line at `at` is `word`.
fn is_line(text: &[u8], at: usize, word: &[u8]) -> bool
    requires { at ≤ length text.now }
{
    let end = text_search::find(text, at, b'\n');
    text::string::is_same(&text[at..end], word)
}

// The number of the first line that is `word`, counted from 1; 0 where none is.
pub fn place(text: &[u8], word: &[u8]) -> usize {
    let mut n = 0;
    let mut at = 0;
    while at < text.len() {
        n += 1;
        if is_line(text, at, word) {
            return n;
        }
        at = next(text, at);
    }
    0
}
