// Printing to standard output and standard error.
#![tactic(auto)]

pub mod console;
pub mod failure;
pub mod marks;

ghost use Rattle.std.specs.Prelude.{◌≤◌, length};

use console::Console;
use std::io;

// Room for the lines of any answer, but for a refusal.
pub const MAX_LINES: usize = 320;

// Room for a name or another word: as many bytes as the longest path has, and one more.
pub const WORD_ROOM: usize = 4096;

// Room for a text.
pub const TEXT_ROOM: usize = 65536;

// Where words are printed.
#[derive(Clone, Copy, PartialEq)]
pub enum Stream {
    Output,
    Error,
}

// Complains where a write to standard output failed. From then on nothing more is written there: what was written stays a beginning of the
// answer, and one complaint is enough.
fn expect(console: &mut Console, written: io::Result<()>) {
    if let Err(error) = written {
        console.is_open = false;
        failure::tell(console, b"standard output", error);
    }
}

pub fn word(console: &mut Console, s: &[u8]) {
    if console.is_open {
        let written = console.rt.stdout().write_all(s);
        expect(console, written);
    }
}

// The same to a stream. Where a write to standard error fails, that can be told nowhere.
pub fn word_to(console: &mut Console, to: Stream, s: &[u8]) {
    match to {
        Stream::Output => word(console, s),
        Stream::Error => {
            let _ = console.rt.stderr().write_all(s);
        }
    }
}

// The first n bytes of a buffer.
pub fn first_to(console: &mut Console, to: Stream, out: &[u8], n: usize)
    requires { n ≤ length out.now }
{
    word_to(console, to, &out[..n]);
}

pub fn first(console: &mut Console, out: &[u8], n: usize)
    requires { n ≤ length out.now }
{
    first_to(console, Stream::Output, out, n);
}

pub fn space(console: &mut Console) {
    word(console, b" ");
}

pub fn line(console: &mut Console, s: &[u8]) {
    word(console, s);
    word(console, b"\n");
}

pub fn decimal(console: &mut Console, n: u64) {
    if console.is_open {
        let written = console.rt.print(n);
        expect(console, written);
    }
}

fn wide(b: u8) -> u64 {
    b as u64
}

pub fn hex(console: &mut Console, s: &[u8]) {
    for b in s {
        if console.is_open {
            let n = wide(*b);
            let written = print!(console.rt; "{n:02x}");
            expect(console, written);
        }
    }
}
