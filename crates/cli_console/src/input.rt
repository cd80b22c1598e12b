// Arguments, and files by name or standard input.
ghost use Rattle.cli_show.specs.Counts.{IsPrefixLen};

use crate::source;
use crate::source::Source;
use cli_show::WORD_ROOM;
use cli_show::console::Console;
use std::env::{Env, FillError};
use std::io;

// How many words the program was called with, its own name among them.
pub fn word_count(console: &Console) -> usize {
    for i in 0..usize::MAX {
        if let Err(FillError::NotPresent) = console.rt.arg(i, &mut []) {
            return i;
        }
    }
    usize::MAX
}

// Puts argument i at the start of buf and answers its length. One that is longer than buf fills it: it is longer than any call allows.
pub fn word(console: &Console, i: usize, buf: &mut [u8]) -> usize
    ensures { IsPrefixLen result buf.new }
{
    match console.rt.arg(i, buf) {
        Ok(n) => n,
        Err(FillError::TooLong) => buf.len(),
        Err(FillError::NotPresent) => 0,
    }
}

// n, which is no more than buf holds.
pub fn within(n: usize, buf: &[u8]) -> usize
    ensures { IsPrefixLen result buf.now }
{
    if n <= buf.len() { n } else { buf.len() }
}

// Whether argument i is `-`, standard input.
pub fn is_standard(console: &Console, i: usize) -> bool {
    let mut name = [0u8; WORD_ROOM];
    let n = word(console, i, &mut name);
    text::string::is_same(&name[..n], b"-")
}

// The file that argument i names, or standard input for `-`; or nothing, after a complaint.
pub fn open(console: &mut Console, i: usize) -> Option<Source> {
    let mut name = [0u8; WORD_ROOM];
    let n = word(console, i, &mut name);
    if text::string::is_same(&name[..n], b"-") {
        return Some(Source::Standard(console.rt.stdin()));
    }
    match source::open_named(console, &name[..n]) {
        Ok(file) => Some(Source::File(file)),
        Err(error) => {
            crate::say::failure(console, &name[..n], error);
            None
        }
    }
}

// How many bytes were read, and whether that went well.
#[derive(Drop)]
pub struct Read {
    pub is_good: bool,
    pub count: usize,
}

// Complains of a read of the file that argument i names.
fn complain_of_read(console: &mut Console, i: usize, error: io::Error) {
    let mut name = [0u8; WORD_ROOM];
    let n = word(console, i, &mut name);
    crate::say::failure(console, &name[..n], error);
}

// Puts what is left to read of a source, which `open` made of argument i, at the start of buf, as far as there is room; or complains.
pub fn fill(console: &mut Console, i: usize, from: &mut Source, buf: &mut [u8]) -> Read
    ensures { IsPrefixLen result.count buf.new }
{
    let mut count = 0;
    while count < buf.len() {
        match io::Read::read(from, &mut buf[count..]) {
            Ok(0) => break,
            Ok(n) => count += n,
            Err(error) => {
                complain_of_read(console, i, error);
                return Read {
                    is_good: false,
                    count,
                };
            }
        }
    }
    Read {
        is_good: true,
        count,
    }
}

// The same for the whole file.
pub fn file(console: &mut Console, i: usize, buf: &mut [u8]) -> Read
    ensures { IsPrefixLen result.count buf.new }
{
    match open(console, i) {
        Some(mut source) => fill(console, i, &mut source, buf),
        None => Read {
            is_good: false,
            count: 0,
        },
    }
}

// 1 where argument i is read, 2 where it is write; or 0, after a complaint.
pub fn mode(console: &mut Console, i: usize, page: &[u8]) -> u32 {
    let mut given = [0u8; WORD_ROOM];
    let n = word(console, i, &mut given);
    let number = crate::lines::place(b"read\nwrite\n", &given[..n]);
    match number {
        1 => 1,
        2 => 2,
        _ => {
            crate::say::usage(console, b"neither read nor write: ", &given[..n], page);
            0
        }
    }
}

// Complains of the file that argument i names.
pub fn complain(console: &mut Console, i: usize, what: &[u8]) {
    let mut name = [0u8; WORD_ROOM];
    let n = word(console, i, &mut name);
    crate::say::complaint(console, &name[..n], what);
}
