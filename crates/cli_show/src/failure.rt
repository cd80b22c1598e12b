// Complaints of calls of the system that failed.
use crate::console::Console;
use crate::marks;
use std::io::{Cursor, Write};
use std::{io, str};

// Room for the text of an error, and more.
const ROOM: usize = 256;

// The system's own words: std puts their number behind them, in brackets.
fn words(text: &str) -> &str {
    match text.split_once(" (os error ") {
        Some((words, _)) => words,
        None => text,
    }
}

// Writes a line to standard error: what a call was about, and why it failed.
pub fn tell(console: &mut Console, what: &[u8], error: io::Error) {
    let mut text = [0u8; ROOM];
    let mut left = Cursor::new(&mut text[..]);
    let _ = write!(left, "{error}");
    let n = (left.position() as usize).min(ROOM);
    let reason = words(str::from_utf8(&text[..n]).unwrap_or(""));
    let to = console.rt.stderr();
    let _ = to.write_all(b"burgee: ");
    let _ = to.write_all(what);
    let _ = to.write_all(b": ");
    let _ = to.write_all(reason.as_bytes());
    let _ = to.write_all(b"\n");
    marks::complaint(console);
}
