// Complaints on standard error.
use cli_show::console::Console;
use cli_show::{Stream, WORD_ROOM};
use std::io;

fn word(console: &mut Console, s: &[u8]) {
    cli_show::word_to(console, Stream::Error, s);
}

// How a command is called, which may hang on the word after it; and the page of help to look at.
fn hint(console: &mut Console, page: &[u8]) {
    if 0 < page.len() {
        let mut step = [0u8; WORD_ROOM];
        let n = crate::input::word(console, 2, &mut step);
        cli_help::usage(console, page, &step[..n]);
        word(console, b"Try: burgee help ");
    } else {
        word(console, b"Try: burgee help");
    }
    word(console, page);
    word(console, b"\n");
}

// What is wrong, and the word that it is about.
pub fn complaint(console: &mut Console, what: &[u8], about: &[u8]) {
    word(console, b"burgee: ");
    word(console, what);
    word(console, about);
    word(console, b"\n");
    cli_show::marks::complaint(console);
}

// What is wrong with how the program was called, the word that it is about, and the page of help to look at, if there is one.
pub fn usage(console: &mut Console, what: &[u8], about: &[u8], page: &[u8]) {
    complaint(console, what, about);
    hint(console, page);
}

// The command was called with arguments that it does not take.
pub fn misuse(console: &mut Console, command: &[u8]) {
    usage(console, b"not the arguments of ", command, command);
}

// Why a call of the system failed on the file of that name.
pub fn failure(console: &mut Console, name: &[u8], error: io::Error) {
    cli_show::failure::tell(console, name, error);
}
