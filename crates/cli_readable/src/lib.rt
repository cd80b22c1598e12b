// A rule table as readable text, and back, and so a log. Standard output holds the text that is made, and nothing else: what is refused is told on
// standard error.
#![tactic(auto)]

pub mod lines;
pub mod logs;

use cli_show::Stream;
use cli_show::console::Console;
use readable::Unconverted;
use text_make::Text;

// Room for how many bytes a table has.
const BYTES_ROOM: usize = 27;

// Saves a table as the file that argument i names, and tells how many bytes it has.
fn save(console: &mut Console, i: usize, table: &[u8]) {
    if cli_console::input::is_standard(console, i) {
        cli_console::say::usage(console, b"a table is saved in a file", b"", b"pack");
        return;
    }
    let begun = cli_saving::begin(console, i, true);
    let written = cli_saving::add(console, begun, table);
    if cli_saving::finish(console, written) {
        let mut text: Text<BYTES_ROOM> = Text::new();
        text.push_fact(b"bytes ", table.len() as u64);
        cli_show::word(console, text.as_bytes());
    }
}

// Tells why nothing was made of a text.
fn tell(console: &mut Console, why: Unconverted) {
    cli_show::word_to(console, Stream::Error, lines::refusal(why).as_bytes());
    cli_show::marks::refusal(console);
}

// The same, and the line that it is about.
fn refuse(console: &mut Console, why: Unconverted, text: &[u8]) {
    tell(console, why);
    match why {
        Unconverted::Refused { number, line } => {
            cli_console::refused::quote_line(console, Stream::Error, text, line, number == 2)
        }
        Unconverted::Unread { line } => cli_console::refused::quote_line(
            console,
            Stream::Error,
            text,
            line,
            true,
        ),
        Unconverted::NoRoom => {}
    }
}

// burgee show FILE
pub fn show_table(console: &mut Console, text: &[u8]) {
    // enough for any table (crates/readable_laws)
    let mut out = [0u8; limits::MAX_READABLE_TEXT];
    match readable::show(text, &mut out) {
        Ok(n) => {
            let made = cli_console::input::within(n, &out);
            cli_show::word(console, &out[..made]);
        }
        Err(why) => refuse(console, why, text),
    }
}

// burgee pack FILE [TABLE]
pub fn pack_table(console: &mut Console, text: &[u8], words: usize) {
    let mut out = [0u8; limits::MAX_TABLE_TEXT];
    match readable::pack(text, &mut out) {
        Ok(n) => {
            let made = cli_console::input::within(n, &out);
            if words == 4 {
                save(console, 3, &out[..made]);
            } else {
                cli_show::word(console, &out[..made]);
            }
        }
        Err(why) => refuse(console, why, text),
    }
}
