// Path text and path bytes.
ghost use Rattle.std.specs.Prelude.{◌≤◌, length};

use cli_show::console::Console;

// As many bytes as the digits of a text make.
const MAX_BYTES: usize = cli_show::TEXT_ROOM / 2;

// Prints the bytes of a path text, in hex.
pub fn read(console: &mut Console, text: &[u8]) {
    match cli_answers::paths::bytes_line(text) {
        Ok(line) => cli_show::word(console, line.as_bytes()),
        Err(refusal) => cli_console::refused::at(console, refusal.number(), 0),
    }
}

fn write_bytes(console: &mut Console, bytes: &[u8]) {
    match cli_answers::paths::text_line(bytes) {
        Ok(line) => cli_show::word(console, line.as_bytes()),
        Err(refusal) => cli_console::refused::at(console, refusal.number(), 0),
    }
}

// Prints the text of path bytes, which a line of hex digits stands for.
pub fn write(console: &mut Console, digits: &[u8])
    requires { length digits.now ≤ 65536 }
{
    let mut bytes = [0u8; MAX_BYTES];
    match table_line::read_line(digits, 0, &mut bytes, 0) {
        Some(line) => {
            write_bytes(
                console,
                &bytes[..cli_console::input::within(line.len, &bytes)],
            );
        }
        None => cli_console::say::usage(
            console,
            b"path bytes are pairs of the digits 0-9a-f",
            b"",
            b"path",
        ),
    }
}
