// A line of a file as it is shown, part by part.
ghost use Rattle.std.specs.Prelude.{◌≡◌, ◌+◌, ◌++◌, ◌≤◌, length};
ghost use Rattle.cli_console.specs.Quoted.{shown, quoted};
ghost use Rattle.cli_console.specs.Steps.{max_part, part_room};

use cli_show::Stream;
use cli_show::console::Console;
use text_make::Text;

// As many bytes of a line as are made at once, and room for them: one that does not print takes four.
const PART: usize = 1024;

const PART_ROOM: usize = 4 * PART;

// A byte that prints as it is, any other in hex after \x.
fn add_byte(b: u8, text: &mut Text<PART_ROOM>)
    requires { length text.old + 4 ≤ part_room }
    ensures added { text.new ≡ text.old ++ shown b }
    ensures short { length text.new ≤ length text.old + 4 }
{
    if text::byte::is_print(b) {
        text.push(b);
    } else {
        let mut digits = [0u8; 2];
        readable_parts::hex::write_hex(&[b], &mut digits, 0);
        text.push_str(b"\\x");
        text.push_str(&digits);
    }
}

// A part of a line.
fn part(s: &[u8]) -> Text<PART_ROOM>
    requires { length s.now ≤ max_part }
    ensures { result ≡ quoted s.now }
{
    let mut text = Text::new();
    for b in s {
        add_byte(*b, &mut text);
    }
    text
}

// Prints a line, part after part.
pub fn print(console: &mut Console, to: Stream, s: &[u8]) {
    for bytes in s.chunks(PART) {
        cli_show::word_to(console, to, part(bytes).as_bytes());
    }
    cli_show::word_to(console, to, b"\n");
}
