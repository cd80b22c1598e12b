// The lines of a record.
ghost use Rattle.std.specs.Prelude.{◌≡◌, ◌+◌, ◌++◌, ◌≤◌, length};
ghost use Rattle.cli_record.specs.Lines.{kind_line, length_line, rotation_line, record_lines};

use rotation::Record;
use text_make::Text;

// Room for the lines.
const ROOM: usize = 128;

// The kind and the rotation are told in words of their own: what the two have in common is the test.
fn add_kind(kind: u32, text: &mut Text<ROOM>)
    requires { length text.old + 12 ≤ ROOM }
    ensures added { text.new ≡ text.old ++ kind_line kind }
    ensures short { length text.new ≤ length text.old + 12 }
{
    if kind == 1 {
        text.push_str(b"kind policy\n");
    } else {
        text.push_str(b"kind table\n");
    }
}

// How long a text is, if there is one.
fn add_length(name: &[u8], n: u32, text: &mut Text<ROOM>)
    requires { length text.old + length name.now + 21 ≤ ROOM }
    ensures added { text.new ≡ text.old ++ length_line name.now n }
    ensures short { length text.new ≤ length text.old + length name.now + 21 }
{
    if n == rotation::NO_LENGTH {
        text.push_str(name);
        text.push_str(b"none\n");
    } else {
        text.push_fact(name, n as u64);
    }
}

fn add_rotation(n: u32, text: &mut Text<ROOM>)
    requires { length text.old + 13 ≤ ROOM }
    ensures added { text.new ≡ text.old ++ rotation_line n }
    ensures short { length text.new ≤ length text.old + 13 }
{
    if n == 0 {
        text.push_str(b"rotation off\n");
    } else {
        text.push_str(b"rotation on\n");
    }
}

// What a record says.
pub fn record(r: Record) -> Text<ROOM>
    ensures { result ≡ record_lines r }
{
    let mut text = Text::new();
    add_kind(r.kind, &mut text);
    text.push_fact(b"slot ", r.live_slot as u64);
    add_length(b"live ", r.live_len, &mut text);
    add_rotation(r.rotating, &mut text);
    add_length(b"candidate ", r.candidate_len, &mut text);
    text
}
