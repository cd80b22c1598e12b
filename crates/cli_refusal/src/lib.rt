#![tactic(auto)]

// The line of a refusal, in words.
pub mod entry;

ghost use Rattle.std.specs.Prelude.{◌≡◌, ◌+◌, ◌++◌, ◌≤◌, length};
ghost use Rattle.cli_refusal.specs.Refusal.{meaning, place, refusal as Refusal·refusal};

use text_make::Text;

// Room for the line: words are looked up in their table, and no longer than it.
pub const MAX_LINE: usize = 1780;

// What a number means.
fn meaning(number: u8) -> &'static [u8]
    ensures value { result.now ≡ meaning number }
    ensures short { length result.now ≤ 1720 }
{
    let key = [48 + number / 10 % 10, 48 + number % 10, b' '];
    entry::find(
        b"01 the table text is over 32,768 bytes\n\
        02 not a hex line: an even, nonzero count of digits 0-9a-f, then LF\n\
        03 unknown kind or code byte, or the frame is too short or too long\n\
        04 order of kinds: one version line first, then groups, members, rules\n\
        05 a limit passed, or an empty string that may not be empty\n\
        06 a byte outside its set\n\
        07 a wildcard misplaced, or an element named ...\n\
        08 group name, member in a group, rule id, or key in an element twice\n\
        09 the group is not listed\n\
        11 the store is shorter than 65,536 bytes\n\
        12 a rotation is on already\n\
        13 no rotation is on\n\
        14 there is no candidate\n\
        15 not a record: its kind, its slot, a length, or a candidate while no rotation is on\n\
        16 the record is of the other kind\n\
        20 user or mode not as a table allows: a user's name has 1 to 64 bytes that print\n\
        21 origin not as a table allows: it has at most 32 bytes that print\n\
        22 not a path, as text (/ or /NAME[KEY=VALUE]..) or as bytes, within the limits of a rule's\n\
        23 the result does not fit the buffer\n\
        30 the policy is over 16,384 bytes\n\
        31 not one JSON value, in printable bytes, nested to depth 16 at most\n\
        32 a member name twice in one object\n\
        33 not the schema of a policy\n\
        34 a backslash in a string\n\
        35 a limit passed, or empty where that is not allowed\n\
        36 an asterisk elsewhere than at one end of a pattern\n\
        37 a barred or ill-spelt header key\n\
        38 a rule name twice in a list\n\
        40 identity or path over 256 bytes, or a byte of it does not print\n\
        41 header lines ill-formed, over 8,192 bytes together, or a byte of a value does not print\n\
        50 the log has more than 1,000,000 lines\n\
        51 not a line of a log: mode, user, origin and path of a good request, in hex digits, then LF\n",
        &key,
    )
}

// Adds where the refused text has its fault; there is no line 0.
pub fn add_place<const N: usize>(line: usize, text: &mut Text<N>)
    requires { length text.old + 29 ≤ N }
    ensures added { text.new ≡ text.old ++ place line }
    ensures short { length text.new ≤ length text.old + 29 }
{
    if line != 0 {
        text.push_str(b" at line ");
        text.push_decimal(line as u64);
    }
}

// The line of a refusal.
pub fn line(number: u8, line: usize) -> Text<MAX_LINE>
    ensures { result ≡ Refusal·refusal number line }
{
    let mut text = Text::new();
    text.push_str(b"refused ");
    text.push_decimal(number as u64);
    add_place(line, &mut text);
    text.push_str(b": ");
    text.push_str(meaning(number));
    text.push_str(b"\n");
    text
}
