// Files that can be long, read in parts of a fixed size: whole lines are used at once, and the bytes of an unfinished line are kept before the next part.
#![tactic(auto)]

ghost use Rattle.std.specs.Prelude.{◌≡◌, ◌+◌, ◌≤◌, length};
ghost use Rattle.text.specs.Frame.{part};
ghost use Rattle.text.specs.Steps.{Wrote};
ghost use Rattle.cli_show.specs.Counts.{IsPrefixLen};
ghost use Rattle.cli_parts.specs.Parts.{whole_length, KeptFirst};

use cli_console::input;
use cli_console::input::Read;
use cli_console::source::Source;
use cli_show::console::Console;

// How many bytes are kept and read at once.
pub const ROOM: usize = 65536;

// How many bytes the whole lines of a text have: those up to its last LF.
pub fn whole_length(text: &[u8]) -> usize
    ensures { result ≡ whole_length text.now }
{
    for n in (0..text.len()).rev() {
        if text[n] == b'\n' {
            return n + 1;
        }
    }
    0
}

// Moves the bytes from `from` up to `to` to the start of buf, and answers how many they are.
pub fn keep(buf: &mut [u8], from: usize, to: usize) -> usize
    requires { (from ≤ to) × (to ≤ length buf.old) }
    ensures { Wrote buf.old 0 (part buf.old from to) buf.new result }
{
    buf.copy_within(from..to, 0);
    to - from
}

// The same, and then reads more of the source behind them, as `cli_console::input::fill` does. The count is that of all bytes there: fewer than buf has
// room for are the last.
pub fn more(
    console: &mut Console,
    argument: usize,
    source: &mut Source,
    buf: &mut [u8],
    from: usize,
    to: usize,
) -> Read
    requires { (from ≤ to) × (to ≤ length buf.old) }
    ensures prefix_len { IsPrefixLen result.count buf.new }
    ensures kept_first { KeptFirst buf.old from to buf.new result.count }
{
    let kept = keep(buf, from, to);
    let got = input::fill(console, argument, source, &mut buf[kept..]);
    Read {
        is_good: got.is_good,
        count: kept + got.count,
    }
}
