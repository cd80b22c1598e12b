// How far a count is, told on standard error while it takes longer than a second: a line a second, on a terminal alone.
ghost use Rattle.std.specs.Prelude.{◌+◌, ◌^◌, ◌≤◌};

use cli_show::Stream;
use cli_show::console::Console;
use std::io::IsTerminal;
use std::rt::Clock;
use text_make::Text;

// Room for the line.
const ROOM: usize = 64;

// The seconds since 1970 began. Where the system does not tell them, the clock stands at 0, and nothing is told.
fn seconds(console: &Console) -> u64
    ensures { result + 2 ≤ 2 ^ 63 + 1 }
{
    match console.rt.since_1970() {
        Ok(told) if told.as_secs() < 1 << 63 => told.as_secs(),
        _ => 0,
    }
}

// A count begins: from which second on it is told, if it is told at all. From one second to the next but one, more than a second passes.
pub fn begin(console: &Console) -> Option<u64> {
    if !console.rt.stderr().is_terminal() {
        return None;
    }
    Some(seconds(console) + 2)
}

// Tells how many lines are counted, where it is time for that; and from which second on it is told next.
pub fn tell(console: &mut Console, next: Option<u64>, lines: usize) -> Option<u64> {
    let next = next?;
    let now = seconds(console);
    if now < next {
        return Some(next);
    }
    let mut text: Text<ROOM> = Text::new();
    text.push_fact(b"burgee: lines counted so far: ", lines as u64);
    cli_show::word_to(console, Stream::Error, text.as_bytes());
    Some(now + 1)
}
