// A log as readable text, and back. Both are converted in parts, since they can be long: what was made before a line that is refused is printed.
ghost use Rattle.std.specs.Prelude.{◌+◌, ◌≤◌, IfSome};
ghost use Rattle.limits.specs.Limits.{max_log_lines};
ghost use Rattle.cli_readable.specs.Steps.{Advances};

use cli_console::input;
use cli_show::Stream;
use cli_show::console::Console;
use readable::Unconverted;
use readable_log::Run;
use readable_parts::Direction;

// Room for what is printed at once.
const OUT_ROOM: usize = cli_parts::ROOM;

// The longest line that can be good, with its LF: of a log, or of readable text.
fn longest(direction: Direction) -> usize {
    match direction {
        Direction::Show => limits::MAX_LOG_LINE,
        Direction::Pack => limits::MAX_READABLE_LINE + 1,
    }
}

// Prints the line with which `rest` begins; of one that is longer than any good line, only that it is.
fn quote(console: &mut Console, direction: Direction, rest: &[u8]) {
    if longest(direction) <= text_search::find(rest, 0, b'\n') {
        cli_show::word_to(
            console,
            Stream::Error,
            b"the line is longer than any good one\n",
        );
    } else {
        cli_console::refused::quote_line(console, Stream::Error, rest, 1, true);
    }
}

// Refuses the line with this number, with which `rest` begins.
fn refuse(console: &mut Console, direction: Direction, number: usize, rest: &[u8]) {
    if limits::MAX_LOG_LINES < number {
        crate::tell(
            console,
            Unconverted::Refused {
                number: 50,
                line: 0,
            },
        );
        return;
    }
    let why = match direction {
        Direction::Show => Unconverted::Refused {
            number: 51,
            line: number,
        },
        Direction::Pack => Unconverted::Unread { line: number },
    };
    crate::tell(console, why);
    quote(console, direction, rest);
}

// Converts and prints lines of a text, `most` at most.
fn print_run(console: &mut Console, direction: Direction, text: &[u8], most: usize) -> Run
    ensures { Advances text.now most result }
{
    let mut out = [0u8; OUT_ROOM];
    let run = readable_log::convert(direction, text, most, &mut out);
    cli_show::first(console, &out, run.made);
    run
}

// Converts and prints whole lines, the first of which has this number. Answers the number of the line after them; none where one of them was refused.
fn print_lines(
    console: &mut Console,
    direction: Direction,
    text: &[u8],
    first: usize,
) -> Option<usize>
    requires { first ≤ max_log_lines + 1 }
    ensures { IfSome result (λ number. number ≤ max_log_lines + 1) }
{
    let mut number = first;
    let mut from = 0;
    while from < text.len() {
        let run = print_run(
            console,
            direction,
            &text[from..],
            limits::MAX_LOG_LINES + 1 - number,
        );
        from += run.next;
        number += run.count;
        if run.stopped | ((from < text.len()) & (limits::MAX_LOG_LINES < number)) {
            refuse(console, direction, number, &text[from..]);
            return None;
        }
    }
    Some(number)
}

// burgee log show FILE
// burgee log pack FILE
pub fn convert(console: &mut Console, direction: Direction, argument: usize) {
    let Some(mut source) = input::open(console, argument) else {
        return;
    };
    let mut buf = [0u8; cli_parts::ROOM];
    let mut from = 0;
    let mut to = 0;
    let mut number = 1;
    // each part but the last has a whole line
    let mut parts = 0;
    while parts <= limits::MAX_LOG_LINES {
        let got = cli_parts::more(console, argument, &mut source, &mut buf, from, to);
        if !got.is_good {
            return;
        }
        to = got.count;
        from = cli_parts::whole_length(&buf[..to]);
        let Some(after) = print_lines(console, direction, &buf[..from], number) else {
            return;
        };
        number = after;
        if (to < cli_parts::ROOM) | (longest(direction) <= to - from) {
            if from < to {
                refuse(console, direction, number, &buf[from..to]);
            }
            return;
        }
        parts += 1;
    }
}
