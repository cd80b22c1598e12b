// burgee report-sum REPORT ..
ghost use Rattle.std.specs.Prelude.{◌≡◌, length};
ghost use Rattle.limits.specs.Sizes.{report_lines};

use crate::refusals;
use cli_console::input;
use cli_show::console::Console;
use cli_show::{Stream, WORD_ROOM};
use season_sum::BadReport;
use season_sum::writing::{self, MAX_REPORT};
use text_make::Text;

// Room for the longest report, and for a byte more, so that a longer text is told from it.
const TEXT_ROOM: usize = MAX_REPORT + 1;

// As many bytes as a word has.
const MAX_NAME: usize = WORD_ROOM;

// Room for the line of a refusal.
const MAX_LINE: usize = MAX_NAME + refusals::MAX_WORDS;

// Tells why the report in the file that argument i names is refused.
fn refuse(console: &mut Console, i: usize, why: BadReport) {
    let mut name = [0u8; MAX_NAME];
    let k = input::word(console, i, &mut name);
    let mut line: Text<MAX_LINE> = Text::new();
    refusals::add_line(&name[..k], why, &mut line);
    cli_show::word_to(console, Stream::Error, line.as_bytes());
    cli_show::marks::refusal(console);
}

// And the line of its text that is at fault, where it has one of that number. `is_all` says that the text is the whole file.
fn quote(console: &mut Console, text: &[u8], why: BadReport, is_all: bool) {
    match why {
        BadReport::NoFigure { line } => cli_console::refused::quote_line(
            console,
            Stream::Error,
            text,
            line,
            is_all,
        ),
        BadReport::LineCount { line } => {
            if limits::REPORT_LINES < line {
                cli_console::refused::quote_line(console, Stream::Error, text, line, false);
            }
        }
        BadReport::TooLarge { line } => cli_console::refused::quote_line(
            console,
            Stream::Error,
            text,
            line,
            false,
        ),
    }
}

// Adds the report in the file that argument i names to the sums; whether that went well. What is not well is told.
fn add(console: &mut Console, i: usize, sums: &mut [u64; limits::REPORT_LINES]) -> bool
    requires { length sums.old ≡ report_lines }
    ensures { length sums.new ≡ report_lines }
{
    let mut text = [0u8; TEXT_ROOM];
    let got = input::file(console, i, &mut text);
    let n = got.count;
    if !got.is_good {
        return false;
    }
    if let Err(why) = season_sum::adding::add_report(&text[..n], sums) {
        refuse(console, i, why);
        quote(console, &text[..n], why, n < TEXT_ROOM);
        return false;
    }
    true
}

// Whether standard input is named once at most, from argument 2 on.
fn is_read_once(console: &Console, words: usize) -> bool {
    let mut is_named = false;
    for i in 2..words {
        let is_standard = input::is_standard(console, i);
        if is_named && is_standard {
            return false;
        }
        is_named |= is_standard;
    }
    true
}

// Prints the sum of the reports in the files that the arguments from 2 on name.
pub fn run(console: &mut Console, words: usize) {
    if !is_read_once(console, words) {
        cli_console::say::usage(
            console,
            b"standard input can be read once only",
            b"",
            b"report-sum",
        );
        return;
    }
    let mut sums = [0u64; limits::REPORT_LINES];
    for i in 2..words {
        if !add(console, i, &mut sums) {
            return;
        }
    }
    let mut report: Text<MAX_REPORT> = Text::new();
    writing::add_lines(&sums, &mut report);
    cli_show::word(console, report.as_bytes());
}
