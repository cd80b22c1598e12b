// How often each rule of a table decided over a log, and the grid. A log can be long: it is counted in parts.
// burgee report TABLE LOG
#![tactic(auto)]

mod progress;

ghost use Rattle.std.specs.Prelude.{◌≤◌, length, IfSome};
ghost use Rattle.cli_report.specs.Counted.{CountedRead, CountedOn};

use cli_console::input;
use cli_show::Stream;
use cli_show::console::Console;
use refusal::{Fault, Refusal};
use season_count::lines::count_lines;
use season_count::{Loaded, Run, Tally};
use season_sum::writing::MAX_REPORT;
use table_load::Table;
use text_make::Text;

// How many of the first `to` bytes of a part are counted at once: its whole lines; or all, where it is the last part or no line ends in it.
fn lines_end(part: &[u8], to: usize) -> usize
    requires { to ≤ length part.now }
    ensures { result ≤ to }
{
    if to < part.len() {
        return to;
    }
    let n = cli_parts::whole_length(part);
    if n == 0 {
        return to;
    }
    input::within(n, part)
}

// Tells why a log is refused, and prints the line, which stands in a text that comes after `before` lines. Standard output is for the report alone.
fn refuse(console: &mut Console, text: &[u8], before: usize, fault: Fault) {
    let number = fault.refusal.number();
    cli_console::refused::to(console, Stream::Error, number, fault.line);
    if before < fault.line {
        cli_console::refused::quote_line(console, Stream::Error, text, fault.line - before, true);
    }
}

// What is counted of the log that an argument names, on the table. None: something is not well, and that is told.
fn count_file(console: &mut Console, argument: usize, table: Loaded) -> Option<Tally>
    ensures { IfSome result (CountedRead table.entry) }
{
    let mut source = input::open(console, argument)?;
    let mut part = [0u8; cli_parts::ROOM];
    let mut run = Run::new();
    let mut tally = Tally::new();
    let mut from = 0;
    let mut to = 0;
    let mut told = progress::begin(console);
    // each part but the last has a line, so there are no more of them
    for parts in 0..limits::MAX_LOG_LINES + 1 {
        let got = cli_parts::more(console, argument, &mut source, &mut part, from, to);
        if !got.is_good {
            return None;
        }
        to = got.count;
        from = lines_end(&part, to);
        let before = tally.lines;
        if let Err(fault) = count_lines(table, &part[..from], &mut run, &mut tally) {
            refuse(console, &part[..from], before, fault);
            return None;
        }
        if to < part.len() {
            return Some(tally);
        }
        told = progress::tell(console, told, tally.lines);
    }
    None
}

// Tells why a table is refused.
fn refuse_table(console: &mut Console, table: &[u8], fault: Fault) {
    let number = fault.refusal.number();
    cli_console::refused::to(console, Stream::Error, number, fault.line);
    cli_console::refused::quote_line(
        console,
        Stream::Error,
        table,
        fault.line,
        fault.refusal == Refusal::NotHexLine,
    );
}

// What is counted, on a table, of the log that an argument names. None: something is not well, and that is told.
pub fn count(console: &mut Console, table: &[u8], argument: usize) -> Option<Tally>
    ensures { IfSome result (CountedOn table.now) }
{
    let mut loaded = Table::new();
    if let Err(fault) = table_load::load(table, &mut loaded) {
        refuse_table(console, table, fault);
        return None;
    }
    count_file(console, argument, Loaded::of(&loaded))
}

// Prints the report.
fn print(console: &mut Console, tally: &Tally) {
    let mut text: Text<MAX_REPORT> = Text::new();
    season_call::written::add_report(&tally.rules, &tally.grid, &mut text);
    cli_show::word(console, text.as_bytes());
}

// The report on a table, and on the log that an argument names.
pub fn report(console: &mut Console, table: &[u8], argument: usize) {
    if let Some(tally) = count(console, table, argument) {
        print(console, &tally);
    }
}
