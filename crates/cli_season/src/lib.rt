#![tactic(auto)]

// Season reports: their sum, and the page on a season for a person.
// burgee season TABLE LOG
mod making;
pub mod refusals;
pub mod sums;

use cli_show::console::Console;
use season_count::Tally;

// Prints the page on an accepted table's rules, how often each decided, and the grid.
pub fn page(console: &mut Console, text: &[u8], tally: &Tally) {
    cli_show::word(console, making::make(text, tally).as_bytes());
}

// The page on a table, and on the log that an argument names.
pub fn season(console: &mut Console, table: &[u8], argument: usize) {
    if let Some(tally) = cli_report::count(console, table, argument) {
        page(console, table, &tally);
    }
}
