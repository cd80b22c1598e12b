#![tactic(auto)]

// The season report on a table text and a log, with every refusal.
ghost use Rattle.std.specs.Prelude.{◌≡◌};
ghost use Rattle.season.specs.Calls.{season_answer, season_lent};
ghost use Rattle.season_call.specs.Written.{reported_of};

use refusal::Fault;
use season::Reported;
use season_count::lines::count_lines;
use season_count::{Loaded, Run, Tally};
use table_load::Table;

pub mod written;

// The report at the start of the buffer; how long it is.
fn report(table: &[u8], log: &[u8], out: &mut [u8]) -> Result<usize, Fault>
    ensures value { reported_of result ≡ season_answer table.now log.now out.old }
    ensures out_after { out.new ≡ season_lent table.now log.now out.old }
{
    let mut loaded = Table::new();
    table_load::load(table, &mut loaded)?;
    let mut run = Run::new();
    let mut tally = Tally::new();
    count_lines(Loaded::of(&loaded), log, &mut run, &mut tally)?;
    crate::written::hand_out(&tally.rules, &tally.grid, out)
}

// The same, answered as `season_answer` has it.
pub fn season_report(table: &[u8], log: &[u8], out: &mut [u8]) -> Reported
    ensures value { result ≡ season_answer table.now log.now out.old }
    ensures out_after { out.new ≡ season_lent table.now log.now out.old }
{
    match report(table, log, out) {
        Ok(len) => Reported::Length(len),
        Err(fault) => Reported::Refused {
            number: fault.refusal.number(),
            line: fault.line,
        },
    }
}
