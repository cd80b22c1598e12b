#![tactic(auto)]

// The lines of a log, counted on a loaded table.
ghost use Rattle.season_count.specs.Sound.{Sound, LoadedOf};

use table_load::Table;

pub mod count;
pub mod heading;
pub mod lines;
pub mod loaded;
pub mod run;

pub use count::Tally;
pub use loaded::Loaded;
pub use run::Run;

impl<'a> Loaded<'a> {
    pub fn of(table: &'a Table) -> Loaded<'a>
        requires { Sound table.now }
        ensures { LoadedOf table.now result }
    {
        Loaded {
            rules: verdict_call::rules_of(table),
            users: &table.users,
            owners: &table.owners,
            members: table.counts.members,
        }
    }
}
