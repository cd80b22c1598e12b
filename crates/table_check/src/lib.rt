#![tactic(auto)]

// What is told of a table text as a whole: its check, the counts of its rows, a user's groups and their count.
ghost use Rattle.table_check.specs.Look.{Looked};

use refusal::Fault;
use table_load::Table;
use table_load::row::Counts;

pub mod check;
pub mod count;

pub use check::check_table;
pub use count::count_groups;

// What a look at a table text tells of its rows, and of one user: `set` has his groups.
#[derive(Clone, Copy)]
pub struct Seen {
    pub counts: Counts,
    pub set: u64,
}

// Loads the table once. Where no user is asked for, any will do.
pub fn look(text: &[u8], user: &[u8]) -> Result<Seen, Fault>
    ensures { Looked text.now user.now result }
{
    let mut table = Table::new();
    table_load::load(text, &mut table)?;
    let counts = table.counts;
    let set = table_membership::memberships(
        table.bytes(),
        &table.users,
        &table.owners,
        counts.members,
        user,
    );
    Ok(Seen { counts, set })
}
