// A loaded table.
ghost use Rattle.std.specs.Prelude.{◌≡◌, ◌≤◌, length, take};

use crate::row::Counts;

// The decoded frames of a table text, and where groups, members and rules stand in them: `groups` and `users` have the positions of their strings,
// `starts` those of the rules' frames after the kind byte; `owners` and `holders` the numbers of the groups of members and of rules.
#[derive(Drop)]
pub struct Table {
    pub frames: [u8; limits::MAX_TABLE_BYTES],
    // How many of them are.
    pub used: usize,
    pub groups: [u16; limits::MAX_GROUPS],
    pub users: [u16; limits::MAX_MEMBERS],
    pub owners: [u8; limits::MAX_MEMBERS],
    pub starts: [u16; limits::MAX_RULES],
    pub holders: [u8; limits::MAX_RULES],
    pub counts: Counts,
    ghost within: { used ≤ length frames },
}

impl Table {
    // With no row.
    pub fn new() -> Table
        ensures empty { result.used ≡ 0 }
        ensures no_row { (result.counts.groups ≡ 0) × (result.counts.members ≡ 0) × (result.counts.rules ≡ 0) }
    {
        Table {
            frames: [0; limits::MAX_TABLE_BYTES],
            used: 0,
            groups: [0; limits::MAX_GROUPS],
            users: [0; limits::MAX_MEMBERS],
            owners: [0; limits::MAX_MEMBERS],
            starts: [0; limits::MAX_RULES],
            holders: [0; limits::MAX_RULES],
            counts: Counts::NONE,
        }
    }

    // The decoded frames.
    pub fn bytes(&self) -> &[u8]
        ensures { result.now ≡ take self.now.used self.now.frames }
    {
        &self.frames[..self.used]
    }
}
