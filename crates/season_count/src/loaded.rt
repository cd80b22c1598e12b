// A loaded table, as the lines of a log are judged on it.
ghost use Rattle.table_membership.specs.Set.{Members};

use verdict_judge::rules::Rules;

#[derive(Clone, Copy)]
pub struct Loaded<'a> {
    pub rules: Rules<'a>,
    // Where the user of each member stands in the bytes of the rules, and the number of the member's group.
    pub users: &'a [u16],
    pub owners: &'a [u8],
    pub members: usize,
    ghost listed: { Members rules.bytes.now users.now owners.now members },
}
