#![tactic(auto)]

// The groups of a user: a set with one bit for each group.
ghost use Rattle.std.specs.Prelude.{◌≡◌, ◌≤◌, ◌<◌, length};
ghost use Rattle.limits.specs.Limits.{max_groups};
ghost use Rattle.text.specs.Test.{whether◌then◌else◌};
ghost use Rattle.text.specs.String.{same};
ghost use Rattle.table_place.specs.Place.{str_end, str_in};
ghost use Rattle.table.specs.Counted.{counted_as};
ghost use Rattle.table_membership.specs.Set.{insert_of, has_of, Members, set_in, group_of, count_in};

use refusal::{Fault, Refusal};
use table::{GroupNumber, Groups, RuleNumber};

// The set with group g.
fn insert(set: u64, g: GroupNumber) -> u64
    requires { g.0 < max_groups }
    ensures { result ≡ insert_of set g.0 }
{
    let n = g.0;
    set | (1 << n)
}

// Group g is in the set.
pub fn has(set: u64, g: GroupNumber) -> bool
    requires { g.0 < max_groups }
    ensures { result ≡ has_of set g.0 }
{
    let n = g.0;
    (set >> n) & 1 == 1
}

// The group of a rule whose subject is a group.
pub fn group_of(holders: &[u8], rule: RuleNumber) -> GroupNumber
    requires { rule.0 < length holders.now }
    ensures { result ≡ group_of holders.now rule }
{
    let k = rule.0 as usize;
    GroupNumber(holders[k])
}

// The group is put in where the string at `at` is the user.
pub fn join(set: u64, g: GroupNumber, f: &[u8], at: usize, user: &[u8]) -> u64
    requires { (g.0 < max_groups) × (str_end f.now at ≤ length f.now) }
    ensures { result ≡ (whether same user.now (str_in f.now at) then insert_of set g.0 else set) }
{
    if table_rows::is_at(f, at, user) {
        return insert(set, g);
    }
    set
}

// The set of the user's groups, by the first n members.
pub fn memberships(f: &[u8], users: &[u16], owners: &[u8], n: usize, user: &[u8]) -> u64
    requires { Members f.now users.now owners.now n }
    ensures { result ≡ set_in user.now f.now users.now owners.now n 0 0 }
{
    let mut set: u64 = 0;
    for i in 0..n {
        let at = users[i] as usize;
        set = join(set, GroupNumber(owners[i]), f, at, user);
    }
    set
}

// The count of the user's groups, which the set has.
pub fn count_of(set: u64, user: &[u8]) -> Result<Option<Groups>, Fault>
    ensures { counted_as result ≡ count_in user.now set }
{
    if table::is_bad_user(user) {
        return Err(Fault::at(Refusal::BadUserOrMode, 0));
    }
    let count = u64::count_ones(set);
    if count == 0 {
        return Ok(None);
    }
    Ok(Some(Groups {
        count: count as u8,
        first: GroupNumber(u64::trailing_zeros(set) as u8),
    }))
}
