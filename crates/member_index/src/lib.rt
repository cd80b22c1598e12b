#![tactic(auto)]

// The members of a table by the place of a hash, so that a user's groups are found without a look at all members.
ghost use Rattle.std.specs.Prelude.{◌≡◌, ◌≤◌, length};
ghost use Rattle.text_hash.specs.Mix.{Small, place_of};
ghost use Rattle.table_place.specs.Place.{str_end, str_in};
ghost use Rattle.table_membership.specs.Set.{Members, set_in};
ghost use Rattle.member_index.specs.Index.{places, Linkable, Linked};

use table::GroupNumber;
use text_hash::Seed;

// Any number of places would do.
pub const PLACES: usize = limits::MAX_MEMBERS;

// The place of the string at `at`.
pub fn place_at(f: &[u8], at: usize, seed: Seed) -> usize
    requires { (str_end f.now at ≤ length f.now) × Small seed }
    ensures { result ≡ place_of seed places (str_in f.now at) }
{
    let start = at + 1;
    let end = table_place::str_end(f, at);
    text_hash::place(seed, PLACES, &f[start..end])
}

// Chains the n members of each place, in rising order: `heads` gets the first of each place, `links` for each member the next one of its place. Members
// are counted from 1 there, and 0 stands for none.
pub fn link(f: &[u8], users: &[u16], n: usize, seed: Seed, heads: &mut [u16], links: &mut [u16])
    requires { Linkable seed f.now users.now n heads.old links.old }
    ensures { Linked seed f.now users.now n heads.new links.new
        × (length links.new ≡ length links.old) }
{
    let mut left = n;
    while 0 < left {
        let i = left - 1;
        let at = users[i] as usize;
        let b = place_at(f, at, seed);
        links[i] = heads[b];
        heads[b] = left as u16;
        left = i;
    }
}

// The set of the user's groups, by the n members; `place` is the user's.
pub fn memberships(
    f: &[u8],
    users: &[u16],
    owners: &[u8],
    n: usize,
    heads: &[u16],
    links: &[u16],
    seed: Seed,
    place: usize,
    user: &[u8],
) -> u64
    requires { Members f.now users.now owners.now n × Linked seed f.now users.now n heads.now links.now
        × (place ≡ place_of seed places user.now) }
    ensures { result ≡ set_in user.now f.now users.now owners.now n 0 0 }
{
    let mut set: u64 = 0;
    let mut next = heads[place] as usize;
    while 0 < next {
        let i = next - 1;
        let at = users[i] as usize;
        set = table_membership::join(set, GroupNumber(owners[i]), f, at, user);
        next = links[i] as usize;
    }
    set
}
