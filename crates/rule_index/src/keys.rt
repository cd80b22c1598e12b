// The keys of rules: a number for each that has its bucket, then how far its rank is below the top, then its number. In rising order the rules of
// a bucket stand side by side, the best first.
ghost use Rattle.std.specs.Prelude.{◌≡◌, ◌≤◌, ◌<◌, length};
ghost use Rattle.limits.specs.Limits.{max_rules};
ghost use Rattle.text_hash.specs.Mix.{Small};
ghost use Rattle.verdict_judge.specs.Place.{rule};
ghost use Rattle.member_index.specs.Index.{places};
ghost use Rattle.rule_index.specs.Index.{buckets, subject_place, Keyed, AllKeyed, Bounded, Firsts, Index};

use table::RuleNumber;
use text_hash::Seed;
use verdict_compare::place::Elements;
use verdict_judge::rules::{PlacedRules, Rule};

// As many as members have places, so that a user's place serves both.
pub const BUCKETS: usize = member_index::PLACES;

// More than any rank.
pub const RANKS: usize = 17179869184;

// The place of the rule's subject: 0 for a group.
fn subject_place(own: Rule, seed: Seed) -> usize
    requires { Small seed }
    ensures { result ≡ subject_place seed (rule own.entry) }
{
    if own.is_by_group() {
        return 0;
    }
    member_index::place_at(own.bytes, own.at + table::RULE_SUBJECT, seed)
}

// The key of rule i.
fn key_of(own: Rule, i: usize, uses: &[u16], seed: Seed) -> u64
    requires { (i < max_rules) × Small seed × (length uses.now ≡ places) }
    ensures { Keyed seed (rule own.entry) i result }
{
    let at = own.path_at();
    let path = Elements::read(own.bytes, at);
    let w = own.rank_of(path);
    let c = member_index::place_at(
        own.bytes,
        crate::clue::clue_at(own.bytes, at, uses, seed),
        seed,
    );
    let b = (subject_place(own, seed) + c) % BUCKETS;
    ((b * RANKS + (RANKS - 1 - w)) * limits::MAX_RULES + i) as u64
}

// The keys of the rules, in the order of their numbers.
fn make(rules: PlacedRules, uses: &[u16], seed: Seed, keys: &mut [u64])
    requires { (rules.count ≤ length keys.old) × Small seed × (length uses.now ≡ places) }
    ensures keyed { AllKeyed seed rules.entry.bytes.now rules.entry.starts.now rules.entry.count keys.new }
    ensures len_unchanged { length keys.new ≡ length keys.old }
{
    for i in 0..rules.count {
        keys[i] = key_of(rules.rule(RuleNumber(i as u16)), i, uses, seed);
    }
}

// Puts down for each bucket where its first key stands, counted from 1.
fn mark_first(keys: &[u64], n: usize, first: &mut [u16])
    requires { (n ≤ max_rules) × (n ≤ length keys.now) × (length first.old ≡ buckets) × Bounded keys.now n }
    ensures { (length first.new ≡ buckets) × Firsts keys.now n first.new }
{
    let mut left = n;
    while 0 < left {
        let b = keys[left - 1] as usize / (RANKS * limits::MAX_RULES);
        first[b] = left as u16;
        left -= 1;
    }
}

// The index of the rules. `spare` is scratch.
pub fn index(rules: PlacedRules, seed: Seed, keys: &mut [u64], spare: &mut [u64], first: &mut [u16])
    requires { (rules.count ≤ length keys.old) × (rules.count ≤ length spare.old) × (length first.old ≡ buckets) × Small seed }
    ensures { Index seed rules.entry.bytes.now rules.entry.starts.now rules.entry.count keys.new first.new }
{
    let mut uses = [0u16; BUCKETS];
    crate::uses::count(rules, seed, &mut uses);
    make(rules, &uses, seed, keys);
    number_sort::sort(keys, rules.count, spare);
    mark_first(keys, rules.count, first);
}
