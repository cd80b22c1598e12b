// How many values of definite keys each place has.
ghost use Rattle.std.specs.Prelude.{◌≡◌, ◌≤◌, length};
ghost use Rattle.text_hash.specs.Mix.{Small};
ghost use Rattle.table_place.specs.Place.{str_end};
ghost use Rattle.member_index.specs.Index.{places};

use table::RuleNumber;
use text_hash::Seed;
use verdict_compare::place::Keys;
use verdict_judge::rules::PlacedRules;

// One use more of the value at v, unless it is a wildcard. A place has no more uses than 16 bits tell.
fn count_value(f: &[u8], v: usize, seed: Seed, uses: &mut [u16])
    requires { (str_end f.now v ≤ length f.now) × (length uses.old ≡ places) × Small seed }
    ensures { length uses.new ≡ length uses.old }
{
    if verdict_compare::key::is_star(f, v) {
        return;
    }
    let p = member_index::place_at(f, v, seed);
    if uses[p] < 65535 {
        uses[p] += 1;
    }
}

// Those of the keys.
fn count_keys(own: Keys, seed: Seed, uses: &mut [u16])
    requires { (length uses.old ≡ places) × Small seed }
    ensures { length uses.new ≡ length uses.old }
{
    for k in own {
        count_value(k.bytes, table_place::str_end(k.bytes, k.at), seed, uses);
    }
}

// Those of the rules.
pub fn count(rules: PlacedRules, seed: Seed, uses: &mut [u16])
    requires { (length uses.old ≡ places) × Small seed }
    ensures { length uses.new ≡ length uses.old }
{
    for i in 0..rules.count {
        for e in rules.rule(RuleNumber(i as u16)).path() {
            count_keys(e.keys(), seed, uses);
        }
    }
}
