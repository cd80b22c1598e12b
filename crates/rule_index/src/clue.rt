// The clue of a rule's path: the value of a definite key, or the first name where there is none. Of several values that is taken which the fewest rules have,
// so that few rules share a bucket.
ghost use Rattle.std.specs.Prelude.{◌≡◌, false, ◌⊎◌, ◌≤◌, length};
ghost use Rattle.text.specs.Test.{◌∈◌};
ghost use Rattle.text.specs.String.{bytes, same};
ghost use Rattle.text_hash.specs.Mix.{Small};
ghost use Rattle.table_place.specs.Place.{str_end, str_in, keys_in, keys_end, path_in, path_end};
ghost use Rattle.verdict.specs.Cover.{given};
ghost use Rattle.member_index.specs.Index.{places};
ghost use Rattle.rule_index.specs.Clue.{values_of, rule_clues};

use text_hash::Seed;

// Where a clue stands, and how many uses its place has.
#[derive(Clone, Copy)]
struct Choice {
    at: usize,
    uses: usize,
}

// More uses than any place has.
const NO_VALUE: usize = 65536;

// The value at v, where it is definite and its place has fewer uses than that of the choice.
fn choose(c: Choice, f: &[u8], v: usize, uses: &[u16], seed: Seed) -> Choice
    requires { (str_end f.now v ≤ length f.now) × (length uses.now ≡ places) × Small seed }
    ensures { (result.at ≡ c.at) ⊎ ((result.at ≡ v) × (same (str_in f.now v) (bytes "*") ≡ false)) }
{
    let is_star = verdict_compare::key::is_star(f, v);
    let p = member_index::place_at(f, v, seed);
    let n = uses[p] as usize;
    if is_star | (c.uses <= n) {
        return c;
    }
    Choice { at: v, uses: n }
}

// The choice after the values of k keys, from `at` on.
fn choose_of(c: Choice, f: &[u8], at: usize, k: usize, uses: &[u16], seed: Seed) -> Choice
    requires { (keys_end k f.now at ≤ length f.now) × (length uses.now ≡ places) × Small seed }
    ensures { (result.at ≡ c.at)
        ⊎ ((str_end f.now result.at ≤ length f.now) × (str_in f.now result.at ∈ values_of (given (keys_in k f.now at)))) }
{
    let mut best = c;
    let mut q = at;
    let mut left = k;
    while 0 < left {
        let v = table_place::str_end(f, q);
        best = choose(best, f, v, uses, seed);
        q = table_place::str_end(f, v);
        left -= 1;
    }
    best
}

// Where the clue of the path at `at` stands: a string. That of no elements is the path itself, as an empty string.
pub fn clue_at(f: &[u8], at: usize, uses: &[u16], seed: Seed) -> usize
    requires { (path_end f.now at ≤ length f.now) × (length uses.now ≡ places) × Small seed }
    ensures { (str_end f.now result ≤ length f.now) × (str_in f.now result ∈ rule_clues (path_in f.now at)) }
{
    let n = f[at] as usize;
    if n == 0 {
        return at;
    }
    let mut clue = Choice {
        at: at + 1,
        uses: NO_VALUE,
    };
    let mut q = at + 1;
    let mut left = n;
    while 0 < left {
        let a = table_place::str_end(f, q);
        let k = f[a] as usize;
        clue = choose_of(clue, f, a + 1, k, uses, seed);
        q = table_place::elem_end(f, q);
        left -= 1;
    }
    clue.at
}
