#![tactic(auto)]

// Strings of decoded rows, found by an array of positions: lookups, and a hash that says where to look first.
ghost use Rattle.std.specs.Prelude.{◌≡◌, ◌≤◌, length};
ghost use Rattle.text.specs.String.{same};
ghost use Rattle.table_place.specs.Place.{str_end, str_in};
ghost use Rattle.table_rows.specs.Strings.{strings_in, Listed, place, hash_of};

use text_hash::Seed;

// The string at `at` is the name.
pub fn is_at(f: &[u8], at: usize, name: &[u8]) -> bool
    requires { str_end f.now at ≤ length f.now }
    ensures { result ≡ same name.now (str_in f.now at) }
{
    let n = f[at] as usize;
    let start = at + 1;
    let end = start + n;
    text::string::is_same(name, &f[start..end])
}

// The number of the first of n strings that is the name; n where none is.
pub fn find(f: &[u8], starts: &[u16], n: usize, name: &[u8]) -> usize
    requires { Listed f.now starts.now n }
    ensures { result ≡ place name.now (strings_in f.now starts.now n 0) }
{
    for i in 0..n {
        let at = starts[i] as usize;
        if is_at(f, at, name) {
            return i;
        }
    }
    n
}

// How many numbers the hash gives: the upper 13 bits of the 32 of `mix`.
const HASHES: usize = 8192;

const HASH_STEP: usize = 4294967296 / HASHES;

// A number below HASHES that equal strings share.
pub fn hash(s: &[u8]) -> usize
    ensures { result ≡ hash_of s.now }
{
    let factors = Seed {
        first: 1201626857,
        second: 1150305587,
    };
    text_hash::mix(factors, 0, s) / HASH_STEP
}
