#![tactic(auto)]

// Bloom filters of paths, from checked path bytes.

ghost use Rattle.std.specs.Prelude.{◌≡◌, ◌+◌, ◌*◌, ◌≤◌, ◌<◌, length};
ghost use Rattle.text_hash.specs.Mix.{Small, mix};
ghost use Rattle.table_place.specs.Place.{str_end, str_in};
ghost use Rattle.verdict_compare.specs.Place.{key, keys, element, elements};
ghost use Rattle.verdict_filter.specs.Bloom.{none, digits, unite, depth_step, key_digits, keys_digits, elem_digits, path_digits, beyond};

use text_hash::Seed;
use verdict_compare::place::{Element, Elements, Key, Keys};

// What the depth grows by from one element to the next.
const DEPTH_STEP: usize = 256;

// Four numbers, each with binary digits.
#[derive(Clone, Copy, PartialEq, Eq)]
pub struct Filter {
    pub a: u64,
    pub b: u64,
    pub c: u64,
    pub d: u64,
}

pub fn empty() -> Filter
    ensures { result ≡ none }
{
    Filter {
        a: 0,
        b: 0,
        c: 0,
        d: 0,
    }
}

// The digits of both.
pub fn unite(x: Filter, y: Filter) -> Filter
    ensures { result ≡ unite x y }
{
    Filter {
        a: x.a | y.a,
        b: x.b | y.b,
        c: x.c | y.c,
        d: x.d | y.d,
    }
}

// The hash of the string at a position.
fn hash_at(s: Seed, h: usize, f: &[u8], at: usize) -> usize
    requires { Small s × (h < 4294967296) × (str_end f.now at ≤ length f.now) }
    ensures { result ≡ mix s h (str_in f.now at) }
{
    let a = at + 1;
    let e = table_place::str_end(f, at);
    text_hash::mix(s, h, &f[a..e])
}

fn digits(h: usize) -> Filter
    ensures { result ≡ digits h }
{
    Filter {
        a: 1 << ((h >> 26) % 64),
        b: 1 << ((h >> 20) % 64),
        c: 1 << ((h >> 14) % 64),
        d: 1 << ((h >> 8) % 64),
    }
}

// The key, unless it is a wildcard or one of the asked ones.
fn key_digits(s: Seed, d: usize, own: Key, asked: Keys) -> Filter
    requires { Small s × (d < 65536) }
    ensures { result ≡ key_digits s d (keys asked.entry) (key own.entry) }
{
    if own.is_wild() || asked.give(own) {
        return empty();
    }
    let Key { bytes, at } = own;
    let h = hash_at(s, d, bytes, at);
    digits(hash_at(s, h, bytes, table_place::str_end(bytes, at)))
}

fn keys_digits(s: Seed, d: usize, own: Keys, asked: Keys) -> Filter
    requires { Small s × (d < 65536) }
    ensures { result ≡ keys_digits s d (keys asked.entry) (keys own.entry) }
{
    let mut x = empty();
    for k in own {
        x = unite(x, key_digits(s, d, k, asked));
    }
    x
}

// An element where nothing is asked.
fn elem_digits(s: Seed, d: usize, own: Element) -> Filter
    requires { Small s × (d < 65536) }
    ensures { result ≡ elem_digits s d (element own.entry) }
{
    let name = digits(hash_at(s, d, own.bytes, own.at));
    unite(name, keys_digits(s, d, own.keys(), own.no_keys()))
}

// Elements where nothing is asked, the first at depth d.
fn path_digits(s: Seed, d: usize, own: Elements) -> Filter
    requires { Small s × (d + depth_step * own.count < 65536) }
    ensures { result ≡ path_digits s d (elements own.entry) }
{
    let mut x = empty();
    let mut depth = d;
    for e in own {
        x = unite(x, elem_digits(s, depth, e));
        depth += DEPTH_STEP;
    }
    x
}

// What a path has beyond the asked one.
pub fn beyond(s: Seed, path: Elements, asked: Elements) -> Filter
    requires { Small s × (path.count < 256) }
    ensures { result ≡ beyond s 0 (elements path.entry) (elements asked.entry) }
{
    let mut x = empty();
    let mut d = 0;
    let mut own = path;
    let mut other = asked;
    while let Some(e) = own.first() {
        let Some(p) = other.first() else {
            return unite(x, path_digits(s, d, own));
        };
        x = unite(x, keys_digits(s, d, e.keys(), p.keys()));
        d += DEPTH_STEP;
        own = own.rest();
        other = other.rest();
    }
    x
}
