// Strings and keys of checked path bytes.
ghost use Rattle.std.specs.Prelude.{◌≡◌, ◌≤◌, length};
ghost use Rattle.text.specs.Test.{◌or◌, all, any};
ghost use Rattle.text.specs.String.{bytes, same};
ghost use Rattle.verdict.specs.Cover.{wild, given, holds};
ghost use Rattle.table_place.specs.Place.{str_end, str_in};
ghost use Rattle.verdict_compare.specs.Compare.{answers, key_passes};
ghost use Rattle.verdict_compare.specs.Place.{key, keys};

use crate::place::{Key, Keys};

// Whether the strings at two positions are the same.
pub fn same_at(f: &[u8], p: usize, g: &[u8], q: usize) -> bool
    requires { (str_end f.now p ≤ length f.now) × (str_end g.now q ≤ length g.now) }
    ensures { result ≡ same (str_in f.now p) (str_in g.now q) }
{
    let a = p + 1;
    let b = q + 1;
    let d = table_place::str_end(f, p);
    let e = table_place::str_end(g, q);
    text::string::is_same(&f[a..d], &g[b..e])
}

// Whether the string is `*`.
pub fn is_star(f: &[u8], at: usize) -> bool
    requires { str_end f.now at ≤ length f.now }
    ensures { result ≡ same (str_in f.now at) (bytes "*") }
{
    f[at] == 1 && f[at + 1] == 42
}

impl<'a> Key<'a> {
    pub fn is_wild(self) -> bool
        ensures { result ≡ wild (key self.entry) }
    {
        is_star(self.bytes, table_place::str_end(self.bytes, self.at))
    }

    // Whether it has the other's name and, as `cover` says, its value, or another definite value.
    fn answers(self, cover: bool, other: Key) -> bool
        ensures { result ≡ answers cover (key self.entry) (key other.entry) }
    {
        let Key { bytes: g, at: q } = self;
        let Key { bytes: f, at: p } = other;
        if !same_at(g, q, f, p) {
            return false;
        }
        let b = table_place::str_end(g, q);
        let a = table_place::str_end(f, p);
        if same_at(g, b, f, a) {
            return cover;
        }
        !cover && !is_star(g, b)
    }

    // Whether it is a wildcard, or one of `mine` is the same, or, as `cover` says, one of `more` is, or none of those gives it another value.
    fn passes(self, cover: bool, mine: Keys, more: Keys) -> bool
        ensures { result ≡ (wild (key self.entry) or key_passes cover (keys mine.entry) (keys more.entry) (key self.entry)) }
    {
        if self.is_wild() || mine.give(self) {
            return true;
        }
        if cover {
            return more.give(self);
        }
        !more.answer(false, self)
    }
}

impl<'a> Keys<'a> {
    // Whether one of them answers the key.
    fn answer(self, cover: bool, asked: Key) -> bool
        ensures { result ≡ any (λ j. answers cover j (key asked.entry)) (keys self.entry) }
    {
        for j in self {
            if j.answers(cover, asked) {
                return true;
            }
        }
        false
    }

    // Whether one of them is the key.
    pub fn give(self, asked: Key) -> bool
        ensures { result ≡ holds (keys self.entry) (key asked.entry) }
    {
        self.answer(true, asked)
    }

    // Whether each definite one passes.
    pub fn pass(self, cover: bool, mine: Keys, more: Keys) -> bool
        ensures { result ≡ all (key_passes cover (keys mine.entry) (keys more.entry)) (given (keys self.entry)) }
    {
        for k in self {
            if !k.passes(cover, mine, more) {
                return false;
            }
        }
        true
    }
}
