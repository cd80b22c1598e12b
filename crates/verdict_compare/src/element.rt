// Two elements, and an element against two.
ghost use Rattle.std.specs.Prelude.{◌≡◌, []};
ghost use Rattle.text.specs.String.{same};
ghost use Rattle.verdict.specs.Pair.{meets_both};
ghost use Rattle.verdict_compare.specs.Compare.{elem_passes};
ghost use Rattle.verdict_compare.specs.Place.{keys, element};

use crate::place::{Element, Keys};

impl<'a> Element<'a> {
    pub fn keys(self) -> Keys<'a>
        ensures { keys result ≡ (element self.entry).keys }
    {
        let Element { bytes, at } = self;
        let a = table_place::str_end(bytes, at);
        Keys {
            bytes,
            at: a + 1,
            count: bytes[a] as usize,
        }
    }

    pub fn no_keys(self) -> Keys<'a>
        ensures { keys result ≡ [] }
    {
        Keys {
            bytes: self.bytes,
            at: 0,
            count: 0,
        }
    }

    fn has_name_of(self, other: Element) -> bool
        ensures { result ≡ same (element self.entry).name (element other.entry).name }
    {
        crate::key::same_at(self.bytes, self.at, other.bytes, other.at)
    }

    // Whether the other has its name and, as `cover` says, gives its definite keys, or gives none of them another value.
    pub fn passes(self, cover: bool, other: Element) -> bool
        ensures { result ≡ elem_passes cover (element self.entry) (element other.entry) }
    {
        if !self.has_name_of(other) {
            return false;
        }
        let own = self.keys();
        if own.count == 0 {
            return true;
        }
        own.pass(cover, self.no_keys(), other.keys())
    }

    // Whether two others together have its name, and give its definite keys.
    pub fn meets_both(self, first: Element, second: Element) -> bool
        ensures { result ≡ meets_both (element self.entry) (element first.entry) (element second.entry) }
    {
        if !self.has_name_of(first) {
            return false;
        }
        self.keys().pass(true, first.keys(), second.keys())
    }
}
