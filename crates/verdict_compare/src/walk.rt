// Walks over keys and over elements.
ghost use Rattle.std.specs.Prelude.{◌≡◌, ◌<◌};
ghost use Rattle.std.specs.Iterator.{YieldsFirstBy, item_count};
ghost use Rattle.verdict_compare.specs.Place.{key, keys, element, elements, First, Rest};

use crate::place::{Element, Elements, Key, Keys};

impl<'a> Iterator for Keys<'a> {
    type Item = Key<'a>;

    ghost next_gives = { YieldsFirstBy key keys };

    ghost remaining = { item_count keys };

    fn next(&mut self) -> Option<Key<'a>> {
        let Keys { bytes, at, count } = *self;
        if count == 0 {
            return None;
        }
        *self = Keys {
            bytes,
            at: table_place::key_end(bytes, at),
            count: count - 1,
        };
        Some(Key { bytes, at })
    }
}

impl<'a> Iterator for Elements<'a> {
    type Item = Element<'a>;

    ghost next_gives = { YieldsFirstBy element elements };

    ghost remaining = { item_count elements };

    fn next(&mut self) -> Option<Element<'a>> {
        let Some(first) = self.first() else {
            return None;
        };
        *self = self.rest();
        Some(first)
    }
}

impl<'a> Elements<'a> {
    pub fn first(self) -> Option<Element<'a>>
        ensures { First self.entry result }
    {
        let Elements { bytes, at, count } = self;
        if count == 0 {
            return None;
        }
        Some(Element { bytes, at })
    }

    // Those after the first: apart from it, since where an element ends is worth finding out only once it passes a test.
    pub fn rest(self) -> Elements<'a>
        requires { 0 < self.count }
        ensures { Rest self.entry result }
    {
        let Elements { bytes, at, count } = self;
        Elements {
            bytes,
            at: table_place::elem_end(bytes, at),
            count: count - 1,
        }
    }
}
