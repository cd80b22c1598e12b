// Two paths in step, and a path against two.
ghost use Rattle.std.specs.Prelude.{◌≡◌, ◌≤◌, ◌<◌, length};
ghost use Rattle.table_place.specs.Place.{path_end, path_in};
ghost use Rattle.verdict.specs.Cover.{covers};
ghost use Rattle.verdict.specs.Join.{agree};
ghost use Rattle.verdict.specs.Pair.{covers_both};
ghost use Rattle.verdict_compare.specs.Compare.{path_passes};
ghost use Rattle.verdict_compare.specs.Place.{elements};

use crate::place::Elements;

impl<'a> Elements<'a> {
    // The path at a position: a count, and so many elements.
    pub fn read(bytes: &'a [u8], at: usize) -> Elements<'a>
        requires { path_end bytes.now at ≤ length bytes.now }
        ensures path { elements result ≡ path_in bytes.now at }
        ensures few { result.count < 256 }
    {
        Elements {
            bytes,
            at: at + 1,
            count: bytes[at] as usize,
        }
    }

    // In step with the other path, each pair of elements by the test that `cover` says. Where the other ends first, this one does not cover it,
    // and the two agree.
    fn passes(self, cover: bool, other: Elements) -> bool
        ensures { result ≡ path_passes cover (elements self.entry) (elements other.entry) }
    {
        let mut own = self;
        let mut asked = other;
        while let Some(a) = own.first() {
            let Some(b) = asked.first() else {
                return !cover;
            };
            if !a.passes(cover, b) {
                return false;
            }
            own = own.rest();
            asked = asked.rest();
        }
        true // the first path is no longer than the second
    }

    // Whether the other path lies at or beneath this one.
    pub fn covers(self, other: Elements) -> bool
        ensures { result ≡ covers (elements self.entry) (elements other.entry) }
    {
        self.passes(true, other)
    }

    // Whether the two agree as far as both go.
    pub fn agrees(self, other: Elements) -> bool
        ensures { result ≡ agree (elements self.entry) (elements other.entry) }
    {
        self.passes(false, other)
    }

    // Whether the joined path of two others, which agree, lies at or beneath this one. The joined path is not made.
    pub fn covers_both(self, first: Elements, second: Elements) -> bool
        ensures { result ≡ covers_both (elements self.entry) (elements first.entry) (elements second.entry) }
    {
        let mut own = self;
        let mut left = first;
        let mut right = second;
        while let Some(a) = own.first() {
            let Some(b) = left.first() else {
                return own.covers(right);
            };
            let Some(c) = right.first() else {
                return own.covers(left);
            };
            if !a.meets_both(b, c) {
                return false;
            }
            own = own.rest();
            left = left.rest();
            right = right.rest();
        }
        true
    }
}
