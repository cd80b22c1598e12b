// The groups so far, and which of them has a name.
ghost use Rattle.std.specs.Prelude.{◌≡◌, ltb, get_or};
ghost use Rattle.text.specs.Test.{◌and◌};
ghost use Rattle.text.specs.String.{same};
ghost use Rattle.table_place.specs.Place.{str_in};
ghost use Rattle.table_rows.specs.Strings.{strings_in, place};
ghost use Rattle.table_keep.specs.Held.{Groups};

use table::GroupNumber;

// Where a name's hash says which group to try first.
pub const HINT_PLACES: usize = 16 * limits::MAX_GROUPS;

// The names of groups: for each hash the number to try first, and the names in byte order, as spans of the decoded bytes.
#[derive(Drop)]
pub struct GroupNames {
    pub hints: [u8; HINT_PLACES],
    pub sorted: [u32; limits::MAX_GROUPS],
}

// The groups so far: where the name of each stands in the bytes, how many they are, and their names.
#[derive(Clone, Copy)]
pub struct Lookup<'a> {
    pub bytes: &'a [u8],
    pub starts: &'a [u16; limits::MAX_GROUPS],
    pub count: usize,
    pub names: &'a GroupNames,
    ghost groups: { Groups bytes.now starts.now names.now.sorted count },
}

impl<'a> Lookup<'a> {
    // Whether group g is one of them, and has that name.
    fn is_named(self, g: GroupNumber, name: &[u8]) -> bool
        ensures { result ≡ (ltb g.0 self.entry.count
            and same name.now (str_in self.entry.bytes.now (get_or self.entry.starts.now g.0 0))) }
    {
        let k = g.0 as usize;
        if self.count <= k {
            return false;
        }
        let at = self.starts[k] as usize;
        table_rows::is_at(self.bytes, at, name)
    }

    // That of them whose name begins at `start`, found by halving, since groups stand in the order of the text. Nothing is promised: the caller
    // tries what is answered.
    fn number_at(self, start: usize) -> GroupNumber {
        let mut low = 0;
        let mut high = self.count;
        while low < high {
            let mid = low + (high - low) / 2;
            if self.starts[mid] as usize + 1 < start {
                low = mid + 1;
            } else {
                high = mid;
            }
        }
        GroupNumber(low as u8)
    }

    // The same as `number_of`, by the sorted names: where the name is there, its position tells which group to try.
    fn number_by_name(self, name: &[u8]) -> GroupNumber
        ensures { result.0 ≡ place name.now (strings_in self.entry.bytes.now self.entry.starts.now self.entry.count 0) }
    {
        let Lookup {
            bytes,
            starts,
            count,
            names,
        } = self;
        let s = text_sorted::find(bytes, &names.sorted, count, name);
        let at = s.at;
        if !s.again | (count <= at) {
            return GroupNumber(count as u8);
        }
        let k = names.sorted[at] as usize;
        let g = self.number_at(k / 65536);
        if self.is_named(g, name) {
            return g;
        }
        let i = table_rows::find(bytes, starts, count, name);
        GroupNumber(i as u8)
    }

    // The number of the group with that name; the number after the last group's where none has it, which no group has: so it is kept as it is
    // until the row is judged. The hint at the name's hash is tried first.
    pub fn number_of(self, name: &[u8]) -> GroupNumber
        ensures { result.0 ≡ place name.now (strings_in self.entry.bytes.now self.entry.starts.now self.entry.count 0) }
    {
        let h = table_rows::hash(name) % HINT_PLACES;
        let hint = GroupNumber(self.names.hints[h]);
        if self.is_named(hint, name) {
            return hint;
        }
        self.number_by_name(name)
    }
}
