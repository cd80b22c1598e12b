// A row of any kind.
ghost use Rattle.std.specs.Prelude.{◌≡◌, ◌≤◌, ◌<◌, length};
ghost use Rattle.limits.specs.Limits.{max_groups, max_members, max_rules};
ghost use Rattle.limits.specs.Sizes.{max_table_bytes};
ghost use Rattle.text.specs.Refusal.{clear};
ghost use Rattle.refusal.specs.Refusal.{code};
ghost use Rattle.text.specs.Frame.{part};
ghost use Rattle.table.specs.Frame.{entry_of};
ghost use Rattle.table.specs.Refusal.{Earlier, framed, refusal};
ghost use Rattle.table_load.specs.Held.{counts_after};
ghost use Rattle.table_load.specs.Loaded.{HeldBy, GrownBy};

use crate::Table;
use refusal::Refusal;
use table_keep::{GroupNames, Lookup, Row};

// What the rows so far are: the kind of the last, and how many groups, members and rules.
#[derive(Clone, Copy)]
pub struct Counts {
    pub kind: u8,
    pub groups: usize,
    pub members: usize,
    pub rules: usize,
}

// What finds a row again while rows come: the names of groups, and the sets of members and of ids.
#[derive(Drop)]
pub struct Sets {
    pub names: GroupNames,
    pub members: [u32; table_keep::MEMBER_KEYS],
    pub ids: [u32; table_keep_rule::ID_KEYS],
}

impl Counts {
    // Of no row.
    pub const NONE: Counts = Counts {
        kind: 0,
        groups: 0,
        members: 0,
        rules: 0,
    };

    // The counts after one row more, of that kind.
    pub fn after(self, kind: u8) -> Counts
        requires { (self.groups ≤ max_groups) × (self.members ≤ max_members) × (self.rules ≤ max_rules) }
        ensures { result ≡ counts_after self kind }
    {
        match kind {
            table::KIND_GROUP => Counts {
                kind,
                groups: self.groups + 1,
                ..self
            },
            table::KIND_MEMBER => Counts {
                kind,
                members: self.members + 1,
                ..self
            },
            table::KIND_RULE => Counts {
                kind,
                rules: self.rules + 1,
                ..self
            },
            _ => Counts { kind, ..self },
        }
    }
}

impl Table {
    // What refuses the frame that stands behind the rows so far, up to `end`. Where nothing does, the row is kept; it is not counted yet.
    pub fn take_row(&mut self, sets: &mut Sets, end: usize) -> Result<(), Refusal>
        requires used_lt_end { (self.old.used < end) × (end ≤ length self.old.frames) × (end ≤ max_table_bytes) }
        requires held { (b : Earlier) × HeldBy b self.old sets.old }
        ensures row { (b : Earlier) → HeldBy b self.old sets.old
            → (code result ≡ refusal b (framed (entry_of (part self.old.frames self.old.used end))))
            × (code result ≡ clear → GrownBy b self.old (part self.old.frames self.old.used end) self.new sets.new) }
        ensures unchanged { (self.new.frames ≡ self.old.frames) × (self.new.used ≡ self.old.used) × (self.new.counts ≡ self.old.counts) }
    {
        let used = self.used;
        let counts = self.counts;
        let frames: &[u8] = &self.frames;
        let old = &frames[..used];
        let f = &frames[used..end];
        let row = Row {
            old,
            frame: f,
            last: counts.kind,
        };
        let groups = Lookup {
            bytes: old,
            starts: &self.groups,
            count: counts.groups,
            names: &sets.names,
        };
        match f[0] {
            table::KIND_VERSION => table::frame::version_number(f, counts.kind),
            table::KIND_GROUP => {
                table_keep::take_group(row, &mut self.groups, counts.groups, &mut sets.names)
            }
            table::KIND_MEMBER => table_keep::take_member(
                row,
                groups,
                &mut self.users,
                &mut self.owners,
                counts.members,
                &mut sets.members,
            ),
            table::KIND_RULE => table_keep_rule::take_rule(
                row,
                groups,
                &mut self.starts,
                &mut self.holders,
                counts.rules,
                &mut sets.ids,
            ),
            _ => Err(Refusal::BadFrame),
        }
    }
}
