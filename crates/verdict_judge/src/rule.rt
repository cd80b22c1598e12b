// The parts of a rule, and its rank.
ghost use Rattle.std.specs.Prelude.{◌≡◌, ◌<◌, length};
ghost use Rattle.verdict.specs.Cover.{given};
ghost use Rattle.verdict.specs.Order.{definites, earlier};
ghost use Rattle.verdict.specs.Rank.{rank, top_rank};
ghost use Rattle.table_rows.specs.Rules.{id_at, origin_at, path_at};
ghost use Rattle.verdict_compare.specs.Place.{keys, elements};
ghost use Rattle.verdict_judge.specs.Place.{rule, nth};
ghost use Rattle.verdict_judge.specs.Placed.{nth as nth_placed};

use crate::rules::{PlacedRules, Rule, Rules};
use table::RuleNumber;
use verdict_compare::place::{Elements, Keys};

// The first byte of a subject's name, from a rule's start on.
const SUBJECT_NAME: usize = table::RULE_SUBJECT + 1;

// How many of the keys are definite.
fn count_given(own: Keys) -> usize
    ensures { result ≡ length (given (keys own.entry)) }
{
    let mut n = 0;
    for key in own {
        if !key.is_wild() {
            n += 1;
        }
    }
    n
}

// How many definite keys a path has.
pub fn count_keys(path: Elements) -> usize
    ensures { result ≡ definites (elements path.entry) }
{
    let mut n = 0;
    for element in path {
        n += count_given(element.keys());
    }
    n
}

impl<'a> Rules<'a> {
    // The rule with that number.
    pub fn rule(self, number: RuleNumber) -> Rule<'a>
        requires { number.0 < self.count }
        ensures { rule result ≡ nth self.entry number.0 }
    {
        self.places().rule(number)
    }
}

impl<'a> PlacedRules<'a> {
    // The rule with that number.
    pub fn rule(self, number: RuleNumber) -> Rule<'a>
        requires { number.0 < self.count }
        ensures { rule result ≡ nth_placed self.entry number.0 }
    {
        let i = number.0 as usize;
        Rule {
            bytes: self.bytes,
            at: self.starts[i] as usize,
        }
    }
}

impl<'a> Rule<'a> {
    // Where its id stands.
    pub fn id_at(self) -> usize
        ensures { result ≡ id_at self.entry.bytes.now self.entry.at }
    {
        table_place::str_end(self.bytes, self.at + table::RULE_SUBJECT)
    }

    pub fn id(self) -> &'a [u8]
        ensures { result.now ≡ (rule self.entry).id }
    {
        let i = self.id_at();
        let start = i + 1;
        let end = table_place::str_end(self.bytes, i);
        &self.bytes[start..end]
    }

    pub fn mode(self) -> u8
        ensures { result ≡ (rule self.entry).mode }
    {
        self.bytes[self.at + table::RULE_MODE]
    }

    // The user, or the group's name.
    pub fn subject(self) -> &'a [u8]
        ensures { result.now ≡ (rule self.entry).subject }
    {
        let start = self.at + SUBJECT_NAME;
        let end = table_place::str_end(self.bytes, self.at + table::RULE_SUBJECT);
        &self.bytes[start..end]
    }

    fn origin_at(self) -> usize
        ensures { result ≡ origin_at self.entry.bytes.now self.entry.at }
    {
        table_place::str_end(self.bytes, self.id_at())
    }

    pub fn origin(self) -> &'a [u8]
        ensures { result.now ≡ (rule self.entry).origin }
    {
        let o = self.origin_at();
        let start = o + 1;
        let end = table_place::str_end(self.bytes, o);
        &self.bytes[start..end]
    }

    // Where its path stands.
    pub fn path_at(self) -> usize
        ensures { result ≡ path_at self.entry.bytes.now self.entry.at }
    {
        table_place::str_end(self.bytes, self.origin_at())
    }

    pub fn path(self) -> Elements<'a>
        ensures path { elements result ≡ (rule self.entry).path }
        ensures few { result.count < 256 }
    {
        Elements::read(self.bytes, self.path_at())
    }

    // Whether its subject is a group.
    pub fn is_by_group(self) -> bool
        ensures { result ≡ (rule self.entry).by_group }
    {
        self.bytes[self.at + table::RULE_SUBJECT_KIND] == table::SUBJECT_GROUP
    }

    pub fn rank(self) -> usize
        ensures rank { result ≡ rank (rule self.entry) }
        ensures below { result < top_rank }
    {
        self.rank_of(self.path())
    }

    // The same, where its path was read already.
    pub fn rank_of(self, path: Elements) -> usize
        requires path { elements path ≡ (rule self).path }
        requires few { path.count < 256 }
        ensures rank { result ≡ rank (rule self.entry) }
        ensures below { result < top_rank }
    {
        verdict::rank(
            path.count,
            count_keys(path),
            self.is_by_group(),
            self.is_permit(),
        )
    }

    // Whether its id comes before the other's.
    pub fn is_earlier(self, other: Rule) -> bool
        ensures { result ≡ earlier (rule self.entry) (rule other.entry) }
    {
        text::string::is_before(self.id(), other.id())
    }
}
