// The rules of a loaded table, and one of them: a place carries the proof that it can be read, whatever stands there.
ghost use Rattle.std.specs.Prelude.{◌≡◌, ◌≤◌, length};
ghost use Rattle.limits.specs.Limits.{max_rules};
ghost use Rattle.table_rows.specs.Rules.{rule_in, rule_end};
ghost use Rattle.verdict.specs.Rank.{rank};
ghost use Rattle.verdict_judge.specs.Rules.{Short, Placed, Safe};

use table::RuleNumber;

#[derive(Clone, Copy)]
pub struct Rules<'a> {
    // The decoded bytes.
    pub bytes: &'a [u8],
    // Where each rule stands.
    pub starts: &'a [u16],
    // The number of the group of each whose subject is one.
    pub holders: &'a [u8],
    pub count: usize,
    ghost safe: { Safe bytes.now starts.now holders.now count },
}

// Rules of which the places alone are known: what does not ask whom a rule is about needs no group's number.
#[derive(Clone, Copy)]
pub struct PlacedRules<'a> {
    // The decoded bytes.
    pub bytes: &'a [u8],
    // Where each rule stands.
    pub starts: &'a [u16],
    pub count: usize,
    ghost placed: { Placed bytes.now starts.now count },
    ghost few: { count ≤ max_rules },
}

impl<'a> Rules<'a> {
    // Their places alone.
    pub fn places(self) -> PlacedRules<'a>
        ensures bytes { result.bytes.now ≡ self.entry.bytes.now }
        ensures starts { result.starts.now ≡ self.entry.starts.now }
        ensures count { result.count ≡ self.entry.count }
    {
        PlacedRules {
            bytes: self.bytes,
            starts: self.starts,
            count: self.count,
        }
    }
}

#[derive(Clone, Copy)]
pub struct Rule<'a> {
    pub bytes: &'a [u8],
    pub at: usize,
    ghost inside: { rule_end bytes.now at ≤ length bytes.now },
    ghost short: { Short bytes.now },
}

// A rule with its number.
#[derive(Clone, Copy)]
pub struct Numbered<'a> {
    pub number: RuleNumber,
    pub rule: Rule<'a>,
}

// The best rule so far, and its rank as the weight.
#[derive(Clone, Copy)]
pub struct Best<'a> {
    pub found: Numbered<'a>,
    pub weight: usize,
    ghost ranked: { weight ≡ rank (rule_in found.rule.bytes.now found.rule.at) },
}
