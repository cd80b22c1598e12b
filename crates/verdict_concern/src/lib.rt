#![tactic(auto)]

// Which rules of a checked table concern a request.
ghost use Rattle.std.specs.Prelude.{◌≡◌, true, ◌≤◌, ◌<◌, length};
ghost use Rattle.limits.specs.Limits.{max_groups};
ghost use Rattle.verdict_judge.specs.Place.{rule, nth};
ghost use Rattle.verdict_concern.specs.Concern.{concerns_by, applies_to, Marks};

pub mod asker;

pub use asker::Asker;
use table::{GroupNumber, RuleNumber};
use verdict_judge::rules::{Rule, Rules};

impl<'a> Asker<'a> {
    // Whether the rule's subject, which is group g if it is a group, is the user or one of the user's groups.
    fn is_subject(self, own: Rule, g: GroupNumber) -> bool
        requires { (rule own).by_group ≡ true → g.0 < max_groups }
        ensures { result ≡ concerns_by self.entry.set g.0 self.entry.user.now (rule own.entry) }
    {
        if own.is_by_group() {
            return table_membership::has(self.set, g);
        }
        text::string::is_same(own.subject(), self.user)
    }

    // Whether the rule with that number concerns the request.
    pub fn is_concerned(self, rules: Rules, number: RuleNumber) -> bool
        requires { number.0 < rules.count }
        ensures { result ≡ applies_to self.entry rules.entry number.0 }
    {
        let own = rules.rule(number);
        if own.mode() as u32 != self.mode || !text::string::is_same(own.origin(), self.origin) {
            return false;
        }
        self.is_subject(own, table_membership::group_of(rules.holders, number))
    }

    // Marks the rules that concern the request.
    pub fn mark(self, rules: Rules, on: &mut [bool])
        requires { rules.count ≤ length on.old }
        ensures marks { Marks self.entry rules.entry on.new }
        ensures len_unchanged { length on.new ≡ length on.old }
    {
        for i in 0..rules.count {
            on[i] = self.is_concerned(rules, RuleNumber(i as u16));
        }
    }
}
