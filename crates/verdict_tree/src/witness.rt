// The opposing rule with the smallest id.
ghost use Rattle.std.specs.Prelude.{◌≡◌, ◌≤◌, ◌<◌, length};
ghost use Rattle.verdict.specs.Order.{earlier};
ghost use Rattle.verdict_compare.specs.Place.{elements};
ghost use Rattle.verdict_judge.specs.Place.{rule};
ghost use Rattle.verdict_judge.specs.Best.{held, wins};
ghost use Rattle.verdict_tree.specs.Given.{Ready, Weighed, Opposed, Chosen, Witness};

use crate::search::Search;
use table::RuleNumber;
use verdict_compare::place::Elements;
use verdict_judge::rules::{Numbered, PlacedRules, Rule};

// More than any weight.
const TOP_WEIGHT: usize = 9223372036854775808;

// Whether the id of the rule comes before that of the one so far, if there is one.
pub fn comes_first(own: Rule, so_far: Option<Numbered>) -> bool
    ensures { result ≡ wins earlier (rule own.entry) (held so_far.entry) }
{
    match so_far {
        Some(n) => own.is_earlier(n.rule),
        None => true,
    }
}

impl<'t, 'a> Search<'t, 'a> {
    // The witness after rule i: that rule where it fits, comes earlier, and its joined path gets another action than v.
    fn oppose(&self, so_far: Option<Numbered<'t>>, i: RuleNumber, v: bool) -> Option<Numbered<'t>>
        requires { Ready self.now × (i.0 < self.now.rules.count) }
        ensures { Opposed self.now.rules self.now.weights.now (elements self.now.asked) v so_far.entry i.0 result }
    {
        let number = i.0 as usize;
        if self.weights[number] < limits::MAX_RULES {
            return so_far;
        }
        let own = self.rules.rule(i);
        if !comes_first(own, so_far) {
            return so_far;
        }
        let decider = self.rules.rule(self.decide_joined(i));
        if decider.is_permit() == v {
            return so_far;
        }
        Some(Numbered {
            number: i,
            rule: own,
        })
    }

    // The witness of all rules.
    pub fn find(&self, v: bool) -> Option<Numbered<'t>>
        requires { Ready self.now }
        ensures { Chosen self.now.rules self.now.weights.now (elements self.now.asked) v result }
    {
        let mut found = None;
        for i in 0..self.rules.count {
            found = self.oppose(found, RuleNumber(i as u16), v);
        }
        found
    }
}

// The opposing rule with the smallest id, of those that `on` marks, where v is the verdict on the asked path.
pub fn witness<'t>(
    rules: PlacedRules<'t>,
    on: &[bool],
    asked: Elements,
    v: bool,
) -> Option<Numbered<'t>>
    requires { rules.count ≤ length on.now }
    ensures { Witness rules.entry on.now (elements asked.entry) v result }
{
    let mut weights = [0usize; limits::MAX_RULES];
    crate::weigh::weigh(rules, on, asked, &mut weights);
    witness_by(rules, &weights, asked, v)
}

// The same of those that fit by their weights, whichever test these tell of.
pub fn witness_by<'t>(
    rules: PlacedRules<'t>,
    weights: &[usize],
    asked: Elements,
    v: bool,
) -> Option<Numbered<'t>>
    requires { Weighed rules weights.now }
    ensures { Chosen rules.entry weights.now (elements asked.entry) v result }
{
    let mut next = [0usize; limits::MAX_RULES];
    crate::order::link(&weights[..rules.count], &mut next);
    let seed = text_hash::factors::draw(rules.bytes);
    let mut filters = [verdict_filter::empty(); limits::MAX_RULES];
    crate::filter::fill(seed, rules, weights, asked, &mut filters);
    let search = Search {
        rules,
        weights,
        next: &next,
        first: crate::order::below(&weights[..rules.count], TOP_WEIGHT),
        filters: &filters,
        asked,
    };
    search.find(v)
}
