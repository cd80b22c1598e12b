// What the ranking says of each rule that fits, as one number.
ghost use Rattle.std.specs.Prelude.{◌≡◌, ◌≤◌, length};
ghost use Rattle.verdict_compare.specs.Place.{elements};
ghost use Rattle.verdict_judge.specs.Place.{rule};
ghost use Rattle.verdict_tree.specs.Given.{Weighs, Weighing};

use table::RuleNumber;
use verdict_compare::place::Elements;
use verdict_judge::rules::{PlacedRules, Rule};

// The weight of the rule: 0 unless it is marked and fits the asked path.
fn weight_of(own: Rule, is_on: bool, asked: Elements) -> usize
    ensures { Weighs (rule own.entry) is_on (elements asked.entry) result }
{
    if !is_on {
        return 0;
    }
    let path = own.path();
    if !path.agrees(asked) {
        return 0;
    }
    own.rank_of(path) + 1
}

// The weights of the rules, each with the rule's number as one number.
pub fn weigh(rules: PlacedRules, on: &[bool], asked: Elements, weights: &mut [usize])
    requires { (rules.count ≤ length on.now) × (rules.count ≤ length weights.old) }
    ensures weighing { Weighing rules.entry on.now weights.new (elements asked.entry) }
    ensures len_unchanged { length weights.new ≡ length weights.old }
{
    for i in 0..rules.count {
        weights[i] = weight_of(rules.rule(RuleNumber(i as u16)), on[i], asked) * limits::MAX_RULES
            + i;
    }
}
