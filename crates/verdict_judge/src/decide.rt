// The deciding rule for a path.
ghost use Rattle.std.specs.Prelude.{◌≡◌, ◌≤◌, length};
ghost use Rattle.verdict_compare.specs.Place.{elements};
ghost use Rattle.verdict_judge.specs.Place.{rule};
ghost use Rattle.verdict_judge.specs.Best.{held, Taken, BestMarked};

use crate::rules::{Best, Numbered, Rule, Rules};
use table::RuleNumber;
use verdict_compare::place::Elements;

// The best after a rule that concerns the request: that rule where it matches the path, and wins.
fn take_match<'a>(
    best: Option<Best<'a>>,
    number: RuleNumber,
    own: Rule<'a>,
    asked: Elements,
) -> Option<Best<'a>>
    ensures { Taken best.entry number.0 (rule own.entry) (elements asked.entry) result }
{
    let path = own.path();
    if !path.covers(asked) {
        return best;
    }
    let own_rank = own.rank_of(path);
    if !crate::best::wins(best, own, own_rank) {
        return best;
    }
    Some(Best {
        found: Numbered { number, rule: own },
        weight: own_rank,
    })
}

// The deciding rule for a path, of the rules that `on` marks: they concern the request.
pub fn decide<'a>(rules: Rules<'a>, on: &[bool], asked: Elements) -> Option<Numbered<'a>>
    requires { rules.count ≤ length on.now }
    ensures { BestMarked rules.entry on.now (elements asked.entry) (held result) }
{
    let mut best = None;
    for i in 0..rules.count {
        if on[i] {
            let number = RuleNumber(i as u16);
            best = take_match(best, number, rules.rule(number), asked);
        }
    }
    match best {
        Some(b) => Some(b.found),
        None => None,
    }
}
