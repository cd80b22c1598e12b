// The best rule so far, and what the best of all decides.
ghost use Rattle.std.specs.Prelude.{◌≡◌};
ghost use Rattle.verdict.specs.Order.{better};
ghost use Rattle.verdict.specs.Rank.{rank};
ghost use Rattle.verdict.specs.Verdict.{action};
ghost use Rattle.verdict_judge.specs.Place.{rule};
ghost use Rattle.verdict_judge.specs.Best.{held, kept, wins};

use crate::rules::{Best, Numbered, Rule};

// Whether the rule, of that rank, is better than the best so far, if there is one. Ids are compared only where the ranks are equal.
pub fn wins(best: Option<Best>, own: Rule, own_rank: usize) -> bool
    requires { own_rank ≡ rank (rule own) }
    ensures { result ≡ wins better (rule own.entry) (kept best.entry) }
{
    let Some(other) = best else {
        return true;
    };
    if own_rank != other.weight {
        return other.weight < own_rank;
    }
    own.is_earlier(other.found.rule)
}

impl<'a> Rule<'a> {
    pub fn is_permit(self) -> bool
        ensures { result ≡ (rule self.entry).permit }
    {
        self.bytes[self.at] == table::ACTION_PERMIT
    }
}

// The action of the deciding rule. "With no match: deny".
pub fn is_permitted(found: Option<Numbered>) -> bool
    ensures { result ≡ action (held found.entry) }
{
    match found {
        Some(n) => n.rule.is_permit(),
        None => false,
    }
}
