// What is found, as an answer.
ghost use Rattle.std.specs.Prelude.{◌≡◌};
ghost use Rattle.verdict.specs.Verdict.{answer};
ghost use Rattle.verdict_judge.specs.Best.{held};
ghost use Rattle.verdict_request.specs.Calls.{decided_by, spread};
ghost use Rattle.verdict_request.specs.Answers.{on_path, on_tree};

use crate::{PathAnswer, TreeAnswer};
use verdict_judge::rules::Numbered;

// The answer that the deciding rule gives.
pub fn decided(found: Option<Numbered>) -> PathAnswer
    ensures { on_path result ≡ decided_by (held found.entry) }
{
    let Some(n) = found else {
        return PathAnswer::Default;
    };
    if n.rule.is_permit() {
        PathAnswer::Permit(n.number)
    } else {
        PathAnswer::Deny(n.number)
    }
}

// The tree answer, where v is the verdict on the path itself, and `opposing` the opposing rule of smallest id.
pub fn spread_of(v: bool, opposing: Option<Numbered>) -> TreeAnswer
    ensures { on_tree result ≡ spread (answer «v» (held opposing.entry)) }
{
    if let Some(n) = opposing {
        return TreeAnswer::Mixed(n.number);
    }
    if v {
        return TreeAnswer::All;
    }
    TreeAnswer::None
}
