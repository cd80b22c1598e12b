// The verdicts on the rules of a loaded table. Required is only what keeps all reading within the arrays: so they serve rules of any origin.
ghost use Rattle.std.specs.Prelude.{◌≡◌, ◌≤◌, length};
ghost use Rattle.limits.specs.Sizes.{max_path_bytes};
ghost use Rattle.table.specs.Checked.{Accepted};
ghost use Rattle.verdict.specs.Verdict.{decider, tree};
ghost use Rattle.verdict_request.specs.Calls.{request, request_refusal, path_answer, tree_answer};
ghost use Rattle.verdict_request.specs.Answers.{path_answer_of, tree_answer_of};
ghost use Rattle.verdict_call.specs.Holding.{OfRules, Fetched};

use refusal::{Fault, Refusal};
use verdict_compare::place::Elements;
use verdict_concern::Asker;
use verdict_judge::rules::Rules;
use verdict_request::{PathAnswer, TreeAnswer};

// The bytes of the path asked for, once user, mode and origin are judged; their count.
fn fetch(asker: Asker, text: &[u8], out: &mut [u8]) -> Result<usize, Refusal>
    requires { max_path_bytes ≤ length out.old }
    ensures { Fetched asker.entry text.now out.new result }
{
    verdict_request::request::check(asker.user, asker.mode, asker.origin)?;
    path_read::reader::read_text(text, out)
}

// The single-path verdict.
pub fn path_answer(rules: Rules, asker: Asker, text: &[u8]) -> Result<PathAnswer, Fault>
    ensures { OfRules rules.entry asker.entry (λ t. path_answer_of result ≡ path_answer Accepted
        (request_refusal asker.entry.user.now asker.entry.mode asker.entry.origin.now text.now)
        (decider t (request asker.entry.user.now asker.entry.mode asker.entry.origin.now text.now))) }
{
    let mut bytes = [0u8; limits::MAX_PATH_BYTES];
    let len = fetch(asker, text, &mut bytes)?;
    let asked = Elements::read(&bytes[..len], 0);
    let mut on = [false; limits::MAX_RULES];
    asker.mark(rules, &mut on);
    let found = verdict_judge::decide::decide(rules, &on, asked);
    Ok(verdict_request::answer::decided(found))
}

// The tree verdict.
pub fn tree_answer(rules: Rules, asker: Asker, text: &[u8]) -> Result<TreeAnswer, Fault>
    ensures { OfRules rules.entry asker.entry (λ t. tree_answer_of result ≡ tree_answer Accepted
        (request_refusal asker.entry.user.now asker.entry.mode asker.entry.origin.now text.now)
        (tree t (request asker.entry.user.now asker.entry.mode asker.entry.origin.now text.now))) }
{
    let mut bytes = [0u8; limits::MAX_PATH_BYTES];
    let len = fetch(asker, text, &mut bytes)?;
    let asked = Elements::read(&bytes[..len], 0);
    let mut on = [false; limits::MAX_RULES];
    asker.mark(rules, &mut on);
    let found = verdict_judge::decide::decide(rules, &on, asked);
    let v = verdict_judge::best::is_permitted(found);
    let opposing = verdict_tree::witness::witness(rules.places(), &on, asked, v);
    Ok(verdict_request::answer::spread_of(v, opposing))
}
