// Answers as words: bits 0 to 7 the refusal number; from bit 8 on the line or the length; or from bit 8 on the action or the count, and from bit 16 on the
// number of the rule or the group, plus 1.
ghost use Rattle.std.specs.Prelude.{◌≡◌};
ghost use Rattle.path_read.specs.Calls.{filled_of};
ghost use Rattle.verdict_request.specs.Answers.{path_answer_of, tree_answer_of};
ghost use Rattle.burgee.specs.Word.{refusal_word, filled_word, checked_word, counted_word, path_word, tree_word, reported_word};
ghost use Rattle.table.specs.Checked.{checked_as};
ghost use Rattle.table.specs.Counted.{counted_as};
ghost use Rattle.burgee.specs.Word.{policy_word, rpc_word, rpc_probe_word};
ghost use Rattle.refusal.specs.Refusal.{code};
ghost use Rattle.policy_check.specs.Answer.{check_of};
ghost use Rattle.rpc.specs.Answer.{decision_of, answer_of as rpc_answer};
ghost use Rattle.rotation_probe.specs.Answer.{answer_of as probe_answer};

use refusal::{Fault, Refusal};
use rotation_probe::rpcs::RpcAnswer;
use rpc::Verdict;
use season::Reported;
use table::Groups;
use verdict_request::{PathAnswer, TreeAnswer};

pub fn of_refusal(number: u8, line: usize) -> u64
    ensures { result ≡ refusal_word number line }
{
    number as u64 + (line % 4294967296) as u64 * 256
}

pub fn of_filled(f: Result<usize, Refusal>) -> u64
    ensures { result ≡ filled_word (filled_of f) }
{
    match f {
        Ok(n) => (n % 4294967296) as u64 * 256,
        Err(r) => of_refusal(r.number(), 0),
    }
}

pub fn of_checked(c: Result<(), Fault>) -> u64
    ensures { result ≡ checked_word (checked_as c) }
{
    match c {
        Ok(()) => 0,
        Err(fault) => of_refusal(fault.refusal.number(), fault.line),
    }
}

pub fn of_counted(c: Result<Option<Groups>, Fault>) -> u64
    ensures { result ≡ counted_word (counted_as c) }
{
    match c {
        Ok(Some(groups)) => groups.count as u64 * 256 + (groups.first.0 as u64 + 1) * 65536,
        Ok(None) => 0,
        Err(fault) => of_refusal(fault.refusal.number(), fault.line),
    }
}

pub fn of_path(a: Result<PathAnswer, Fault>) -> u64
    ensures { result ≡ path_word (path_answer_of a) }
{
    match a {
        Ok(PathAnswer::Permit(rule)) => 256 + (rule.0 as u64 + 1) * 65536,
        Ok(PathAnswer::Deny(rule)) => (rule.0 as u64 + 1) * 65536,
        Ok(PathAnswer::Default) => 0,
        Err(fault) => of_refusal(fault.refusal.number(), fault.line),
    }
}

pub fn of_tree(a: Result<TreeAnswer, Fault>) -> u64
    ensures { result ≡ tree_word (tree_answer_of a) }
{
    match a {
        Ok(TreeAnswer::All) => 256,
        Ok(TreeAnswer::None) => 0,
        Ok(TreeAnswer::Mixed(rule)) => 512 + (rule.0 as u64 + 1) * 65536,
        Err(fault) => of_refusal(fault.refusal.number(), fault.line),
    }
}

pub fn of_reported(a: Reported) -> u64
    ensures { result ≡ reported_word a }
{
    match a {
        Reported::Length(n) => (n % 4294967296) as u64 * 256,
        Reported::Refused { number, line } => of_refusal(number, line),
    }
}

#[tactic(auto, using(crate::proofs::PolicyWords::accepted, crate::proofs::PolicyWords::refused))]
pub fn of_policy(c: Result<(), Refusal>) -> u64
    ensures { result ≡ policy_word (check_of (code c)) }
{
    match c {
        Ok(()) => 0,
        Err(refusal) => of_refusal(refusal.number(), 0),
    }
}

#[tactic(auto, unfolding(crate::specs::Word::rpc_word))]
fn of_verdict(v: Verdict) -> u64
    ensures { result ≡ rpc_word (decision_of v) }
{
    match v {
        Verdict::Denied(n) => ((n % 65536) as u64 + 1) * 65536,
        Verdict::Permitted(n) => 256 + ((n % 65536) as u64 + 1) * 65536,
        Verdict::Default => 0,
    }
}

#[tactic(auto, unfolding(crate::specs::Word::rpc_word))]
pub fn of_rpc(v: Result<Verdict, Refusal>) -> u64
    ensures { result ≡ rpc_word (rpc_answer v) }
{
    match v {
        Ok(v) => of_verdict(v),
        Err(refusal) => of_refusal(refusal.number(), 0),
    }
}

#[tactic(auto, unfolding(crate::specs::Word::rpc_probe_word, crate::specs::Word::rpc_word))]
pub fn of_rpc_probe(a: RpcAnswer) -> u64
    ensures { result ≡ rpc_probe_word (probe_answer a) }
{
    match a {
        RpcAnswer::PermitAll => 256,
        RpcAnswer::Judged(v) => of_verdict(v),
        RpcAnswer::Refused(number) => of_refusal(number, 0),
    }
}
