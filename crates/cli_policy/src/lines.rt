// The lines of a policy's check and of RPC verdicts.
ghost use Rattle.std.specs.Prelude.{◌≡◌, ◌≤◌, length};
ghost use Rattle.policy_facts.specs.Facts.{answer_of as rules_answer};
ghost use Rattle.rpc.specs.Answer.{decision_of, answer_of as rpc_answer};
ghost use Rattle.cli_policy.specs.Lines.{count_lines, by_rule, rpc_lines};

use policy_facts::{Listed, RuleCounts};
use refusal::Refusal;
use rpc::Verdict;
use text_make::Text;

// Room for how many rules each list has, and for a verdict.
pub const COUNTS_ROOM: usize = 74;

pub const ROOM: usize = 56 + limits::MAX_POLICY_STRING;

// How many rules each list has; nothing for a refusal.
pub fn counts(counted: Result<RuleCounts, Refusal>) -> Text<COUNTS_ROOM>
    ensures { result ≡ count_lines (rules_answer counted) }
{
    match counted {
        Ok(counts) => {
            let mut text = Text::new();
            text.push_fact(b"accepted\ndeny_rules ", counts.deny as u64);
            text.push_fact(b"allow_rules ", counts.allow as u64);
            text
        }
        Err(_) => Text::new(),
    }
}

// An answer, and the number and the name of the rule that it is by.
fn by_rule(policy: &[u8], answer: &[u8], number: usize, rule: Listed) -> Text<ROOM>
    requires { length answer.now ≤ 29 }
    ensures { result ≡ by_rule policy.now answer.now number rule }
{
    let name = policy_facts::rule_name(policy, rule);
    let mut text = Text::new();
    text.push_fact(answer, number as u64);
    text.push_str(b"name ");
    text.push_up_to(limits::MAX_POLICY_STRING, name);
    text.push_str(b"\n");
    text
}

// The action, and the list, the number and the name of the deciding rule.
pub fn decision(policy: &[u8], v: Verdict) -> Text<ROOM>
    ensures { result ≡ rpc_lines policy.now (decision_of v) }
{
    match v {
        Verdict::Permitted(n) => by_rule(
            policy,
            b"permit\nlist allow_rules\nrule ",
            n,
            Listed::Allow(n),
        ),
        Verdict::Denied(n) => by_rule(policy, b"deny\nlist deny_rules\nrule ", n, Listed::Deny(n)),
        Verdict::Default => Text::of(b"deny\ndefault\n"),
    }
}

// The same; nothing for a refusal.
pub fn rpc(policy: &[u8], v: Result<Verdict, Refusal>) -> Text<ROOM>
    ensures { result ≡ rpc_lines policy.now (rpc_answer v) }
{
    match v {
        Ok(v) => decision(policy, v),
        Err(_) => Text::new(),
    }
}
