#![tactic(auto)]

// The lines of an explanation.
ghost use Rattle.std.specs.Prelude.{◌≡◌, ◌+◌, ◌*◌, ◌++◌, ◌≤◌, length, take};
ghost use Rattle.limits.specs.Limits.{max_string};
ghost use Rattle.table_rows.specs.Rules.{rule_in, rule_end, rules_in};
ghost use Rattle.text_make.specs.Text.{up_to};
ghost use Rattle.cli_explained.specs.Explained.{step_name, fate, action_text, subject_text, standing_text, ranked, ranked_line, ranking_lines};
ghost use Rattle.cli_explained.specs.Steps.{max_ranked_line, Rankable};

use table::RuleNumber;
use text_make::Text;
use verdict_explain::{Standing, Step};

// Room for a line.
pub const MAX_LINE: usize = 161 + limits::MAX_STRING;

fn step_name(s: Step) -> &'static [u8]
    ensures value { result.now ≡ step_name s }
    ensures short { length result.now ≤ 17 }
{
    match s {
        Step::Elements => b"elements",
        Step::Keys => b"definite keys",
        Step::Subject => b"user over group",
        Step::Action => b"deny over permit",
        Step::Id => b"smaller id",
    }
}

// The first rule decides; another lost to it at a step of the ranking.
fn add_fate<const N: usize>(place: usize, s: Step, text: &mut Text<N>)
    requires { length text.old + 33 ≤ N }
    ensures added { text.new ≡ text.old ++ fate place s }
    ensures short { length text.new ≤ length text.old + 33 }
{
    if place == 1 {
        text.push_str(b" decides: rule ");
    } else {
        text.push_str(b" lost at ");
        text.push_str(step_name(s));
        text.push_str(b": rule ");
    }
}

fn action(s: Standing) -> &'static [u8]
    ensures value { result.now ≡ action_text s }
    ensures short { length result.now ≤ 19 }
{
    if s.permit {
        b", permit, elements "
    } else {
        b", deny, elements "
    }
}

fn subject(s: Standing) -> &'static [u8]
    ensures value { result.now ≡ subject_text s }
    ensures short { length result.now ≤ 12 }
{
    if s.group {
        b", group, id "
    } else {
        b", user, id "
    }
}

// What the ranking looks at in a rule.
fn add_standing<const N: usize>(s: Standing, text: &mut Text<N>)
    requires { length text.old + 87 ≤ N }
    ensures added { text.new ≡ text.old ++ standing_text s }
    ensures short { length text.new ≤ length text.old + 87 }
{
    text.push_str(action(s));
    text.push_decimal(s.elements as u64);
    text.push_str(b", definite keys ");
    text.push_decimal(s.keys as u64);
    text.push_str(subject(s));
}

// A rule's place, its fate, its number and its standing.
fn add_ranked<const N: usize>(
    place: usize,
    rule: RuleNumber,
    own: Standing,
    s: Step,
    text: &mut Text<N>,
)
    requires { length text.old + 160 ≤ N }
    ensures added { text.new ≡ text.old ++ ranked place rule.0 own s }
    ensures short { length text.new ≤ length text.old + 160 }
{
    text.push_decimal(place as u64);
    add_fate(place, s, text);
    text.push_decimal(rule.0 as u64);
    add_standing(own, text);
}

// The id of the rule at s.
pub fn add_id<const N: usize>(f: &[u8], s: usize, text: &mut Text<N>)
    requires { (rule_end f.now s ≤ length f.now) × (length text.old + max_string ≤ N) }
    ensures added { text.new ≡ text.old ++ up_to max_string (rule_in f.now s).id }
    ensures short { length text.new ≤ length text.old + max_string }
{
    let i = table_place::str_end(f, s + table::RULE_SUBJECT);
    let a = i + 1;
    let e = table_place::str_end(f, i);
    text.push_up_to(limits::MAX_STRING, &f[a..e]);
}

// The rule at s of that number, at its place of the ranking, whose first rule stands at `best`.
fn add_line<const N: usize>(
    f: &[u8],
    place: usize,
    rule: RuleNumber,
    s: usize,
    best: usize,
    text: &mut Text<N>,
)
    requires { (rule_end f.now s ≤ length f.now) × (rule_end f.now best ≤ length f.now) × (length text.old + max_ranked_line ≤ N) }
    ensures added { text.new ≡ text.old ++ ranked_line place rule.0 (rule_in f.now s) (rule_in f.now best) }
    ensures short { length text.new ≤ length text.old + max_ranked_line }
{
    let own = verdict_explain::standing_at(f, s);
    let step = verdict_explain::lost_at(own, verdict_explain::standing_at(f, best));
    add_ranked(place, rule, own, step, text);
    add_id(f, s, text);
    text.push_str(b"\n");
}

// The lines of a ranking: the first m of `order` are the numbers of its rules, of n in all.
pub fn add_ranking<const N: usize>(
    f: &[u8],
    starts: &[u16],
    n: usize,
    order: &[u16],
    m: usize,
    text: &mut Text<N>,
)
    requires { Rankable f.now starts.now n order.now m × (length text.old + m * max_ranked_line ≤ N) }
    ensures { text.new ≡ text.old ++ ranking_lines (rules_in f.now starts.now n 0) (take m order.now) }
{
    for i in 0..m {
        let number = order[i];
        let first = order[0] as usize;
        let k = number as usize;
        let s = starts[k] as usize;
        let best = starts[first] as usize;
        add_line(f, i + 1, RuleNumber(number), s, best, text);
    }
}
