// The lines of verdicts.
ghost use Rattle.std.specs.Prelude.{◌≡◌, ◌+◌, ◌++◌, ◌≤◌, length};
ghost use Rattle.limits.specs.Limits.{max_string};
ghost use Rattle.verdict_request.specs.Answers.{path_answer_of, tree_answer_of};
ghost use Rattle.cli_answers.specs.Lines.{name_in, by_rule, reason, path_lines, none_lines, tree_lines};

use refusal::Fault;
use table::RuleNumber;
use table_facts::Row;
use text_make::Text;
use verdict_request::{PathAnswer, TreeAnswer};

// Why no rule decides: none of the table matches, which an explanation says too, or there is no table. Three reasons with words of their own: none of them
// is "no reason", so no Option is hidden in it.
#[derive(Clone, Copy)]
pub enum Fallback {
    Default,
    Explained,
    Factory,
}

// Room for the lines.
pub const ROOM: usize = 37 + limits::MAX_STRING;

// The name of a row.
pub fn add_name<const N: usize>(table: &[u8], row: Row, text: &mut Text<N>)
    requires { length text.old + max_string ≤ N }
    ensures added { text.new ≡ text.old ++ name_in table.now row }
    ensures short { length text.new ≤ length text.old + max_string }
{
    let mut name = [0u8; limits::MAX_STRING];
    let n = table_facts::name_of(table, row, &mut name);
    text.push_str(&name[..n]);
}

// An answer, and the number and id of the rule that it is by.
fn by_rule(table: &[u8], answer: &[u8], rule: RuleNumber) -> Text<ROOM>
    requires { length answer.now ≤ 12 }
    ensures { result ≡ by_rule table.now answer.now rule }
{
    let mut text = Text::new();
    text.push_fact(answer, rule.0 as u64);
    text.push_str(b"id ");
    add_name(table, Row::Rule(rule), &mut text);
    text.push_str(b"\n");
    text
}

// Why a path is denied though no rule says so.
fn reason(f: Fallback) -> &'static [u8]
    ensures value { result.now ≡ reason f }
    ensures short { length result.now ≤ 24 }
{
    match f {
        Fallback::Default => b"default\n",
        Fallback::Explained => b"default\nno rule matches\n",
        Fallback::Factory => b"factory\n",
    }
}

// The action and the deciding rule; nothing for a refusal.
pub fn path(table: &[u8], f: Fallback, a: Result<PathAnswer, Fault>) -> Text<ROOM>
    ensures { result ≡ path_lines table.now f (path_answer_of a) }
{
    match a {
        Ok(PathAnswer::Permit(rule)) => by_rule(table, b"permit\nrule ", rule),
        Ok(PathAnswer::Deny(rule)) => by_rule(table, b"deny\nrule ", rule),
        Ok(PathAnswer::Default) => {
            let mut text = Text::new();
            text.push_str(b"deny\n");
            text.push_str(reason(f));
            text
        }
        Err(_) => Text::new(),
    }
}

// No path is permitted.
fn none(f: Fallback) -> &'static [u8]
    ensures value { result.now ≡ none_lines f }
    ensures short { length result.now ≤ 13 }
{
    match f {
        Fallback::Default | Fallback::Explained => b"NONE\n",
        Fallback::Factory => b"NONE\nfactory\n",
    }
}

// The tree answer, and the rule that MIXED names; nothing for a refusal.
pub fn tree(table: &[u8], f: Fallback, a: Result<TreeAnswer, Fault>) -> Text<ROOM>
    ensures { result ≡ tree_lines table.now f (tree_answer_of a) }
{
    match a {
        Ok(TreeAnswer::All) => Text::of(b"ALL\n"),
        Ok(TreeAnswer::None) => Text::of(none(f)),
        Ok(TreeAnswer::Mixed(rule)) => by_rule(table, b"MIXED\nrule ", rule),
        Err(_) => Text::new(),
    }
}
