// The page on a season.
ghost use Rattle.std.specs.Prelude.{◌≡◌, ◌+◌, ◌*◌, ◌++◌, ◌≤◌, length, take};
ghost use Rattle.limits.specs.Limits.{max_rules};
ghost use Rattle.cli_season.specs.Page.{decided_part, never_part, sum_of, page_of};
ghost use Rattle.cli_season_rules.specs.Steps.{Few, max_rule_line, max_decided_line};
ghost use Rattle.cli_season.specs.Steps.{none_from, max_page, rules_of, MakesPage};

use cli_season_rules::{MAX_DECIDED_LINE, MAX_RULE_LINE};
use season_count::Tally;
use table_load::Table;
use text_make::Text;
use verdict_judge::rules::Rules;

// Room for a page.
pub const MAX_PAGE: usize = limits::MAX_RULES * (MAX_DECIDED_LINE + MAX_RULE_LINE) + 600;

// Told where a list of lines, which began when the text had `start` bytes, has none.
fn add_none(start: usize, text: &mut Text<MAX_PAGE>)
    requires { length text.old + 7 ≤ max_page }
    ensures added { text.new ≡ text.old ++ none_from start (length text.old) }
    ensures short { length text.new ≤ length text.old + 7 }
{
    if text.len() == start {
        text.push_str(b"  none\n");
    }
}

// How many requests there are, and the rules that decided. `left` has their counts, and loses them.
fn add_decided(
    rules: Rules,
    left: &mut [u64; limits::MAX_RULES],
    all: u64,
    text: &mut Text<MAX_PAGE>,
)
    requires { Few left.old × (length text.old + max_rules * max_decided_line + 120 ≤ max_page) }
    ensures added { text.new ≡ text.old ++ decided_part (rules_of rules.entry) (take rules.entry.count left.old) all }
    ensures short { length text.new ≤ length text.old + max_rules * max_decided_line + 120 }
{
    text.push_fact(b"requests ", all);
    text.push_str(
        b"\n  count   share  bar                                       rule  action  id\n",
    );
    let start = text.len();
    cli_season_rules::add_decided(rules.bytes, rules.starts, rules.count, left, all, text);
    add_none(start, text);
}

// The rules that never decided.
fn add_never(rules: Rules, tally: &Tally, text: &mut Text<MAX_PAGE>)
    requires { length text.old + max_rules * max_rule_line + 140 ≤ max_page }
    ensures added { text.new ≡ text.old ++ never_part (rules_of rules.entry) (take rules.entry.count tally.now.rules) }
    ensures short { length text.new ≤ length text.old + max_rules * max_rule_line + 140 }
{
    text.push_str(
        b"\nA share is of all requests, rounded down; a bar is of the largest count.\n\n\
        rules that never decided\n  rule  action  id\n",
    );
    let start = text.len();
    cli_season_rules::add_never(rules.bytes, rules.starts, rules.count, &tally.rules, text);
    add_none(start, text);
    text.push_str(b"\n");
}

fn sum_of(tally: &Tally) -> u64
    ensures { result ≡ sum_of tally.now.grid }
{
    let grid = &tally.grid;
    grid[0][0] + grid[0][1] + grid[0][2] + grid[1][0] + grid[1][1] + grid[1][2]
}

// The page on the rules.
fn page_of(rules: Rules, tally: &Tally) -> Text<MAX_PAGE>
    ensures { result ≡ page_of (rules_of rules.entry) (take rules.entry.count tally.now.rules) tally.now.grid }
{
    let mut text = Text::new();
    let mut left = tally.rules;
    add_decided(rules, &mut left, sum_of(tally), &mut text);
    add_never(rules, tally, &mut text);
    season_parts::grid::add_lines(&tally.grid, &mut text);
    text
}

// The page on a table's rules, their counts and the grid; nothing where the table is refused.
pub fn make(text: &[u8], tally: &Tally) -> Text<MAX_PAGE>
    ensures { MakesPage text.now tally.now.rules tally.now.grid result }
{
    let mut table = Table::new();
    let Ok(()) = table_load::load(text, &mut table) else {
        return Text::new();
    };
    page_of(verdict_call::rules_of(&table), tally)
}
