// The lines on the rows of a table and on a user's groups.
ghost use Rattle.std.specs.Prelude.{◌≡◌, ◌+◌, ◌*◌, ◌++◌, ◌≤◌, length};
ghost use Rattle.limits.specs.Limits.{max_groups};
ghost use Rattle.table.specs.Counted.{counted_as};
ghost use Rattle.table_membership.specs.Set.{numbers_in};
ghost use Rattle.cli_answers.specs.Rows.{row_lines, groups_line, group_line, group_lines, max_count_line, max_group_line};

use crate::lines;
use refusal::Fault;
use table::{GroupNumber, Groups};
use table_facts::Row;
use text_make::Text;

// Room for a line with a count of groups, and for a line on a group.
pub const MAX_COUNT_LINE: usize = 28;

pub const MAX_GROUP_LINE: usize = 28 + limits::MAX_STRING;

// Room for how many rows there are.
pub const COUNTS_ROOM: usize = 96;

// How many rows of each kind an accepted table has.
pub fn counts(groups: usize, members: usize, rules: usize) -> Text<COUNTS_ROOM>
    ensures { result ≡ row_lines groups members rules }
{
    let mut text = Text::new();
    text.push_fact(b"accepted\ngroups ", groups as u64);
    text.push_fact(b"members ", members as u64);
    text.push_fact(b"rules ", rules as u64);
    text
}

// How many groups list a user; nothing for a refusal.
pub fn add_count<const N: usize>(c: Result<Option<Groups>, Fault>, text: &mut Text<N>)
    requires { length text.old + max_count_line ≤ N }
    ensures added { text.new ≡ text.old ++ groups_line (counted_as c) }
    ensures short { length text.new ≤ length text.old + max_count_line }
{
    match c {
        Ok(Some(groups)) => text.push_fact(b"groups ", groups.count as u64),
        Ok(None) => text.push_str(b"groups 0\n"),
        Err(_) => {}
    }
}

// The number and the name of a group.
fn add_group<const N: usize>(table: &[u8], number: GroupNumber, text: &mut Text<N>)
    requires { length text.old + max_group_line ≤ N }
    ensures added { text.new ≡ text.old ++ group_line table.now number }
    ensures short { length text.new ≤ length text.old + max_group_line }
{
    text.push_str(b"group ");
    text.push_decimal(number.0 as u64);
    text.push_str(b" ");
    lines::add_name(table, Row::Group(number), text);
    text.push_str(b"\n");
}

// A line for each group of the set, of n groups.
pub fn add_groups<const N: usize>(table: &[u8], set: u64, n: usize, text: &mut Text<N>)
    requires { (n ≤ max_groups) × (length text.old + n * max_group_line ≤ N) }
    ensures { text.new ≡ text.old ++ group_lines table.now (numbers_in set n 0) }
{
    for g in 0..n {
        let number = GroupNumber(g as u8);
        if table_membership::has(set, number) {
            add_group(table, number, text);
        }
    }
}
