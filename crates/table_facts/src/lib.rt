#![tactic(auto)]

// What a group or a rule of a table text is called.
ghost use Rattle.std.specs.Prelude.{[], ◌≤◌, length, get_or};
ghost use Rattle.text.specs.Steps.{Wrote};
ghost use Rattle.table_place.specs.Place.{str_end, str_in};
ghost use Rattle.table_rows.specs.Strings.{strings_in, Listed};
ghost use Rattle.table.specs.Text.{check, table_of};
ghost use Rattle.table_facts.specs.Facts.{name_of, stored_of, ids_in, Identified};

use table::{GroupNumber, RuleNumber};
use table_load::Table;

// A row that has a name: a rule's is its id.
#[derive(Clone, Copy)]
pub enum Row {
    Group(GroupNumber),
    Rule(RuleNumber),
}

// Puts the string at `at` at the start of out, if it fits, and answers its length.
fn copy_at(f: &[u8], at: usize, out: &mut [u8]) -> usize
    requires { str_end f.now at ≤ length f.now }
    ensures { Wrote out.old 0 (stored_of out.old (str_in f.now at)) out.new result }
{
    let n = f[at] as usize;
    if out.len() < n {
        return 0;
    }
    let start = at + 1;
    let end = start + n;
    text::fill::copy(&f[start..end], out, 0);
    n
}

// The same for the name of group g of n, whose positions are in `groups`.
fn copy_name(f: &[u8], groups: &[u16], n: usize, g: GroupNumber, out: &mut [u8]) -> usize
    requires { Listed f.now groups.now n }
    ensures { Wrote out.old 0
        (stored_of out.old (get_or (strings_in f.now groups.now n 0) g.0 []))
        out.new result }
{
    let k = g.0 as usize;
    if n <= k {
        return 0;
    }
    let at = groups[k] as usize;
    copy_at(f, at, out)
}

// The same for the id of one of n rules, whose positions are in `starts`.
fn copy_id(f: &[u8], starts: &[u16], n: usize, rule: RuleNumber, out: &mut [u8]) -> usize
    requires { Identified f.now starts.now n }
    ensures { Wrote out.old 0
        (stored_of out.old (get_or (ids_in f.now starts.now n) rule.0 []))
        out.new result }
{
    let k = rule.0 as usize;
    if n <= k {
        return 0;
    }
    let s = starts[k] as usize;
    let at = table_place::str_end(f, s + table::RULE_SUBJECT);
    copy_at(f, at, out)
}

// Puts the name of a row at the start of out, if it fits, and answers its length; 0 also where there is no such row.
pub fn name_of(text: &[u8], row: Row, out: &mut [u8]) -> usize
    ensures { Wrote out.old 0
        (stored_of out.old (name_of (check text.now) (table_of text.now) row))
        out.new result }
{
    let mut table = Table::new();
    let Ok(()) = table_load::load(text, &mut table) else {
        return 0;
    };
    let f = table.bytes();
    match row {
        Row::Group(g) => copy_name(f, &table.groups, table.counts.groups, g, out),
        Row::Rule(rule) => copy_id(f, &table.starts, table.counts.rules, rule, out),
    }
}
