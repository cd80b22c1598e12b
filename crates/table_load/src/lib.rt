#![tactic(auto)]

// A table text, decoded once and checked: its bytes, and where groups, members and rules stand in them.
ghost use Rattle.std.specs.Prelude.{◌≡◌, ◌≤◌, length};
ghost use Rattle.table_load.specs.Loaded.{Outcome};

use crate::row::{Counts, Sets};
use refusal::{Fault, Refusal};
use table_keep::GroupNames;
use table_line::Line;

pub mod loaded;
pub mod row;

pub use loaded::Table;

// Reads the text line by line, and stops at the first faulty line. The lines end where they end, so none can be numbered before it is read.
pub fn load(text: &[u8], table: &mut Table) -> Result<(), Fault>
    ensures { Outcome text.now result table.new }
{
    if limits::MAX_TABLE_TEXT < text.len() {
        return Err(Fault::at(Refusal::TableTooLong, 0));
    }
    if text.len() == 0 {
        return Err(Fault::at(Refusal::OutOfOrder, 1));
    }
    let mut sets = Sets {
        names: GroupNames {
            hints: [0; table_keep::HINT_PLACES],
            sorted: [0; limits::MAX_GROUPS],
        },
        members: [0; table_keep::MEMBER_KEYS],
        ids: [0; table_keep_rule::ID_KEYS],
    };
    table.used = 0;
    table.counts = Counts::NONE;
    let mut from = 0;
    let mut line = 1;
    while from < text.len() {
        let Some(Line { len, next }) = table_line::read_line(
            text,
            from,
            &mut table.frames,
            table.used,
        ) else {
            return Err(Fault::at(Refusal::NotHexLine, line));
        };
        let end = table.used + len;
        if let Err(refusal) = table.take_row(&mut sets, end) {
            return Err(Fault::at(refusal, line));
        }
        table.counts = table.counts.after(table.frames[table.used]);
        table.used = end;
        from = next;
        line += 1;
    }
    Ok(())
}
