#![tactic(auto)]

// The readable form of a rule table: `show` makes it, `pack` makes the table's text of it.
ghost use Rattle.std.specs.Prelude.{◌≡◌, ◌≤◌, ◌<◌, length};
ghost use Rattle.limits.specs.Limits.{max_table_text};
ghost use Rattle.readable_parts.specs.declared.Direction.TheVariants.{Show};
ghost use Rattle.readable_lines.specs.declared.Source.TheVariants.{Table};
ghost use Rattle.readable_lines.specs.Lines.{line_by};
ghost use Rattle.readable.specs.Texts.{Converts, Shows, Makes, Packs, ended_of, converted_of};

use path_read::reader::Stored;
use readable_lines::Source;
use readable_parts::Direction;

// Why nothing was made of a text.
#[derive(Clone, Copy, Debug, PartialEq, Eq)]
pub enum Unconverted {
    // The table's refusal.
    Refused { number: u8, line: usize },
    // A line that is not of the form.
    Unread { line: usize },
    NoRoom,
}

// Where the lines of a text stopped, converted and stored one after another.
#[derive(Clone, Copy, Debug, PartialEq, Eq)]
pub enum Stopped {
    // A line that is not of the form.
    Unread { line: usize },
    // There is no room for a line.
    Full,
}

// Converts the lines one after another into out.
fn convert_lines(direction: Direction, text: &[u8], out: &mut [u8]) -> Result<usize, Stopped>
    requires { direction ≡ Show → length text.now ≤ max_table_text }
    ensures { Converts (line_by Table direction) text.now out.old out.new (ended_of result) }
{
    let mut piece = [0u8; readable_lines::MAX_MADE_LINE];
    let mut from = 0;
    let mut at = 0;
    let mut number = 1;
    // where the next line starts is known once this one is converted, so no iterator goes over them
    while from < text.len() {
        let line = readable_lines::convert_line(Source::Table, direction, text, from, &mut piece);
        let Some(Stored { next, end }) = line else {
            return Err(Stopped::Unread { line: number });
        };
        if out.len() - at < end {
            return Err(Stopped::Full);
        }
        text::fill::copy(&piece[..end], out, at);
        at += end;
        from = next;
        number += 1;
    }
    Ok(at)
}

// A table text to its readable text.
pub fn show(table: &[u8], out: &mut [u8]) -> Result<usize, Unconverted>
    ensures { Shows table.now out.old out.new (converted_of result) }
{
    let c = table_check::check_table(table);
    if let Err(fault) = c {
        return Err(Unconverted::Refused {
            number: fault.refusal.number(),
            line: fault.line,
        });
    }
    match convert_lines(Direction::Show, table, out) {
        Ok(n) => Ok(n),
        Err(Stopped::Unread { line }) => Err(Unconverted::Unread { line }),
        Err(Stopped::Full) => Err(Unconverted::NoRoom),
    }
}

// The table that was made goes to out, where it is accepted and there is room.
fn hand_out(table: &[u8], out: &mut [u8]) -> Result<usize, Unconverted>
    ensures { Makes table.now out.old out.new (converted_of result) }
{
    let c = table_check::check_table(table);
    if let Err(fault) = c {
        return Err(Unconverted::Refused {
            number: fault.refusal.number(),
            line: fault.line,
        });
    }
    if out.len() < table.len() {
        return Err(Unconverted::NoRoom);
    }
    text::fill::copy(table, out, 0);
    Ok(table.len())
}

// A readable text to its table text.
pub fn pack(text: &[u8], out: &mut [u8]) -> Result<usize, Unconverted>
    ensures { Packs text.now out.old out.new (converted_of result) }
{
    let mut table = [0u8; limits::MAX_TABLE_TEXT];
    match convert_lines(Direction::Pack, text, &mut table) {
        Ok(n) => hand_out(&table[..n], out),
        Err(Stopped::Unread { line }) => Err(Unconverted::Unread { line }),
        Err(Stopped::Full) => Err(Unconverted::Refused { number: 1, line: 0 }),
    }
}
