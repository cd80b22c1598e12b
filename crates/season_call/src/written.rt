// The text of a report, from what is counted.
ghost use Rattle.std.specs.Prelude.{◌≡◌, ◌+◌, ◌*◌, ◌≤◌, ◌++◌, length};
ghost use Rattle.text.specs.String.{joined};
ghost use Rattle.season.specs.Report.{figure_line};
ghost use Rattle.season_call.specs.Written.{line_room, cells_in, reported_of, hands_out, left_in};

use refusal::{Fault, Refusal};
use season_sum::writing::{self, MAX_REPORT};
use text_make::Text;

// The whole text: the counts of the rules, and the cells of the grid.
pub fn add_report<const N: usize>(counts: &[u64], grid: &[[u64; 3]; 2], text: &mut Text<N>)
    requires { length text.old + (length counts.now + 6) * line_room ≤ N }
    ensures added { text.new ≡ text.old ++ joined figure_line (counts.now ++ cells_in grid.now) }
{
    writing::add_lines(counts, text);
    let cells = [
        grid[0][0], grid[0][1], grid[0][2], grid[1][0], grid[1][1], grid[1][2],
    ];
    writing::add_lines(&cells, text);
}

// The text at the start of the buffer, where it fits; how long it is.
pub fn hand_out(
    counts: &[u64; limits::MAX_RULES],
    grid: &[[u64; 3]; 2],
    out: &mut [u8],
) -> Result<usize, Fault>
    ensures value { reported_of result ≡ hands_out (counts.now ++ cells_in grid.now) out.old }
    ensures out_after { out.new ≡ left_in (counts.now ++ cells_in grid.now) out.old }
{
    let mut text: Text<MAX_REPORT> = Text::new();
    add_report(counts, grid, &mut text);
    let report = text.as_bytes();
    if out.len() < report.len() {
        return Err(Fault::from(Refusal::NoRoom));
    }
    text::fill::copy(report, out, 0);
    Ok(report.len())
}
