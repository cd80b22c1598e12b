// Figures written as a report.
ghost use Rattle.std.specs.Prelude.{◌≡◌, ◌+◌, ◌*◌, ◌++◌, ◌≤◌, length};
ghost use Rattle.season_sum.specs.Figures.{report_text, max_figure_line};

use text_make::Text;

// Room for a line: 20 digits, which 64 bits have at most, and its LF.
pub const MAX_FIGURE_LINE: usize = 21;

// Room for a report.
pub const MAX_REPORT: usize = limits::REPORT_LINES * MAX_FIGURE_LINE;

// A line for each figure.
pub fn add_lines<const N: usize>(figures: &[u64], text: &mut Text<N>)
    requires { length text.old + length figures.now * max_figure_line ≤ N }
    ensures added { text.new ≡ text.old ++ report_text figures.now }
    ensures short { length text.new ≤ length text.old + length figures.now * max_figure_line }
{
    for figure in figures {
        text.push_fact(b"", *figure);
    }
}
