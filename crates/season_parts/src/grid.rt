// The grid of modes and outcomes.
ghost use Rattle.std.specs.Prelude.{◌≡◌, ◌+◌, ◌*◌, ◌++◌, ◌≤◌, length, get_or};
ghost use Rattle.limits.specs.Limits.{max_log_lines};
ghost use Rattle.season_parts.specs.Grid.{grid_row, lines_of, max_grid, FewCells};

use crate::columns;
use text_make::Text;

// A row, and its sum.
fn add_row<const N: usize>(name: &[u8], row: [u64; 3], text: &mut Text<N>)
    requires { (get_or row 0 0 + get_or row 1 0 + get_or row 2 0 ≤ 6 * max_log_lines) × (length name.now ≤ 5) × (length text.old + 86 ≤ N) }
    ensures added { text.new ≡ text.old ++ grid_row name.now (get_or row 0 0) (get_or row 1 0) (get_or row 2 0) }
    ensures short { length text.new ≤ length text.old + 86 }
{
    text.push_str(name);
    columns::add_column(11, row[0], text);
    columns::add_column(17, row[1], text);
    columns::add_column(19, row[2], text);
    columns::add_column(11, row[0] + row[1] + row[2], text);
    text.push_str(b"\n");
}

// A row for reading, one for writing, and their sums.
pub fn add_lines<const N: usize>(grid: &[[u64; 3]; 2], text: &mut Text<N>)
    requires { FewCells grid.now × (length text.old + max_grid ≤ N) }
    ensures added { text.new ≡ text.old ++ lines_of grid.now }
    ensures short { length text.new ≤ length text.old + max_grid }
{
    let read = grid[0];
    let write = grid[1];
    text.push_str(b"          permit   denied by rule  denied by default        all\n");
    add_row(b"read ", read, text);
    add_row(b"write", write, text);
    add_row(
        b"all  ",
        [read[0] + write[0], read[1] + write[1], read[2] + write[2]],
        text,
    );
}
