// Columns of text.
ghost use Rattle.std.specs.Prelude.{◌≡◌, ◌+◌, ◌++◌, ◌≤◌, length};
ghost use Rattle.season_parts.specs.Columns.{column};

use text_make::Text;

// A number at the right of a column.
pub fn add_column<const N: usize>(width: usize, n: u64, text: &mut Text<N>)
    requires { (width ≤ 20) × (length text.old + 20 ≤ N) }
    ensures added { text.new ≡ text.old ++ column width n }
    ensures short { length text.new ≤ length text.old + 20 }
{
    let digits = text_make::digits(n);
    text.push_times(b' ', width.saturating_sub(digits.len()));
    text.push_str(digits.as_bytes());
}
