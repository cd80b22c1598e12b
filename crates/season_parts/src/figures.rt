// A count's share and its bar.
ghost use Rattle.std.specs.Prelude.{◌≡◌, ◌+◌, ◌++◌, ◌≤◌, length};
ghost use Rattle.limits.specs.Limits.{max_log_lines};
ghost use Rattle.season_parts.specs.Figures.{bar_columns, tenths, share, bar_length, bar};

use crate::columns;
use text_make::Text;

const BAR_COLUMNS: usize = 40;

fn tenths(n: u64, all: u64) -> u64
    requires { n ≤ max_log_lines }
    ensures { result ≡ tenths n all }
{
    (n * 1000).checked_div(all).unwrap_or(0)
}

pub fn add_share<const N: usize>(n: u64, all: u64, text: &mut Text<N>)
    requires { (n ≤ max_log_lines) × (length text.old + 42 ≤ N) }
    ensures added { text.new ≡ text.old ++ share n all }
    ensures short { length text.new ≤ length text.old + 42 }
{
    let t = tenths(n, all);
    columns::add_column(5, t / 10, text);
    text.push_str(b".");
    text.push_decimal(t % 10);
    text.push_str(b"%");
}

fn bar_length(n: u64, most: u64) -> usize
    requires { n ≤ max_log_lines }
    ensures value { result ≡ bar_length n most }
    ensures short { result ≤ bar_columns }
{
    let columns = (n * BAR_COLUMNS as u64).checked_div(most).unwrap_or(0);
    columns.clamp(1, BAR_COLUMNS as u64) as usize
}

pub fn add_bar<const N: usize>(n: u64, most: u64, text: &mut Text<N>)
    requires { (n ≤ max_log_lines) × (length text.old + bar_columns ≤ N) }
    ensures added { text.new ≡ text.old ++ bar n most }
    ensures short { length text.new ≤ length text.old + bar_columns }
{
    let marks = bar_length(n, most);
    text.push_times(b'#', marks);
    text.push_times(b' ', BAR_COLUMNS - marks);
}
