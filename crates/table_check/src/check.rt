// The check of a table text.
ghost use Rattle.std.specs.Prelude.{◌≡◌};
ghost use Rattle.table.specs.Checked.{checked_as};
ghost use Rattle.table.specs.Text.{check};

use refusal::Fault;
use table_load::Table;

// Accepted, or the first faulty line with its smallest number.
pub fn check_table(text: &[u8]) -> Result<(), Fault>
    ensures { checked_as result ≡ check text.now }
{
    table_load::load(text, &mut Table::new())
}
