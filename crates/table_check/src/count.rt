// The count of a user's groups.
ghost use Rattle.std.specs.Prelude.{◌≡◌};
ghost use Rattle.table.specs.Counted.{counted_as};
ghost use Rattle.table.specs.Group.{group_count};

use refusal::Fault;
use table::Groups;

// How many groups the user belongs to, and the first of them, if there is one.
pub fn count_groups(text: &[u8], user: &[u8]) -> Result<Option<Groups>, Fault>
    ensures { counted_as result ≡ group_count text.now user.now }
{
    let seen = crate::look(text, user)?;
    table_membership::count_of(seen.set, user)
}
