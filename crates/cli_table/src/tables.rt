// A rule table's check, a user's groups, the verdicts.
ghost use Rattle.std.specs.Prelude.{◌≡◌, ◌≤◌, length};
ghost use Rattle.table.specs.Counted.{counted_as};
ghost use Rattle.table.specs.Group.{group_count};
ghost use Rattle.cli_answers.specs.Rows.{max_count_line, groups_text};
ghost use Rattle.cli_answers.specs.Steps.{ListsGroups};

use cli_answers::lines::Fallback;
use cli_answers::rows;
use cli_show::console::Console;
use refusal::Fault;
use table::Groups;
use text_make::Text;

// Room for how many groups there are, and a line for each.
const MAX_GROUPS_TEXT: usize = rows::MAX_COUNT_LINE + limits::MAX_GROUPS * rows::MAX_GROUP_LINE;

// How many rows of each kind an accepted table has, or why it is refused.
pub fn check(console: &mut Console, text: &[u8]) {
    match table_check::look(text, b"") {
        Ok(seen) => {
            let counts = seen.counts;
            let lines = rows::counts(counts.groups, counts.members, counts.rules);
            cli_show::word(console, lines.as_bytes());
        }
        Err(fault) => cli_console::refused::of_text(
            console,
            text,
            fault.refusal.number(),
            fault.line,
        ),
    }
}

// Adds a line for each group that lists the user; nothing where the table is refused.
fn add_groups(table: &[u8], user: &[u8], text: &mut Text<MAX_GROUPS_TEXT>)
    requires { length text.old ≤ max_count_line }
    ensures { ListsGroups table.now user.now text.old text.new }
{
    let Ok(seen) = table_check::look(table, user) else {
        return;
    };
    rows::add_groups(table, seen.set, seen.counts.groups, text);
}

// How many groups list the user, as c says, and each of them; nothing for a refusal.
fn groups_text(table: &[u8], user: &[u8], c: Result<Option<Groups>, Fault>) -> Text<MAX_GROUPS_TEXT>
    requires { counted_as c ≡ group_count table.now user.now }
    ensures { result ≡ groups_text table.now user.now }
{
    let mut text = Text::new();
    rows::add_count(c, &mut text);
    match c {
        Ok(Some(_)) => {
            add_groups(table, user, &mut text);
            text
        }
        Ok(None) => text,
        Err(_) => text,
    }
}

// How many groups list the user, and each of them; or the refusal.
pub fn groups(console: &mut Console, text: &[u8], user: &[u8]) {
    cli_names::tell(console, text, user);
    let c = table_check::count_groups(text, user);
    cli_show::word(console, groups_text(text, user, c).as_bytes());
    if let Err(fault) = c {
        cli_console::refused::of_text(console, text, fault.refusal.number(), fault.line);
    }
}

// The action, and the deciding rule's number and id.
pub fn verdict(
    console: &mut Console,
    text: &[u8],
    user: &[u8],
    mode: u32,
    origin: &[u8],
    path: &[u8],
) {
    cli_names::tell(console, text, user);
    cli_answers::path(
        console,
        text,
        verdict_call::path_verdict(text, user, mode, origin, path),
        Fallback::Default,
    );
}

// The tree answer, and the number and id of the rule that MIXED names.
pub fn tree(
    console: &mut Console,
    text: &[u8],
    user: &[u8],
    mode: u32,
    origin: &[u8],
    path: &[u8],
) {
    cli_names::tell(console, text, user);
    cli_answers::tree(
        console,
        text,
        verdict_call::tree_verdict(text, user, mode, origin, path),
        Fallback::Default,
    );
}
