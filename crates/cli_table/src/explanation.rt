// Which rules match a request, in ranking order, and the step of the ranking at which each lost to the first.
ghost use Rattle.std.specs.Prelude.{◌≡◌};
ghost use Rattle.verdict_request.specs.Calls.{path_verdict};
ghost use Rattle.verdict_request.specs.Answers.{path_answer_of};
ghost use Rattle.cli_explained.specs.Explained.{explanation};
ghost use Rattle.cli_explained.specs.Steps.{ListsMatches};

use cli_answers::lines::Fallback;
use cli_show::console::Console;
use refusal::Fault;
use table_load::Table;
use text_make::Text;
use verdict_compare::place::Elements;
use verdict_concern::Asker;
use verdict_request::PathAnswer;

// Room for a line of each rule.
const MAX_LINES: usize = limits::MAX_RULES * cli_explained::MAX_LINE;

// The lines of the rules that match, the best first: the table is loaded once. Nothing where it is refused, or the path.
fn matches(table: &[u8], user: &[u8], mode: u32, origin: &[u8], path: &[u8]) -> Text<MAX_LINES>
    ensures { ListsMatches table.now user.now mode origin.now path.now result }
{
    let mut bytes = [0u8; limits::MAX_PATH_BYTES];
    let Ok(len) = path_read::reader::read_text(path, &mut bytes) else {
        return Text::new();
    };
    let mut loaded = Table::new();
    let Ok(()) = table_load::load(table, &mut loaded) else {
        return Text::new();
    };
    let f = loaded.bytes();
    let counts = loaded.counts;
    let asker = Asker {
        user,
        set: table_membership::memberships(f, &loaded.users, &loaded.owners, counts.members, user),
        mode,
        origin,
    };
    let mut order = [0u16; limits::MAX_RULES];
    let asked = Elements::read(&bytes[..len], 0);
    let m = verdict_explain::rank_rules(verdict_call::rules_of(&loaded), asker, asked, &mut order);
    let mut text = Text::new();
    cli_explained::add_ranking(f, &loaded.starts, counts.rules, &order, m, &mut text);
    text
}

// What stands below the verdict a: the lines of the rules that match, where one decides.
fn explain(
    table: &[u8],
    user: &[u8],
    mode: u32,
    origin: &[u8],
    path: &[u8],
    a: Result<PathAnswer, Fault>,
) -> Text<MAX_LINES>
    requires { path_answer_of a ≡ path_verdict table.now user.now mode origin.now path.now }
    ensures { result ≡ explanation table.now user.now mode origin.now path.now }
{
    match a {
        Ok(PathAnswer::Permit(_)) => matches(table, user, mode, origin, path),
        Ok(PathAnswer::Deny(_)) => matches(table, user, mode, origin, path),
        Ok(PathAnswer::Default) => Text::new(),
        Err(_) => Text::new(),
    }
}

// The verdict, and the rules that match where one decides.
pub fn all(console: &mut Console, text: &[u8], user: &[u8], mode: u32, origin: &[u8], path: &[u8]) {
    cli_names::tell(console, text, user);
    let a = verdict_call::path_verdict(text, user, mode, origin, path);
    cli_answers::path(console, text, a, Fallback::Explained);
    let lines = explain(text, user, mode, origin, path, a);
    cli_show::word(console, lines.as_bytes());
}
