#![tactic(auto)]

// A user whom a table does not name is told on standard error, with the names that differ only in case.
ghost use Rattle.std.specs.Prelude.{◌≡◌, true, not, ◌+◌, ◌++◌, ◌≤◌, ◌<◌, length};
ghost use Rattle.limits.specs.Limits.{max_string};
ghost use Rattle.text.specs.Test.{◌and◌, any};
ghost use Rattle.text.specs.String.{same};
ghost use Rattle.table.specs.Text.{check, table_of};
ghost use Rattle.table_place.specs.Place.{str_end, str_in};
ghost use Rattle.table_rows.specs.Strings.{strings_in, Listed};
ghost use Rattle.cli_names.specs.Names.{small, alike, led, lead_of, listed, grouping, sentence, told, slip, max_line};
ghost use Rattle.cli_names.specs.Positions.{subjects_in, users_in, Pushed, Stand, RulesReady, GatherReady, Gathered, TableReady};

use cli_show::Stream;
use cli_show::console::Console;
use table_load::Table;
use text_make::Text;

// As many users as a table can name, and the longest line.
const MAX_USERS: usize = limits::MAX_MEMBERS + limits::MAX_RULES;

const MAX_LINE: usize = 67 + limits::MAX_STRING + MAX_USERS * (2 + limits::MAX_STRING);

// A capital letter as the small one, any other byte as it is.
fn small(b: u8) -> u8
    ensures { result ≡ small b }
{
    if (b'A' <= b) & (b <= b'Z') {
        return b - b'A' + b'a';
    }
    b
}

// The two strings are the same but for the case of letters.
fn is_alike(a: &[u8], b: &[u8]) -> bool
    ensures { result ≡ alike a.now b.now }
{
    let n = a.len();
    if n != b.len() {
        return false;
    }
    let mut i = 0;
    while i < n {
        if small(a[i]) != small(b[i]) {
            return false;
        }
        i += 1;
    }
    true
}

// Puts a position after the m in places where the test holds; answers how many there are.
fn push_where(test: bool, places: &mut [u16], m: usize, at: u16) -> usize
    requires { m < length places.old }
    ensures { Pushed test places.old m at places.new result }
{
    if test {
        places[m] = at;
        return m + 1;
    }
    m
}

// Puts the position of each user whom one of n rules names into places; answers how many there are.
fn find_subjects(f: &[u8], starts: &[u16], n: usize, places: &mut [u16]) -> usize
    requires { RulesReady f.now starts.now n places.old }
    ensures { Stand f.now places.new result (subjects_in f.now starts.now n 0) × (result ≤ n)
        × (length places.new ≡ length places.old) }
{
    let mut m = 0;
    for i in 0..n {
        let s = starts[i] as usize;
        let by_user = f[s + table::RULE_SUBJECT_KIND] != table::SUBJECT_GROUP;
        m = push_where(by_user, places, m, (s + table::RULE_SUBJECT) as u16);
    }
    m
}

// The name at `at` is the user's but for the case of letters, and none of the first m kept.
fn is_new(f: &[u8], at: usize, user: &[u8], kept: &[u16], m: usize) -> bool
    requires { (str_end f.now at ≤ length f.now) × Listed f.now kept.now m }
    ensures { result ≡ (alike user.now (str_in f.now at)
        and not (any (same (str_in f.now at)) (strings_in f.now kept.now m 0))) }
{
    let start = at + 1;
    let end = table_place::str_end(f, at);
    let name = &f[start..end];
    if !is_alike(user, name) {
        return false;
    }
    table_rows::find(f, kept, m, name) == m
}

// Puts the positions of those of n names that are the user's but for the case of letters after the m in kept, each name once; answers how many there are.
fn gather(f: &[u8], starts: &[u16], n: usize, user: &[u8], kept: &mut [u16], m: usize) -> usize
    requires { GatherReady f.now starts.now n kept.old m }
    ensures { Gathered f.now starts.now n user.now kept.old m kept.new result }
{
    let mut count = m;
    for i in 0..n {
        let at = starts[i];
        let wanted = is_new(f, at as usize, user, kept, count);
        count = push_where(wanted, kept, count, at);
    }
    count
}

// The words before a name, of which the first has others.
fn lead(first: bool) -> &'static [u8]
    ensures { result.now ≡ lead_of first }
{
    if first { b"; it names " } else { b", " }
}

// Adds the name at p of f, after these words.
fn add_name(f: &[u8], p: usize, first: bool, text: &mut Text<MAX_LINE>)
    requires { (str_end f.now p ≤ length f.now) × (length text.old + length (led first (str_in f.now p)) ≤ max_line) }
    ensures { text.new ≡ text.old ++ led first (str_in f.now p) }
{
    text.push_str(lead(first));
    let start = p + 1;
    let end = table_place::str_end(f, p);
    text.push_str(&f[start..end]);
}

// Adds the names at n places.
fn add_names(f: &[u8], places: &[u16], n: usize, text: &mut Text<MAX_LINE>)
    requires { Listed f.now places.now n × (length text.old + length (listed true (strings_in f.now places.now n 0)) ≤ max_line) }
    ensures { text.new ≡ text.old ++ listed true (strings_in f.now places.now n 0) }
{
    for i in 0..n {
        add_name(f, places[i] as usize, i == 0, text);
    }
}

// What is said of a group that has the name.
fn grouping(grouped: bool) -> &'static [u8]
    ensures { result.now ≡ grouping grouped }
{
    if grouped {
        b"; a group has that name"
    } else {
        b""
    }
}

// The sentence.
fn sentence(f: &[u8], grouped: bool, user: &[u8], places: &[u16], n: usize) -> Text<MAX_LINE>
    requires { Listed f.now places.now n × (length (sentence grouped user.now (strings_in f.now places.now n 0)) ≤ max_line) }
    ensures { result ≡ sentence grouped user.now (strings_in f.now places.now n 0) }
{
    let mut text = Text::of(b"burgee: the table names no user ");
    text.push_str(user);
    text.push_str(grouping(grouped));
    add_names(f, places, n, &mut text);
    text.push_str(b"\n");
    text
}

// What is told of a user.
fn told(
    f: &[u8],
    users: &[u16],
    members: usize,
    starts: &[u16],
    rules: usize,
    grouped: bool,
    user: &[u8],
) -> Text<MAX_LINE>
    requires { TableReady f.now users.now members starts.now rules × (length user.now ≤ max_string) }
    ensures { result ≡ told grouped user.now (users_in f.now users.now members starts.now rules) }
{
    if table_rows::find(f, users, members, user) < members {
        return Text::new();
    }
    let mut subjects = [0u16; limits::MAX_RULES];
    let s = find_subjects(f, starts, rules, &mut subjects);
    if table_rows::find(f, &subjects, s, user) < s {
        return Text::new();
    }
    let mut kept = [0u16; MAX_USERS];
    let m = gather(f, users, members, user, &mut kept, 0);
    let n = gather(f, &subjects, s, user, &mut kept, m);
    sentence(f, grouped, user, &kept, n)
}

// The line; nothing where there is nothing to tell.
pub fn line(text: &[u8], user: &[u8]) -> Text<MAX_LINE>
    ensures { result ≡ slip (check text.now) (table_of text.now) user.now }
{
    let mut table = Table::new();
    let Ok(()) = table_load::load(text, &mut table) else {
        return Text::new();
    };
    if table::is_bad_user(user) {
        return Text::new();
    }
    let f = table.bytes();
    let counts = table.counts;
    let grouped = table_rows::find(f, &table.groups, counts.groups, user) < counts.groups;
    told(
        f,
        &table.users,
        counts.members,
        &table.starts,
        counts.rules,
        grouped,
        user,
    )
}

// Says on standard error that the table names no such user, where that is so.
pub fn tell(console: &mut Console, text: &[u8], user: &[u8]) {
    cli_show::word_to(console, Stream::Error, line(text, user).as_bytes());
}
