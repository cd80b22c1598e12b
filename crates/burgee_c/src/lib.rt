#![tactic(auto)]

// The static library: every exported function, above the function of its name in crate `burgee`, with the very same clauses. Each takes numbers
// and byte slices and answers one word.
pub mod policies;
pub mod probes;
pub mod records;

ghost use Rattle.std.specs.Prelude.{◌≡◌};
ghost use Rattle.burgee.specs.Calls.{PathRead, PathWrite, TableCheck, GroupCount, PathVerdict, TreeVerdict, SeasonReport, buffer, word, after};

// Path text to path bytes.
#[unsafe(no_mangle)]
pub extern "C" fn burgee_path_read(text: &[u8], out: &mut [u8]) -> u64
    ensures { (result ≡ word (PathRead text.now out.old))
        × (buffer out.new ≡ after (PathRead text.now out.old)) }
{
    burgee::burgee_path_read(text, out)
}

// Path bytes to path text.
#[unsafe(no_mangle)]
pub extern "C" fn burgee_path_write(bytes: &[u8], out: &mut [u8]) -> u64
    ensures { (result ≡ word (PathWrite bytes.now out.old))
        × (buffer out.new ≡ after (PathWrite bytes.now out.old)) }
{
    burgee::burgee_path_write(bytes, out)
}

// A rule table: accepted, or refused with its first faulty line.
#[unsafe(no_mangle)]
pub extern "C" fn burgee_table_check(table: &[u8]) -> u64
    ensures { result ≡ word (TableCheck table.now) }
{
    burgee::burgee_table_check(table)
}

// How many groups of the table list the user, and the first of them.
#[unsafe(no_mangle)]
pub extern "C" fn burgee_group_count(table: &[u8], user: &[u8]) -> u64
    ensures { result ≡ word (GroupCount table.now user.now) }
{
    burgee::burgee_group_count(table, user)
}

// The action for one path, and the deciding rule.
#[unsafe(no_mangle)]
pub extern "C" fn burgee_path_verdict(
    table: &[u8],
    user: &[u8],
    mode: u32,
    origin: &[u8],
    path: &[u8],
) -> u64
    ensures { result ≡ word (PathVerdict table.now user.now mode origin.now path.now) }
{
    burgee::burgee_path_verdict(table, user, mode, origin, path)
}

// ALL, NONE or MIXED for the paths at or beneath, and the rule that MIXED names.
#[unsafe(no_mangle)]
pub extern "C" fn burgee_tree_verdict(
    table: &[u8],
    user: &[u8],
    mode: u32,
    origin: &[u8],
    path: &[u8],
) -> u64
    ensures { result ≡ word (TreeVerdict table.now user.now mode origin.now path.now) }
{
    burgee::burgee_tree_verdict(table, user, mode, origin, path)
}

// How often each rule decided over a log of requests, and a grid of modes against outcomes: the report's lines.
#[unsafe(no_mangle)]
pub extern "C" fn burgee_season_report(table: &[u8], log: &[u8], out: &mut [u8]) -> u64
    ensures { (result ≡ word (SeasonReport table.now log.now out.old))
        × (buffer out.new ≡ after (SeasonReport table.now log.now out.old)) }
{
    burgee::burgee_season_report(table, log, out)
}
