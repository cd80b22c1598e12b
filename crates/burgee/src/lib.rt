#![tactic(auto)]

// The C boundary: every function that crate `burgee_c` exports. Each takes numbers and byte slices, one by one, as the C interface has them, and answers one
// word.
pub mod policies;
pub mod probes;
pub mod records;
mod word;

ghost use Rattle.std.specs.Prelude.{◌≡◌};
ghost use Rattle.burgee.specs.Calls.{PathRead, PathWrite, TableCheck, GroupCount, PathVerdict, TreeVerdict, SeasonReport, buffer, word, after};

// Path text to path bytes.
pub fn burgee_path_read(text: &[u8], out: &mut [u8]) -> u64
    ensures { (result ≡ word (PathRead text.now out.old))
        × (buffer out.new ≡ after (PathRead text.now out.old)) }
{
    word::of_filled(path_read::reader::read_text(text, out))
}

// Path bytes to path text.
pub fn burgee_path_write(bytes: &[u8], out: &mut [u8]) -> u64
    ensures { (result ≡ word (PathWrite bytes.now out.old))
        × (buffer out.new ≡ after (PathWrite bytes.now out.old)) }
{
    word::of_filled(path_write::write_text(bytes, out))
}

// A rule table: accepted, or refused with its first faulty line.
pub fn burgee_table_check(table: &[u8]) -> u64
    ensures { result ≡ word (TableCheck table.now) }
{
    word::of_checked(table_check::check_table(table))
}

// How many groups of the table list the user, and the first of them.
pub fn burgee_group_count(table: &[u8], user: &[u8]) -> u64
    ensures { result ≡ word (GroupCount table.now user.now) }
{
    word::of_counted(table_check::count_groups(table, user))
}

// The action for one path, and the deciding rule.
pub fn burgee_path_verdict(table: &[u8], user: &[u8], mode: u32, origin: &[u8], path: &[u8]) -> u64
    ensures { result ≡ word (PathVerdict table.now user.now mode origin.now path.now) }
{
    word::of_path(verdict_call::path_verdict(table, user, mode, origin, path))
}

// ALL, NONE or MIXED for the paths at or beneath, and the rule that MIXED names.
pub fn burgee_tree_verdict(table: &[u8], user: &[u8], mode: u32, origin: &[u8], path: &[u8]) -> u64
    ensures { result ≡ word (TreeVerdict table.now user.now mode origin.now path.now) }
{
    word::of_tree(verdict_call::tree_verdict(table, user, mode, origin, path))
}

// How often each rule decided over a log of requests, and a grid of modes against outcomes: the report's lines.
pub fn burgee_season_report(table: &[u8], log: &[u8], out: &mut [u8]) -> u64
    ensures { (result ≡ word (SeasonReport table.now log.now out.old))
        × (buffer out.new ≡ after (SeasonReport table.now log.now out.old)) }
{
    word::of_reported(season_call::season_report(table, log, out))
}
