// The counts of a report: one for each rule, and a grid of two rows and three columns.
ghost use Rattle.std.specs.Prelude.{◌≡◌, ◌+◌, get_or};
ghost use Prim.Native.Nat.{◌≤◌, ◌<◌};
ghost use Rattle.limits.specs.Limits.{max_rules, max_log_lines};
ghost use Rattle.verdict_request.specs.Answers.{on_path};
ghost use Rattle.season_count.specs.Counts.{raised, cell_of, raised_by, column_of, cell_raised_by, Placed, UpTo, NoneIn};

use table::RuleNumber;
use verdict_request::PathAnswer;

// What is counted so far.
#[derive(Drop)]
pub struct Tally {
    // How often each rule decided.
    pub rules: [u64; limits::MAX_RULES],
    // Reads and writes against permit, denied by a rule, and denied by default.
    pub grid: [[u64; 3]; 2],
    // The lines: no count is more.
    pub lines: usize,
    ghost low: { UpTo lines rules grid },
    ghost few: { lines ≤ max_log_lines },
}

// One place raised; only a rule's number picks it.
fn raise(counts: &mut [u64; limits::MAX_RULES], rule: RuleNumber)
    requires { (rule.0 < max_rules) × (get_or counts.old rule.0 0 ≤ max_log_lines) }
    ensures { counts.new ≡ raised counts.old rule.0 }
{
    let k = rule.0 as usize;
    counts[k] += 1;
}

// The place of the rule that decided is raised, if one did.
pub fn count_rule(counts: &mut [u64; limits::MAX_RULES], a: PathAnswer)
    requires { Placed (on_path a) × ((i : Prim.Native.Nat.ℕ) → get_or counts.old i 0 ≤ max_log_lines) }
    ensures { counts.new ≡ raised_by counts.old (on_path a) }
{
    match a {
        PathAnswer::Permit(rule) => raise(counts, rule),
        PathAnswer::Deny(rule) => raise(counts, rule),
        PathAnswer::Default => {}
    }
}

fn column(a: PathAnswer) -> usize
    ensures { result ≡ column_of (on_path a) }
{
    match a {
        PathAnswer::Permit(rule) => 0,
        PathAnswer::Deny(rule) => 1,
        PathAnswer::Default => 2,
    }
}

// One cell is raised, in the row of the mode.
pub fn count_cell(grid: &mut [[u64; 3]; 2], mode: u8, a: PathAnswer)
    requires { (1 ≤ mode) × (mode ≤ 2) × ((r c : Prim.Native.Nat.ℕ) → cell_of grid.old r c ≤ max_log_lines) }
    ensures { grid.new ≡ cell_raised_by grid.old mode (on_path a) }
{
    let row = mode as usize - 1;
    let place = column(a);
    grid[row][place] += 1;
}

impl Tally {
    // Of no line.
    pub fn new() -> Tally
        ensures { NoneIn result.rules result.grid result.lines }
    {
        Tally {
            rules: [0; limits::MAX_RULES],
            grid: [[0; 3]; 2],
            lines: 0,
        }
    }

    // Counts a line whose request has that mode and that answer.
    pub fn count(&mut self, mode: u8, answer: PathAnswer)
        requires { Placed (on_path answer) × (1 ≤ mode) × (mode ≤ 2) × (self.old.lines < max_log_lines) }
        ensures rules { self.new.rules ≡ raised_by self.old.rules (on_path answer) }
        ensures grid { self.new.grid ≡ cell_raised_by self.old.grid mode (on_path answer) }
        ensures lines { self.new.lines ≡ self.old.lines + 1 }
    {
        count_rule(&mut self.rules, answer);
        count_cell(&mut self.grid, mode, answer);
        self.lines += 1;
    }
}
