#![tactic(auto)]

// Verdicts on a table, printed; lines on its rows, and of paths.
pub mod lines;
pub mod paths;
pub mod rows;

use cli_show::console::Console;
use lines::Fallback;
use refusal::Fault;
use verdict_request::{PathAnswer, TreeAnswer};

// The action and the deciding rule, or the refusal.
pub fn path(console: &mut Console, text: &[u8], a: Result<PathAnswer, Fault>, f: Fallback) {
    cli_show::word(console, lines::path(text, f, a).as_bytes());
    if let Err(fault) = a {
        cli_console::refused::of_text(console, text, fault.refusal.number(), fault.line);
    }
}

// The tree answer, and the rule that MIXED names; or the refusal.
pub fn tree(console: &mut Console, text: &[u8], a: Result<TreeAnswer, Fault>, f: Fallback) {
    cli_show::word(console, lines::tree(text, f, a).as_bytes());
    if let Err(fault) = a {
        cli_console::refused::of_text(console, text, fault.refusal.number(), fault.line);
    }
}
