// The commands on a policy: its check, and the RPC verdict.
#![tactic(auto)]

pub mod fault;
pub mod lines;
pub mod rpcs;

use cli_show::console::Console;

// Prints how many rules each list of an accepted policy has, or why it is refused.
pub fn check(console: &mut Console, text: &[u8]) {
    let counted = policy_facts::count_rules(text);
    cli_show::word(console, lines::counts(counted).as_bytes());
    if let Err(refusal) = counted {
        crate::fault::tell(console, text, refusal.number());
    }
}
