// The RPC verdict.
ghost use Rattle.cli_show.specs.Counts.{IsPrefixLen};

use cli_console::input::Read;
use cli_show::console::Console;
use refusal::Refusal;
use rpc::{Request, Verdict};

// Prints the action, and the list, the number and the name of the deciding rule; or the refusal.
pub fn answer(console: &mut Console, policy: &[u8], v: Result<Verdict, Refusal>) {
    cli_show::word(console, crate::lines::rpc(policy, v).as_bytes());
    if let Err(refusal) = v {
        crate::fault::tell(console, policy, refusal.number());
    }
}

// Header lines: what the file holds that argument i names, if there are that many words; or nothing.
pub fn headers(console: &mut Console, i: usize, words: usize, buf: &mut [u8]) -> Read
    ensures { IsPrefixLen result.count buf.new }
{
    if words <= i {
        return Read {
            is_good: true,
            count: 0,
        };
    }
    cli_console::input::file(console, i, buf)
}

pub fn verdict(console: &mut Console, policy: &[u8], request: Request) {
    answer(console, policy, rpc_call::rpc_verdict(policy, request));
}
