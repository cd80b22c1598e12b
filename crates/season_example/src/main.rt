// Prints the page on an example season: a table that is read, and counts over it.
#![tactic(auto)]

use cli_show::TEXT_ROOM;
use cli_show::console::Console;
use season_count::Tally;
use std::process::ExitCode;

fn main(rt: HostRuntime) -> ExitCode {
    let mut console = Console::new(rt);
    let mut text = [0u8; TEXT_ROOM];
    let got = cli_console::input::file(&mut console, 1, &mut text);
    let n = got.count;
    let mut rules = [0; limits::MAX_RULES];
    rules[0] = 218;
    rules[1] = 97;
    rules[3] = 97;
    rules[5] = 1;
    let tally = Tally {
        rules,
        grid: [[315, 1, 11], [0, 97, 7]],
        lines: 431,
    };
    if got.is_good {
        cli_season::page(&mut console, &text[..n], &tally);
    }
    cli_show::marks::end(&console)
}
