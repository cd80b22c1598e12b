// The command line: each command prints what one call of the proved libraries answers, one fact a line.
#![tactic(auto)]

use cli_console::input;
use cli_show::console::Console;
use cli_show::{TEXT_ROOM, WORD_ROOM};
use cli_table::{explanation, paths, tables};
use readable_parts::Direction;
use rpc::Request;
use std::process::ExitCode;

// Each is called in its own way; a name that no command has is told in its place, so `Unknown` is one of them.
#[derive(Clone, Copy)]
enum Command {
    Table,
    Show,
    Pack,
    Policy,
    Groups,
    Path,
    Verdict,
    Tree,
    Explain,
    Report,
    ReportSum,
    Season,
    Rpc,
    Log,
    Rotate,
    Version,
    Help,
    Unknown,
}

// The command of that name.
fn named(word: &[u8]) -> Command {
    let place = cli_console::lines::place(
        b"table\nshow\npack\npolicy\ngroups\npath\nverdict\ntree\nexplain\nreport\nreport-sum\nseason\n\
        rpc\nlog\nrotate\nversion\n--version\nhelp\n--help\n-h\n",
        word,
    );
    match place {
        0 => Command::Unknown,
        1 => Command::Table,
        2 => Command::Show,
        3 => Command::Pack,
        4 => Command::Policy,
        5 => Command::Groups,
        6 => Command::Path,
        7 => Command::Verdict,
        8 => Command::Tree,
        9 => Command::Explain,
        10 => Command::Report,
        11 => Command::ReportSum,
        12 => Command::Season,
        13 => Command::Rpc,
        14 => Command::Log,
        15 => Command::Rotate,
        16 | 17 => Command::Version,
        _ => Command::Help,
    }
}

// One byte more than the longest text that a command takes, a readable one of 131,072 bytes, so that a longer one is told from it.
const LONG_TEXT_ROOM: usize = 131073;

// Room for path bytes. What stands after the argument is LF, which ends a line of digits.
const DIGITS_ROOM: usize = TEXT_ROOM;

fn on_text(console: &mut Console, command: Command, words: usize, text: &[u8]) {
    match command {
        Command::Table => tables::check(console, text),
        Command::Show => cli_readable::show_table(console, text),
        Command::Pack => cli_readable::pack_table(console, text, words),
        _ => cli_policy::check(console, text),
    }
}

// burgee table|show|pack|policy FILE
// burgee pack FILE TABLE
fn read_text(console: &mut Console, command: Command, words: usize) {
    let mut text = [0u8; LONG_TEXT_ROOM];
    let got = input::file(console, 2, &mut text);
    let n = got.count;
    if got.is_good {
        on_text(console, command, words, &text[..n]);
    }
}

// burgee rpc FILE IDENTITY PATH [HEADERS-FILE]
fn rpc(console: &mut Console, words: usize) {
    if (words == 6) & input::is_standard(console, 2) & input::is_standard(console, 5) {
        cli_console::say::usage(
            console,
            b"standard input can be read once only",
            b"",
            b"rpc",
        );
        return;
    }
    let mut text = [0u8; TEXT_ROOM];
    let got = input::file(console, 2, &mut text);
    let n = got.count;
    let mut headers = [0u8; TEXT_ROOM];
    let also = cli_policy::rpcs::headers(console, 5, words, &mut headers);
    let h = also.count;
    let mut identity = [0u8; WORD_ROOM];
    let i = input::word(console, 3, &mut identity);
    let mut path = [0u8; WORD_ROOM];
    let p = input::word(console, 4, &mut path);
    if got.is_good & also.is_good {
        let request = Request {
            identity: &identity[..i],
            path: &path[..p],
            headers: &headers[..h],
        };
        cli_policy::rpcs::verdict(console, &text[..n], request);
    }
}

// burgee groups FILE USER
fn groups(console: &mut Console) {
    let mut user = [0u8; WORD_ROOM];
    let u = input::word(console, 3, &mut user);
    let mut text = [0u8; TEXT_ROOM];
    let got = input::file(console, 2, &mut text);
    let n = got.count;
    if got.is_good {
        tables::groups(console, &text[..n], &user[..u]);
    }
}

fn on_log(console: &mut Console, command: Command, table: &[u8]) {
    match command {
        Command::Report => cli_report::report(console, table, 3),
        _ => cli_season::season(console, table, 3),
    }
}

// burgee report|season TABLE LOG
fn report(console: &mut Console, command: Command, page: &[u8]) {
    if input::is_standard(console, 2) & input::is_standard(console, 3) {
        cli_console::say::usage(console, b"standard input can be read once only", b"", page);
        return;
    }
    let mut text = [0u8; TEXT_ROOM];
    let got = input::file(console, 2, &mut text);
    let n = got.count;
    if got.is_good {
        on_log(console, command, &text[..n]);
    }
}

fn judge(
    console: &mut Console,
    command: Command,
    text: &mut [u8],
    user: &[u8],
    mode: u32,
    origin: &[u8],
    path: &[u8],
) {
    match command {
        Command::Verdict => tables::verdict(console, text, user, mode, origin, path),
        Command::Tree => tables::tree(console, text, user, mode, origin, path),
        _ => explanation::all(console, text, user, mode, origin, path),
    }
}

// burgee verdict|tree|explain FILE USER read|write ORIGIN PATH
fn verdict(console: &mut Console, command: Command, page: &[u8]) {
    let mode = input::mode(console, 4, page);
    if mode == 0 {
        return;
    }
    let mut user = [0u8; WORD_ROOM];
    let u = input::word(console, 3, &mut user);
    let mut origin = [0u8; WORD_ROOM];
    let o = input::word(console, 5, &mut origin);
    let mut path = [0u8; TEXT_ROOM];
    let p = input::word(console, 6, &mut path);
    let mut text = [0u8; TEXT_ROOM];
    let got = input::file(console, 2, &mut text);
    let n = got.count;
    if got.is_good {
        judge(
            console,
            command,
            &mut text[..n],
            &user[..u],
            mode,
            &origin[..o],
            &path[..p],
        );
    }
}

// burgee path read TEXT
// burgee path write BYTES
fn path(console: &mut Console) {
    let mode = input::mode(console, 2, b"path");
    let mut given = [b'\n'; DIGITS_ROOM];
    let n = input::word(console, 3, &mut given);
    if mode == 1 {
        paths::read(console, &given[..n]);
    }
    if mode == 2 {
        paths::write(console, &given);
    }
}

// burgee log show FILE
// burgee log pack FILE
fn log(console: &mut Console) {
    let mut step = [0u8; WORD_ROOM];
    let s = input::word(console, 2, &mut step);
    let direction = cli_console::lines::place(b"show\npack\n", &step[..s]);
    match direction {
        1 => cli_readable::logs::convert(console, Direction::Show, 3),
        2 => cli_readable::logs::convert(console, Direction::Pack, 3),
        _ => cli_console::say::usage(console, b"neither show nor pack: ", &step[..s], b"log"),
    }
}

// burgee rotate STEP FILE ..
fn rotate(console: &mut Console, words: usize) {
    let mut step = [0u8; WORD_ROOM];
    let s = input::word(console, 2, &mut step);
    cli_rotation::steps::run(console, &step[..s], words);
}

// burgee help [COMMAND]
fn explain_use(console: &mut Console) {
    let mut word = [0u8; WORD_ROOM];
    let w = input::word(console, 2, &mut word);
    if !cli_help::on(console, &word[..w]) {
        cli_console::say::usage(console, b"no such command: ", &word[..w], b"");
    }
}

// Whether a command takes that many words; how many a rotation takes, its step says, and a sum takes any number of reports.
fn takes(command: Command, words: usize) -> bool {
    match command {
        Command::Table | Command::Show | Command::Policy => words == 3,
        Command::Pack => (words == 3) | (words == 4),
        Command::Groups | Command::Path | Command::Log => words == 4,
        Command::Report | Command::Season => words == 4,
        Command::Verdict | Command::Tree | Command::Explain => words == 7,
        Command::Rpc => (words == 5) | (words == 6),
        Command::ReportSum | Command::Rotate => 2 < words,
        Command::Version => words == 2,
        _ => words < 4,
    }
}

fn run(console: &mut Console, command: Command, name: &[u8], words: usize) {
    match command {
        Command::Table | Command::Show | Command::Pack | Command::Policy => {
            read_text(console, command, words)
        }
        Command::Groups => groups(console),
        Command::Path => path(console),
        Command::Verdict | Command::Tree | Command::Explain => verdict(console, command, name),
        Command::Report | Command::Season => report(console, command, name),
        Command::ReportSum => cli_season::sums::run(console, words),
        Command::Rpc => rpc(console, words),
        Command::Log => log(console),
        Command::Rotate => rotate(console, words),
        Command::Version => cli_help::version(console),
        Command::Help => explain_use(console),
        Command::Unknown => cli_console::say::usage(console, b"no such command: ", name, b""),
    }
}

// Whether the one word after the command asks for its page of help. Elsewhere such a word is a user's name, say.
fn asks_help(console: &Console, words: usize) -> bool {
    let mut word = [0u8; WORD_ROOM];
    let w = input::word(console, 2, &mut word);
    (words == 3) & (cli_console::lines::place(b"--help\n-h\n", &word[..w]) != 0)
}

// The page of a command; all of help where that has none of its own.
fn show_page(console: &mut Console, name: &[u8]) {
    if !cli_help::on(console, name) {
        let _ = cli_help::on(console, b"");
    }
}

// A command that was called with words that it does not take.
fn refuse_words(console: &mut Console, command: Command, name: &[u8]) {
    match command {
        Command::Version => cli_console::say::misuse(console, b"version"),
        Command::Help => cli_console::say::usage(console, b"not the arguments of help", b"", b""),
        _ => cli_console::say::misuse(console, name),
    }
}

// The command that the first word names, on the words that follow it.
fn obey(console: &mut Console, words: usize) {
    let mut word = [0u8; WORD_ROOM];
    let w = input::word(console, 1, &mut word);
    let command = named(&word[..w]);
    if words < 2 {
        cli_console::say::usage(console, b"no command is named", b"", b"");
    } else if let Command::Unknown = command {
        run(console, command, &word[..w], words);
    } else if asks_help(console, words) {
        show_page(console, &word[..w]);
    } else if takes(command, words) {
        run(console, command, &word[..w], words);
    } else {
        refuse_words(console, command, &word[..w]);
    }
}

fn main(rt: HostRuntime) -> ExitCode {
    let mut console = Console::new(rt);
    let words = input::word_count(&console);
    obey(&mut console, words);
    cli_show::marks::end(&console)
}
