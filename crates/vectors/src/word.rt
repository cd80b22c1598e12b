// The answer word, printed so that each bit of it shows: the refusal number, or two numbers, the second one more than what it names.
ghost use Rattle.cli_show.specs.Counts.{IsPrefixLen};

use cli_show::console::Console;

pub fn is_refused(word: u64) -> bool {
    word % 256 != 0
}

// The line is 0 where the number carries none.
pub fn show_refusal(console: &mut Console, word: u64) {
    cli_show::word(console, b"refused ");
    cli_show::decimal(console, word % 256);
    let line = word / 256;
    if line != 0 {
        cli_show::word(console, b" line ");
        cli_show::decimal(console, line);
    }
    cli_show::word(console, b"\n");
}

pub fn show_checked(console: &mut Console, word: u64) {
    if word == 0 {
        cli_show::line(console, b"accepted");
    } else {
        show_refusal(console, word);
    }
}

// Ends the line, with what the second number names, if it does.
fn show_named(console: &mut Console, title: &[u8], word: u64) {
    let number = word / 65536;
    if number != 0 {
        cli_show::word(console, title);
        cli_show::decimal(console, number - 1);
    }
    cli_show::word(console, b"\n");
}

// The first number by its name.
fn show_first(console: &mut Console, number: u64, is_tree: bool) {
    if is_tree {
        match number {
            0 => cli_show::word(console, b"NONE"),
            1 => cli_show::word(console, b"ALL"),
            2 => cli_show::word(console, b"MIXED"),
            _ => cli_show::decimal(console, number),
        }
    } else {
        match number {
            0 => cli_show::word(console, b"deny"),
            1 => cli_show::word(console, b"permit"),
            _ => cli_show::decimal(console, number),
        }
    }
}

pub fn show_verdict(console: &mut Console, word: u64, is_tree: bool) {
    if is_refused(word) {
        show_refusal(console, word);
        return;
    }
    show_first(console, word / 256 % 256, is_tree);
    show_named(console, b" by ", word);
}

pub fn show_groups(console: &mut Console, word: u64) {
    if is_refused(word) {
        show_refusal(console, word);
        return;
    }
    cli_show::decimal(console, word / 256 % 256);
    show_named(console, b", first ", word);
}

// The length that was filled, as far as the buffer goes.
pub fn filled(word: u64, out: &[u8]) -> usize
    ensures { IsPrefixLen result out.now }
{
    let n = (word / 256) as usize;
    if n <= out.len() { n } else { out.len() }
}
