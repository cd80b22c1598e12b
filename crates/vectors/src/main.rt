// Runs the vectors of its standard input through the calls that the library exports, and prints what the word of each answer says.
// The head of the file `stdin` says what a line of it means.
#![tactic(auto)]

mod long;
mod paths;
mod policies;
mod reports;
mod split;
mod tables;
mod word;

ghost use Rattle.std.specs.Prelude.{◌≤◌, length};
ghost use Rattle.std.specs.Io.{ReadsAtMost};

use cli_show::TEXT_ROOM;
use cli_show::console::Console;
use std::io;
use std::io::Read;
use std::process::ExitCode;

// Lines that follow each other.
#[derive(Drop)]
struct Span {
    start: usize,
    end: usize,
}

// Whether a line that begins with b belongs to a text: it is no comment, and no question.
fn is_text(b: u8) -> bool {
    (b != b'#') & ((b < b'a') | (b'z' < b))
}

// The last text after a line from `at` to `next` that begins with b: it goes on, or begins anew, with a line that belongs to one.
fn text_after(t: Span, b: u8, at: usize, next: usize) -> Span
    requires { (t.start ≤ t.end) × (t.end ≤ at) × (at ≤ next) }
    ensures { (result.start ≤ result.end) × (result.end ≤ next) }
{
    if !is_text(b) {
        return Span {
            start: t.start,
            end: t.end,
        };
    }
    if t.end != at {
        return Span {
            start: at,
            end: next,
        };
    }
    Span {
        start: t.start,
        end: next,
    }
}

// Answers a question by its first letter, with what follows its first word, about a text.
fn answer(console: &mut Console, text: &[u8], letter: u8, rest: &[u8])
    requires { length rest.now ≤ 65536 }
{
    match letter {
        b'r' => paths::transcribe(console, true, rest, limits::MAX_PATH_TEXT),
        b'w' => paths::transcribe(console, false, rest, limits::MAX_PATH_TEXT),
        b'f' => paths::fit(console, rest),
        b'c' => tables::check(console, text),
        b'z' => long::table(console, split::digit(rest)),
        b'g' => tables::groups(console, text, rest),
        b'v' => tables::request(console, text, false, rest),
        b't' => tables::request(console, text, true, rest),
        b's' => reports::report(console, text, rest),
        b'p' => policies::check(console, text),
        b'b' => long::policy(console, split::digit(rest)),
        b'i' => policies::rpc(console, text, rest),
        _ => cli_show::line(console, b"no such question"),
    }
}

// Prints a question and its answer.
fn run_question(console: &mut Console, text: &[u8], line: &[u8])
    requires { length line.now ≤ 65536 }
{
    let end = split::up_to(line, 0, b'\n');
    cli_show::word(console, &line[0..end]);
    cli_show::word(console, b": ");
    let rest = split::after(line, split::up_to(line, 0, b' '));
    answer(console, text, split::first(line), &line[rest..]);
}

// A comment is printed as it is.
fn run_line(console: &mut Console, text: &[u8], line: &[u8])
    requires { length line.now ≤ 65536 }
{
    if line.len() == 0 {
        return;
    }
    if line[0] == b'#' {
        cli_show::word(console, line);
        return;
    }
    if is_text(line[0]) {
        return;
    }
    run_question(console, text, line);
}

fn run_lines(console: &mut Console, text: &[u8])
    requires { length text.now ≤ 65536 }
{
    let mut t = Span { start: 0, end: 0 };
    let mut at = 0;
    while at < text.len() {
        let next = split::after(text, split::up_to(text, at, b'\n'));
        t = text_after(t, text[at], at, next);
        let first = t.start;
        let last = t.end;
        run_line(console, &text[first..last], &text[at..next]);
        at = next;
    }
}

// Reads until the buffer is full, the input ends or a read fails, and answers how many bytes came.
fn read_full(input: &mut impl Read, buf: &mut [u8]) -> io::Result<usize>
    ensures { ReadsAtMost result buf.new }
{
    let mut count = 0;
    while count < buf.len() {
        let n = input.read(&mut buf[count..])?;
        if n == 0 {
            break;
        }
        count += n;
    }
    Ok(count)
}

fn main(rt: HostRuntime) -> io::Result<ExitCode> {
    let mut console = Console::new(rt);
    let mut input = [0u8; TEXT_ROOM];
    let n = read_full(&mut rt.stdin(), &mut input)?;
    run_lines(&mut console, &input[..n]);
    Ok(cli_show::marks::end(&console))
}
