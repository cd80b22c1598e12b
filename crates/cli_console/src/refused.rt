// Refusals, printed.
use cli_show::Stream;
use cli_show::console::Console;

// `refused N: what it means`, or `refused N at line L: what it means` where the refusal carries a line. To standard output; to standard error
// where the other is for a text.
pub fn to(console: &mut Console, to: Stream, number: u8, line: usize) {
    cli_show::word_to(console, to, cli_refusal::line(number, line).as_bytes());
    cli_show::marks::refusal(console);
}

// The same to standard output.
pub fn at(console: &mut Console, number: u8, line: usize) {
    to(console, Stream::Output, number, line);
}

// Prints the line of a text that a refusal is about; there is no line 0. Where its end may be the fault, since a line that looks right may lack its LF, that is
// told too.
pub fn quote_line(console: &mut Console, to: Stream, text: &[u8], line: usize, is_end_told: bool) {
    if line == 0 {
        return;
    }
    cli_show::word_to(console, to, b"line: ");
    crate::lines::quote(console, to, text, line);
    if is_end_told {
        if crate::lines::is_open(text, line) {
            cli_show::word_to(console, to, b"the line has no LF at its end\n");
        }
    }
}

// The refusal of a text, and the line that it is about.
pub fn of_text(console: &mut Console, text: &[u8], number: u8, line: usize) {
    at(console, number, line);
    quote_line(console, Stream::Output, text, line, number == 2);
}
