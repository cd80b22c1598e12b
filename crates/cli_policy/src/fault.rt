// A policy's refusal, with the line of its fault.
use cli_show::console::Console;

// The line of the fault; 0 for a number that is not about the text's content.
fn line(text: &[u8], number: u8) -> usize {
    if (number < 31) | (38 < number) {
        return 0;
    }
    cli_console::lines::number_at(text, policy_fault::place(text, number))
}

// Prints the refusal of a policy text by this number, or of a request on it.
pub fn tell(console: &mut Console, text: &[u8], number: u8) {
    cli_console::refused::of_text(console, text, number, line(text, number));
}
