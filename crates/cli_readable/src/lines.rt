// The lines of refusals.
ghost use Rattle.std.specs.Prelude.{◌≡◌, ℕ, Result, Err};
ghost use Rattle.readable.specs.Texts.{converted_of};
ghost use Rattle.cli_readable.specs.Lines.{refusal_line};

use cli_refusal::MAX_LINE;
use readable::Unconverted;
use text_make::Text;

// Why nothing was made of a text.
pub fn refusal(why: Unconverted) -> Text<MAX_LINE>
    ensures { result ≡ refusal_line (converted_of (Err why)) }
{
    match why {
        Unconverted::Refused { number, line } => cli_refusal::line(number, line),
        Unconverted::Unread { line } => {
            let mut text = Text::of(b"refused");
            cli_refusal::add_place(line, &mut text);
            text.push_str(b": not a line of the readable form\n");
            text
        }
        Unconverted::NoRoom => Text::of(b"refused: too long for a table\n"),
    }
}
