// The lines of paths that are read and written.
ghost use Rattle.std.specs.Prelude.{◌≡◌};
ghost use Rattle.cli_answers.specs.Paths.{bytes_line, text_line, by_number, line_answer};

use refusal::Refusal;
use text_make::Text;

// Room for the lines: two digits a byte, or the text, and the LF.
pub const MAX_BYTES_LINE: usize = 2 * limits::MAX_PATH_BYTES + 1;

pub const MAX_TEXT_LINE: usize = limits::MAX_PATH_TEXT + 1;

// The line of the bytes of a path text; or the refusal.
pub fn bytes_line(text: &[u8]) -> Result<Text<MAX_BYTES_LINE>, Refusal>
    ensures { by_number result ≡ line_answer (bytes_line text.now) }
{
    let mut bytes = [0u8; limits::MAX_PATH_BYTES];
    match path_read::reader::read_text(text, &mut bytes) {
        Ok(n) => {
            let mut digits = [0u8; 2 * limits::MAX_PATH_BYTES];
            let end = readable_parts::hex::write_hex(&bytes[..n], &mut digits, 0);
            let mut hex = Text::of(&digits[..end]);
            hex.push_str(b"\n");
            Ok(hex)
        }
        Err(refusal) => Err(refusal),
    }
}

// The same of the text of path bytes.
pub fn text_line(bytes: &[u8]) -> Result<Text<MAX_TEXT_LINE>, Refusal>
    ensures { by_number result ≡ line_answer (text_line bytes.now) }
{
    let mut text = [0u8; limits::MAX_PATH_TEXT];
    match path_write::write_text(bytes, &mut text) {
        Ok(n) => {
            let mut line = Text::of(&text[..n]);
            line.push_str(b"\n");
            Ok(line)
        }
        Err(refusal) => Err(refusal),
    }
}
