// Questions about a path. Each line goes up to its LF.
ghost use Rattle.std.specs.Prelude.{◌≤◌, length};
ghost use Rattle.limits.specs.Sizes.{max_path_text};

use cli_show::console::Console;

// As many bytes as the digits of a text make.
const MAX_BYTES: usize = cli_show::TEXT_ROOM / 2;

// Prints the text of path bytes, or the refusal.
fn write(console: &mut Console, bytes: &[u8], out: &mut [u8]) {
    let answer = burgee::burgee_path_write(bytes, out);
    if crate::word::is_refused(answer) {
        crate::word::show_refusal(console, answer);
        return;
    }
    cli_show::line(console, &out[..crate::word::filled(answer, out)]);
}

// Prints the path bytes of a text, and the text written from them; or the refusal.
fn read(console: &mut Console, text: &[u8], out: &mut [u8]) {
    let answer = burgee::burgee_path_read(text, out);
    if crate::word::is_refused(answer) {
        crate::word::show_refusal(console, answer);
        return;
    }
    let n = crate::word::filled(answer, out);
    cli_show::hex(console, &out[..n]);
    cli_show::space(console);
    let mut back = [0u8; limits::MAX_PATH_TEXT];
    write(console, &out[..n], &mut back);
}

// The path bytes that a line of hex digits stands for: two digits a byte.
fn write_hex(console: &mut Console, line: &[u8], out: &mut [u8])
    requires { length line.now ≤ 65536 }
{
    let mut bytes = [0u8; MAX_BYTES];
    table_line::read_line(line, 0, &mut bytes, 0);
    write(console, &bytes[0..line.len() / 2], out);
}

// `PATH`, or `HEX`: path text to path bytes and back, or path bytes to path text, by a lent buffer of `room` bytes.
pub fn transcribe(console: &mut Console, is_text: bool, line: &[u8], room: usize)
    requires { (length line.now ≤ 65536) × (room ≤ max_path_text) }
{
    let mut out = [0u8; limits::MAX_PATH_TEXT];
    if !is_text {
        write_hex(console, line, &mut out[0..room]);
        return;
    }
    let end = crate::split::up_to(line, 0, b'\n');
    read(console, &line[0..end], &mut out[0..room]);
}

// `N read PATH`, or `N write HEX`.
pub fn fit(console: &mut Console, line: &[u8])
    requires { length line.now ≤ 65536 }
{
    let name = crate::split::after(line, crate::split::up_to(line, 0, b' '));
    let rest = crate::split::after(line, crate::split::up_to(line, name, b' '));
    let is_text = crate::split::first(&line[name..]) == b'r';
    transcribe(
        console,
        is_text,
        &line[rest..],
        crate::split::digit(line) as usize,
    );
}
