// Questions about a season. Each line goes up to its LF.
ghost use Rattle.std.specs.Prelude.{◌≤◌, length};

use cli_show::console::Console;

// Prints the lines of a report that are not 0, with their numbers.
fn show_figures(console: &mut Console, report: &[u8]) {
    let mut number: u64 = 1;
    let mut at = 0;
    while at < report.len() {
        let end = crate::split::up_to(report, at, b'\n');
        if report[at] != b'0' {
            cli_show::word(console, b"line ");
            cli_show::decimal(console, number);
            cli_show::word(console, b" is ");
            cli_show::word(console, &report[at..end]);
            cli_show::word(console, b", ");
        }
        number += 1;
        at = crate::split::after(report, end);
    }
}

// `LOG`, by a lent buffer for the longest report.
pub fn report(console: &mut Console, table: &[u8], line: &[u8])
    requires { length line.now ≤ 65536 }
{
    let end = crate::split::up_to(line, 0, b'\n');
    let mut log = [0u8; cli_show::TEXT_ROOM];
    crate::split::lines(&line[0..end], b',', &mut log);
    let mut out = [0u8; limits::MAX_REPORT];
    let answer = burgee::burgee_season_report(table, &log[0..end], &mut out);
    if crate::word::is_refused(answer) {
        crate::word::show_refusal(console, answer);
        return;
    }
    let n = crate::word::filled(answer, &out);
    show_figures(console, &out[..n]);
    cli_show::decimal(console, n as u64);
    cli_show::line(console, b" bytes");
}
