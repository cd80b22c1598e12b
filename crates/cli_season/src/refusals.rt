// The lines on reports that are refused.
ghost use Rattle.std.specs.Prelude.{◌≡◌, ◌+◌, ◌++◌, ◌≤◌, length};
ghost use Rattle.season_sum.specs.Outcome.{refused_as};
ghost use Rattle.cli_season.specs.Refusals.{line_of, reason, refused_report};

use season_sum::BadReport;
use text_make::Text;

// Room for a line, beside the name of the file.
pub const MAX_WORDS: usize = 120;

// The line that is at fault; there is no line 0.
pub fn line_of(why: BadReport) -> usize
    ensures { result ≡ line_of (refused_as why) }
{
    match why {
        BadReport::NoFigure { line } => line,
        BadReport::LineCount { line } => line,
        BadReport::TooLarge { line } => line,
    }
}

fn reason(why: BadReport) -> &'static [u8]
    ensures value { result.now ≡ reason (refused_as why) }
    ensures short { length result.now ≤ 80 }
{
    match why {
        BadReport::NoFigure { .. } =>
            b": not a decimal number of 64 bits at most, without leading zeros\n",
        BadReport::LineCount { .. } => b": a report has 262 lines\n",
        BadReport::TooLarge { .. } => b": the sum has more than 64 bits\n",
    }
}

// Why the report of a file is refused.
pub fn add_line<const N: usize>(name: &[u8], why: BadReport, text: &mut Text<N>)
    requires { length text.old + length name.now + 120 ≤ N }
    ensures { text.new ≡ text.old ++ refused_report name.now (refused_as why) }
{
    text.push_str(b"refused");
    cli_refusal::add_place(line_of(why), text);
    text.push_str(b" of ");
    text.push_str(name);
    text.push_str(reason(why));
}
