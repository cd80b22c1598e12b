// Figures added place by place.
ghost use Rattle.std.specs.Prelude.{◌≡◌, ◌+◌, length};
ghost use Rattle.limits.specs.Sizes.{report_lines};
ghost use Rattle.season_sum.specs.Reading.{fits};
ghost use Rattle.season_sum.specs.Adding.{adding, sums_of, after_report, sums_after};
ghost use Rattle.season_sum.specs.Outcome.{outcome_of};

use crate::BadReport;

// Whether a sum has 64 bits at most.
fn is_sum(a: u64, b: u64) -> bool
    ensures { result ≡ fits (a + b) }
{
    b <= u64::MAX - a
}

// Adds the figures to the sums, up to the first sum that has more than 64 bits.
fn add(
    figures: &[u64; limits::REPORT_LINES],
    sums: &mut [u64; limits::REPORT_LINES],
) -> Result<(), BadReport>
    requires { (length figures.now ≡ report_lines) × (length sums.old ≡ report_lines) }
    ensures { (outcome_of result ≡ adding 1 sums.old figures.now)
        × (sums.new ≡ sums_of sums.old figures.now) }
{
    for i in 0..limits::REPORT_LINES {
        let sum = sums[i];
        let figure = figures[i];
        if !is_sum(sum, figure) {
            return Err(BadReport::TooLarge { line: i + 1 });
        }
        sums[i] = sum + figure;
    }
    Ok(())
}

// Adds a report's figures to the sums, where the report reads.
pub fn add_report(text: &[u8], sums: &mut [u64; limits::REPORT_LINES]) -> Result<(), BadReport>
    requires { length sums.old ≡ report_lines }
    ensures { (outcome_of result ≡ after_report text.now sums.old)
        × (sums.new ≡ sums_after text.now sums.old) }
{
    let mut figures = [0u64; limits::REPORT_LINES];
    crate::reading::read(text, &mut figures)?;
    add(&figures, sums)
}
