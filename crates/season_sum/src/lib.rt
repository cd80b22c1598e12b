#![tactic(auto)]

// The sum of season reports: a report's text read, its figures added to others, and figures written as a report.
pub mod adding;
pub mod reading;
pub mod writing;

// Why a report is refused: the first line that is no figure, that there is not though it should be or is though it should not, or whose sum has more
// than 64 bits.
#[derive(Clone, Copy, Debug, PartialEq, Eq)]
pub enum BadReport {
    NoFigure { line: usize },
    LineCount { line: usize },
    TooLarge { line: usize },
}
