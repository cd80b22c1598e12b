#![tactic(auto)]

// The parts of a readable line, shown as text.
pub mod ending;
pub mod hex;
pub mod shown;

// Which way parts, lines and texts are converted.
#[derive(Clone, Copy, Debug, PartialEq, Eq)]
pub enum Direction {
    // Bytes to readable text.
    Show,
    // Readable text to bytes.
    Pack,
}
