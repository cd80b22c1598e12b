// What is remembered from line to line. Lines of one heading come in runs.
ghost use Rattle.std.specs.Prelude.{◌≡◌, ◌≤◌, length};

#[derive(Drop)]
pub struct Run {
    // The heading of the line before, in the first `len` bytes; where that is 0, none is remembered: a heading has bytes.
    pub key: [u8; limits::MAX_HEADING],
    pub len: usize,
    // Which rules concern it.
    pub on: [bool; limits::MAX_RULES],
    ghost within: { len ≤ length key },
}

impl Run {
    // With no line before.
    pub fn new() -> Run
        ensures { result.len ≡ 0 }
    {
        Run {
            key: [0; limits::MAX_HEADING],
            len: 0,
            on: [false; limits::MAX_RULES],
        }
    }
}
