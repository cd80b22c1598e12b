// What a command line works with: the system, and what it has told so far.
use crate::marks::Outcome;

#[derive(Drop)]
pub struct Console {
    pub rt: HostRuntime,
    // Whether standard output still takes what is written; the rest goes on where it does not.
    pub is_open: bool,
    // The worst that was told.
    pub outcome: Outcome,
}

impl Console {
    pub fn new(rt: HostRuntime) -> Console {
        Console {
            rt,
            is_open: true,
            outcome: Outcome::Answered,
        }
    }
}
