// A refusal that may be about a line of the text that is refused.
ghost use Rattle.std.specs.Prelude.{◌≡◌};
ghost use Rattle.refusal.specs.Refusal.{at_line};

use crate::Refusal;

// The refusal, and the line, counted from 1; 0 where it is about none, as the C interface has it.
#[derive(Clone, Copy, Debug, PartialEq, Eq)]
pub struct Fault {
    pub refusal: Refusal,
    pub line: usize,
}

impl Fault {
    pub fn at(refusal: Refusal, line: usize) -> Fault
        ensures { result ≡ at_line refusal line }
    {
        Fault { refusal, line }
    }
}

impl From<Refusal> for Fault {
    ghost from_gives = { λ r f. f ≡ at_line r 0 };

    fn from(refusal: Refusal) -> Fault {
        Fault::at(refusal, 0)
    }
}
