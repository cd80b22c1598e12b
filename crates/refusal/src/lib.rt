#![tactic(auto)]

// Why something is refused. The rules number the reasons, and where several hold, the smallest number is given.
ghost use Rattle.std.specs.Prelude.{◌≡◌, min};
ghost use Rattle.refusal.specs.Refusal.{number, code};

mod fault;

pub use fault::Fault;

#[derive(Clone, Copy, Debug, PartialEq, Eq, PartialOrd, Ord)]
pub enum Refusal {
    // Tables.
    TableTooLong,
    NotHexLine,
    BadFrame,
    OutOfOrder,
    LimitPassed,
    StrayByte,
    MisplacedWildcard,
    Repeated,
    UnlistedGroup,
    // Rotations.
    ShortStore,
    RotationOn,
    RotationOff,
    NoCandidate,
    BadRecord,
    OtherKind,
    // Requests on a table, and what is made of paths.
    BadUserOrMode,
    BadOrigin,
    BadPath,
    NoRoom,
    // Policies.
    PolicyTooLong,
    NotJson,
    RepeatedMember,
    NotSchema,
    Backslash,
    BadSize,
    MisplacedAsterisk,
    BadHeaderKey,
    RepeatedRuleName,
    // Requests on a policy.
    BadCaller,
    BadHeaders,
    // Logs.
    LogTooLong,
    BadLogLine,
}

impl Refusal {
    // The number of the rules, which the C interface gives.
    pub fn number(self) -> u8
        ensures { result ≡ number self }
    {
        match self {
            Refusal::TableTooLong => 1,
            Refusal::NotHexLine => 2,
            Refusal::BadFrame => 3,
            Refusal::OutOfOrder => 4,
            Refusal::LimitPassed => 5,
            Refusal::StrayByte => 6,
            Refusal::MisplacedWildcard => 7,
            Refusal::Repeated => 8,
            Refusal::UnlistedGroup => 9,
            Refusal::ShortStore => 11,
            Refusal::RotationOn => 12,
            Refusal::RotationOff => 13,
            Refusal::NoCandidate => 14,
            Refusal::BadRecord => 15,
            Refusal::OtherKind => 16,
            Refusal::BadUserOrMode => 20,
            Refusal::BadOrigin => 21,
            Refusal::BadPath => 22,
            Refusal::NoRoom => 23,
            Refusal::PolicyTooLong => 30,
            Refusal::NotJson => 31,
            Refusal::RepeatedMember => 32,
            Refusal::NotSchema => 33,
            Refusal::Backslash => 34,
            Refusal::BadSize => 35,
            Refusal::MisplacedAsterisk => 36,
            Refusal::BadHeaderKey => 37,
            Refusal::RepeatedRuleName => 38,
            Refusal::BadCaller => 40,
            Refusal::BadHeaders => 41,
            Refusal::LogTooLong => 50,
            Refusal::BadLogLine => 51,
        }
    }
}

// The one with the smaller number, where both refuse.
pub fn smaller(a: Result<(), Refusal>, b: Result<(), Refusal>) -> Result<(), Refusal>
    ensures { code result ≡ min (code a) (code b) }
{
    match (a, b) {
        (Ok(()), _) => b,
        (_, Ok(())) => a,
        (Err(x), Err(y)) => { if y.number() < x.number() { b } else { a } }
    }
}
