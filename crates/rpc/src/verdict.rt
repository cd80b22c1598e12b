// What is decided: denied or permitted by the rule with that number in its list; or denied by default.
#[derive(Clone, Copy, Debug, PartialEq, Eq)]
pub enum Verdict {
    Denied(usize),
    Permitted(usize),
    Default,
}
