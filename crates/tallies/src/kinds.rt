/// The kinds of answers that are counted.
#[derive(Clone, Copy, Debug, PartialEq, Eq)]
pub enum AnswerKind {
    Committed,
    /// A call wrote nothing.
    Read,
    Cancelled,
    Conflict,
    Stale,
    /// The call's request had committed before.
    Repeated,
    /// Every other answer, as a refusal.
    Other,
}
