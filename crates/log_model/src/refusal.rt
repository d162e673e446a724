//! The causes for which a call may not begin.

/// A cause for which a call may not begin.
#[derive(Clone, Copy, Debug, PartialEq, Eq, Drop)]
pub enum CallRefusal {
    /// There is no such procedure after what the call would see.
    NoProcedure,
    /// The procedure takes arguments of another length.
    ArgumentsLength,
    /// The session or the number of the request is 0.
    ZeroInRequest,
}
