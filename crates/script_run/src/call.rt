//! The calls of a script.

ghost use Rattle.std.specs.Prelude.{◌≡◌};
ghost use Rattle.script_run.specs.Calls.{call_of};

use log_model::RequestId;
use script::Action;

/// A call that a line asks for. The name and the arguments are a `B`.
#[derive(Drop)]
pub struct ScriptCall<B> {
    /// The replica, as the line has it: there may be no such replica.
    pub replica: u32,
    /// The procedure's name, as the line has it: there may be no such procedure.
    pub name: B,
    pub args: B,
    /// The session and the sequence number, both at least 1, where the line has them.
    pub request: Option<RequestId>,
}

/// The call that an action begins, where it is one that does.
pub(crate) fn call_of<B: Drop>(action: Action<B>) -> Option<ScriptCall<B>>
    ensures { result ≡ call_of action }
{
    match action {
        Action::Begin {
            replica,
            name,
            args,
        } => Some(ScriptCall {
            replica,
            name,
            args,
            request: None,
        }),
        Action::BeginNumbered {
            replica,
            name,
            args,
            session,
            sequence,
        } => Some(ScriptCall {
            replica,
            name,
            args,
            request: Some(RequestId { session, sequence }),
        }),
        _ => None,
    }
}
