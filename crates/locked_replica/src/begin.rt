use crate::begun::BegunCall;
use crate::fact::LogSetting;
use log_model::CallRefusal;
use order_log::Seen;
use std::alloc::{Allocator, Global};

/// The outcome of a call's begin.
#[derive(Drop)]
pub enum Begin<J: LogSetting, P: Allocator + Copy = Global> {
    /// The replica hasn't come as far as the call asks for.
    Behind,
    /// The call may not begin after what was seen.
    Refused(CallRefusal, Seen<J, P>),
    Begun(BegunCall<J, P>),
}
