//! The calls of a script, as they are planned.

ghost use Rattle.std.specs.Prelude.{◌≡◌};
ghost use Rattle.script_run.specs.Answered.{number_named};

use crate::call::ScriptCall;
use locked_replica::LogSetting;
use row_sets::Bytes;
use std::alloc::Global;
use std::marker::PhantomData;

/// A call of a script, with the number that its procedure has in the log's catalogue. The number is none where no
/// procedure has the call's name.
#[derive(Drop)]
pub(crate) struct PlannedCall<J: LogSetting> {
    pub(crate) call: ScriptCall<Bytes<Global>>,
    pub(crate) procedure: Option<u16>,
    pub(crate) of: PhantomData<J>,
    ghost numbered: { procedure ≡ number_named J.setting.beginning.procedures call.name },
}
