//! The statements that the lines of a script have made so far.

ghost use Rattle.std.specs.Prelude.{◌≡◌, ◌⊎◌, ◌≤◌, Some, Ok, Err, IfOk, IfErr, OnOk, OnErr};
ghost use Rattle.script.specs.Script.{IsSettingWithinLimits};
ghost use Rattle.script.specs.declared.cause.FaultCause.TheVariants.{NoMemory};
ghost use Rattle.script_run.specs.Calls.{call_of, with_call, with_setting};
ghost use Rattle.script_run.specs.Reading.{so_far};

use crate::call::{ScriptCall, call_of};
use crate::call_script::CallScript;
use row_sets::Bytes;
use script::{
    Action, FaultCause, LineReader, ScriptFault, Setting, Settings, Statement, statement,
};
use std::alloc::{AllocError, Allocator};

/// The statements that the lines of a script have made so far.
#[derive(Drop)]
pub(crate) struct Reading<A: Allocator + Copy> {
    pub(crate) settings: Settings<A>,
    pub(crate) calls: Vec<ScriptCall<Bytes<A>>, A>,
}

impl<A: Allocator + Copy> Reading<A> {
    /// Takes a setting.
    fn set(&mut self, setting: Setting<Bytes<A>>) -> Result<(), FaultCause>
        requires { IsSettingWithinLimits setting }
        ensures ok { OnOk result (with_setting (so_far self.old) setting ≡ Ok (so_far self.new)) }
        ensures fault { IfErr result (λ cause. (cause ≡ NoMemory)
            ⊎ (with_setting (so_far self.old) setting ≡ Err cause)) }
    {
        if !self.calls.is_empty() {
            return Err(FaultCause::Place);
        }
        self.settings.set(setting)
    }

    /// Takes an action: only an action that begins a call may stand.
    fn begin(&mut self, action: Action<Bytes<A>>) -> Result<(), FaultCause>
        ensures ok { OnOk result (with_call (so_far self.old) (call_of action) ≡ Ok (so_far self.new)) }
        ensures fault { IfErr result (λ cause. (cause ≡ NoMemory)
            ⊎ (with_call (so_far self.old) (call_of action) ≡ Err cause)) }
    {
        match call_of(action) {
            Some(call) => self.add(call),
            None => Err(FaultCause::Place),
        }
    }

    /// Takes a call.
    fn add(&mut self, call: ScriptCall<Bytes<A>>) -> Result<(), FaultCause>
        ensures ok { OnOk result (with_call (so_far self.old) (Some call) ≡ Ok (so_far self.new)) }
        ensures fault { IfErr result (λ cause. (cause ≡ NoMemory)
            ⊎ (with_call (so_far self.old) (Some call) ≡ Err cause)) }
    {
        if self.settings.window().is_none() || self.settings.replicas().is_none() {
            return Err(FaultCause::Place);
        }
        match self.calls.push(call) {
            Ok(()) => Ok(()),
            Err(_) => Err(FaultCause::NoMemory),
        }
    }
}

impl<A: Allocator + Copy> LineReader<A> for Reading<A> {
    ghost use Rattle.std.proofs.Common.{ap};
    ghost use Rattle.script.proofs.LineLemmas.{says-too_long};
    ghost use Rattle.script.specs.Line.{fields_say};
    ghost use Rattle.script.specs.Script.{said_behind, word_of};
    ghost use Rattle.script.specs.Text.{max_line};
    ghost use Rattle.script_run.specs.Calls.{Said, after_line, at_end as at_end_of, nothing_said, with_line};
    ghost use Rattle.script_run.specs.Reading.{IsWithinLimits, said_by, so_far};

    type Whole = CallScript<A>;

    ghost Meaning = { Said };

    ghost nothing_read = { nothing_said };

    ghost read_so_far = { so_far };

    ghost with_next = { with_line };

    ghost WholeMeaning = { Said };

    ghost meant_by = { said_by };

    ghost at_end = { at_end_of };

    ghost IsWithin = { IsWithinLimits };

    ghost too_long = { λ said line long.
        ap (after_line said) (says-too_long (fields_say word_of said_behind) max_line line long) };

    fn new(alloc: A) -> Result<Reading<A>, AllocError> {
        Ok(Reading {
            settings: Settings::new(alloc)?,
            calls: Vec::new(alloc),
        })
    }

    fn take_line(&mut self, alloc: A, line: &[u8]) -> Result<(), FaultCause> {
        match statement(alloc, line)? {
            None => Ok(()),
            Some(Statement::Setting(setting)) => self.set(setting),
            Some(Statement::Action(action)) => self.begin(action),
        }
    }

    // Window and replicas have to be set.
    fn into_whole(self) -> Result<CallScript<A>, ScriptFault> {
        let Reading { settings, calls } = self;
        let (Some(window), Some(replicas)) = (settings.window(), settings.replicas()) else {
            return Err(ScriptFault {
                line: 0,
                cause: FaultCause::Place,
            });
        };
        Ok(CallScript {
            window,
            replicas,
            catalogue: settings.into_catalogue(),
            calls,
        })
    }
}
