//! The reading of what a line says.

ghost use Rattle.std.specs.Prelude.{◌≡◌, ◌⊎◌, Ok, Err, IfOk, IfErr, IfSome};
ghost use Rattle.script.specs.Script.{numbered_said, line_says};
ghost use Rattle.script.specs.Script.{IsActionWithinLimits, IsWithinLimits};
ghost use Rattle.script.specs.declared.fault.LineFault.TheVariants.{NoMemory};

use crate::fault::LineFault;
use crate::fields::read_name;
use crate::hex_field::read_hex;
use crate::input::MAX_LINE;
use crate::meaning::{LineMeaning, LineResult, read_line};
use crate::number::{
    read_count, read_replicas, read_u8, read_u16, read_u32, read_u64, read_window,
};
use crate::procedure_fields::read_procedure;
use crate::request_fields::read_request;
use crate::statements::{Action, Setting, Statement};
use crate::word::{ActionWord, SettingWord, Word};
use row_sets::Bytes;
use std::alloc::Allocator;

impl<A: Allocator + Copy> LineMeaning<A, Word> for Statement<Bytes<A>> {
    ghost use Rattle.script.specs.Script.{IsWithinLimits, said_behind as said};

    ghost said_behind = { said };

    ghost IsWithin = { IsWithinLimits };

    fn read_behind(alloc: A, word: Word, fields: &[&str]) -> Result<Self, LineFault> {
        match word {
            Word::Setting(word) => {
                let setting = Setting::read_behind(alloc, word, fields)?;
                Ok(Statement::Setting(setting))
            }
            Word::Action(word) => {
                let action = Action::read_behind(alloc, word, fields)?;
                Ok(Statement::Action(action))
            }
        }
    }
}

impl<A: Allocator + Copy> LineMeaning<A, SettingWord> for Setting<Bytes<A>> {
    ghost use Rattle.script.specs.Script.{IsSettingWithinLimits, setting_said};

    ghost said_behind = { setting_said };

    ghost IsWithin = { IsSettingWithinLimits };

    #[tactic(auto, unfolding(crate::specs::Script::setting_said))]
    fn read_behind(alloc: A, word: SettingWord, fields: &[&str]) -> Result<Self, LineFault> {
        match (word, fields) {
            (SettingWord::Window, [window]) => Ok(Setting::Window(read_window(window)?)),
            (SettingWord::Replicas, [replicas]) => Ok(Setting::Replicas(read_replicas(replicas)?)),
            (SettingWord::Table, [table, width]) => Ok(Setting::Table {
                table: read_u8(table)?,
                width: read_u16(width)?,
            }),
            (SettingWord::Proc, [name, number, args_len, program]) => {
                let procedure = read_procedure(alloc, name, number, args_len, program)?;
                Ok(Setting::Procedure(procedure))
            }
            (SettingWord::Row, [table, key, row]) => Ok(Setting::Row {
                table: read_u8(table)?,
                key: read_u64(key)?,
                row: read_hex(alloc, row)?,
            }),
            (SettingWord::Request, [session, sequence, reply, procedure, args]) => {
                let request = read_request(alloc, session, sequence, reply, procedure, args)?;
                Ok(Setting::Request(request))
            }
            (SettingWord::Origin, [strings, sessions]) => Ok(Setting::Origin {
                strings: read_u64(strings)?,
                sessions: read_u32(sessions)?,
            }),
            _ => Err(LineFault::FieldCount),
        }
    }
}

impl<A: Allocator + Copy> LineMeaning<A, ActionWord> for Action<Bytes<A>> {
    ghost use Rattle.script.specs.Script.{IsActionWithinLimits, action_said};

    ghost said_behind = { action_said };

    ghost IsWithin = { IsActionWithinLimits };

    #[tactic(auto, using(crate::proofs::SayingLemmas::begin_of_four), unfolding(crate::specs::Script::action_said))]
    fn read_behind(alloc: A, word: ActionWord, fields: &[&str]) -> Result<Self, LineFault> {
        match (word, fields) {
            (ActionWord::Begin, [replica, name, args]) => Ok(Action::Begin {
                replica: read_u32(replica)?,
                name: read_name(alloc, name)?,
                args: read_hex(alloc, args)?,
            }),
            (ActionWord::Begin, [replica, name, args, session, sequence]) => {
                read_numbered(alloc, replica, name, args, session, sequence)
            }
            (ActionWord::Add, [name, number, args_len, program]) => {
                let procedure = read_procedure(alloc, name, number, args_len, program)?;
                Ok(Action::Add(procedure))
            }
            (ActionWord::Turn, [call, most]) => Ok(Action::Turn {
                call: read_u32(call)?,
                most: read_count(most)?,
            }),
            (ActionWord::Exec, [call]) => Ok(Action::Exec {
                call: read_u32(call)?,
            }),
            (ActionWord::Order, [call]) => Ok(Action::Order {
                call: read_u32(call)?,
            }),
            (ActionWord::Deliver, [replica, most]) => Ok(Action::Deliver {
                replica: read_u32(replica)?,
                most: read_count(most)?,
            }),
            (ActionWord::Rebuild, [replica]) => Ok(Action::Rebuild {
                replica: read_u32(replica)?,
            }),
            (ActionWord::Rows, [replica]) => Ok(Action::Rows {
                replica: read_u32(replica)?,
            }),
            (ActionWord::Log, []) => Ok(Action::Log),
            (ActionWord::Entry, [position]) => Ok(Action::Entry {
                position: read_u32(position)?,
            }),
            _ => Err(LineFault::FieldCount),
        }
    }
}

/// Reads the fields of a call that carries a request.
fn read_numbered<A: Allocator + Copy>(
    alloc: A,
    replica: &str,
    name: &str,
    args: &str,
    session: &str,
    sequence: &str,
) -> Result<Action<Bytes<A>>, LineFault>
    ensures exact { IfOk result (λ action.
        numbered_said replica.now name.now args.now session.now sequence.now ≡ Ok action) }
    ensures fault { IfErr result (λ fault. (fault ≡ NoMemory)
        ⊎ (numbered_said replica.now name.now args.now session.now sequence.now ≡ Err fault)) }
    ensures limits { IfOk result IsActionWithinLimits }
{
    Ok(Action::BeginNumbered {
        replica: read_u32(replica)?,
        name: read_name(alloc, name)?,
        args: read_hex(alloc, args)?,
        session: read_count(session)?,
        sequence: read_count(sequence)?,
    })
}

/// Reads what a line, given without its LF, says: a statement, or nothing where it is empty or a comment.
pub fn statement<A: Allocator + Copy>(alloc: A, line: &[u8]) -> LineResult<Statement<Bytes<A>>>
    ensures exact { IfOk result (λ statement. line_says line.now ≡ Ok statement) }
    // The fault is the first of several, or memory is wanting.
    ensures fault { IfErr result (λ fault. (fault ≡ NoMemory) ⊎ (line_says line.now ≡ Err fault)) }
    ensures limits { IfOk result (λ statement. IfSome statement IsWithinLimits) }
{
    read_line::<A, Word, Statement<Bytes<A>>>(alloc, line, MAX_LINE)
}
