//! The lines of a script, as they are done.

ghost use Rattle.std.specs.Prelude.{◌≡◌, Some, Ok, IfOk, IfErr};
ghost use Rattle.byte_output.specs.Pending.{output_of};
ghost use Rattle.script_replay.specs.Actions.{setting_of, world_of};
ghost use Rattle.script.specs.declared.statements.Statement.TheVariants as statement;
ghost use Rattle.script.specs.Script.{IsSettingWithinLimits, IsActionWithinLimits, IsWithinLimits};
ghost use Rattle.script.specs.Script.{ScriptAction, line_says};
ghost use Rattle.script_replay.specs.Stage.{Goes, Acts, first_effect, effect_of};
ghost use Rattle.script_replay.specs.Doing.{stage_of, IsFaultOf, GivesEffect, StopsBy};

use crate::actions::act;
use crate::stage::Stage;
use byte_output::paged::PagedOutput;
use dsm_world::World;
use row_sets::Bytes;
use script::{
    Action, FaultCause, Setting, Settings, Statement, Stop, fault_at, out_of_memory, statement,
};
use std::alloc::Allocator;
use std::io::Write;

/// Does what a line says, and returns the stage behind it.
pub(crate) fn do_line<A: Allocator + Copy, W: Write>(
    alloc: A,
    stage: Stage<A>,
    output: &mut PagedOutput<'_, W>,
    line: &[u8],
    number: u64,
) -> Result<Stage<A>, Stop>
    ensures same_output { (output_of output.new).ghost_name ≡ (output_of output.old).ghost_name }
    ensures done { GivesEffect W.contents number (effect_of (stage_of stage) (line_says line.now))
        output.old output.new result }
    ensures stopped { IfErr result (StopsBy W.contents number output.old output.new) }
{
    match statement(alloc, line) {
        Ok(None) => Ok(stage),
        Ok(Some(statement)) => do_statement(alloc, stage, output, statement, number),
        Err(fault) => Err(fault_at(number, FaultCause::from(fault))),
    }
}

/// Does a statement: sets something, or acts.
fn do_statement<A: Allocator + Copy, W: Write>(
    alloc: A,
    stage: Stage<A>,
    output: &mut PagedOutput<'_, W>,
    statement: Statement<Bytes<A>>,
    number: u64,
) -> Result<Stage<A>, Stop>
    requires { IsWithinLimits statement }
    ensures same_output { (output_of output.new).ghost_name ≡ (output_of output.old).ghost_name }
    ensures done { GivesEffect W.contents number (effect_of (stage_of stage) (Ok (Some statement)))
        output.old output.new result }
    ensures stopped { IfErr result (StopsBy W.contents number output.old output.new) }
{
    match statement {
        Statement::Setting(setting) => set(stage, setting, number),
        Statement::Action(action) => {
            let world = acting(alloc, stage, number)?;
            act_on(world, output, &action, number)
        }
    }
}

/// Sets something, before a world acts.
fn set<A: Allocator + Copy>(
    stage: Stage<A>,
    setting: Setting<Bytes<A>>,
    number: u64,
) -> Result<Stage<A>, Stop>
    requires { IsSettingWithinLimits setting }
    ensures ok { IfOk result (λ next.
        effect_of (stage_of stage) (Ok (Some (statement.Setting setting))) ≡ Goes (stage_of next)) }
    ensures fault { IfErr result
        (IsFaultOf number (effect_of (stage_of stage) (Ok (Some (statement.Setting setting))))) }
{
    match stage {
        Stage::SettingUp(settings) => {
            let mut settings = settings;
            match settings.set(setting) {
                Ok(()) => Ok(Stage::SettingUp(settings)),
                Err(cause) => Err(fault_at(number, cause)),
            }
        }
        Stage::Acting(_) => Err(fault_at(number, FaultCause::Place)),
    }
}

/// Returns the world that acts. The first action's world is the one that was set up.
fn acting<A: Allocator + Copy>(alloc: A, stage: Stage<A>, number: u64) -> Result<World<A>, Stop>
    ensures ok { IfOk result (λ world. (action : ScriptAction)
        → effect_of (stage_of stage) (Ok (Some (statement.Action action)))
        ≡ Acts (setting_of world) (world_of world) action) }
    ensures fault { IfErr result (λ stop. (action : ScriptAction)
        → IsFaultOf number (effect_of (stage_of stage) (Ok (Some (statement.Action action)))) stop) }
{
    match stage {
        Stage::SettingUp(settings) => set_up(alloc, settings, number),
        Stage::Acting(world) => Ok(world),
    }
}

/// Returns the world that was set up. Its window and its replicas have to be set.
fn set_up<A: Allocator + Copy>(
    alloc: A,
    settings: Settings<A>,
    number: u64,
) -> Result<World<A>, Stop>
    ensures ok { IfOk result (λ world. (action : ScriptAction)
        → first_effect settings settings.window settings.replicas action
        ≡ Acts (setting_of world) (world_of world) action) }
    ensures fault { IfErr result (λ stop. (action : ScriptAction)
        → IsFaultOf number (first_effect settings settings.window settings.replicas action) stop) }
{
    let Some(window) = settings.window() else {
        return Err(fault_at(number, FaultCause::Place));
    };
    let Some(replicas) = settings.replicas() else {
        return Err(fault_at(number, FaultCause::Place));
    };
    match World::new(alloc, replicas, window, settings.into_catalogue()) {
        Ok(world) => Ok(world),
        Err(_) => Err(out_of_memory(number)),
    }
}

/// Does an action of a world.
fn act_on<A: Allocator + Copy, W: Write>(
    world: World<A>,
    output: &mut PagedOutput<'_, W>,
    action: &Action<Bytes<A>>,
    number: u64,
) -> Result<Stage<A>, Stop>
    requires { IsActionWithinLimits action.now }
    ensures same_output { (output_of output.new).ghost_name ≡ (output_of output.old).ghost_name }
    ensures done { GivesEffect W.contents number (Acts (setting_of world) (world_of world) action.now)
        output.old output.new result }
    ensures stopped { IfErr result (StopsBy W.contents number output.old output.new) }
{
    let mut world = world;
    match act(&mut world, output, action) {
        Ok(()) => Ok(Stage::Acting(world)),
        Err(error) => Err(Stop::Output(error)),
    }
}
