//! The actions of lines.

ghost use Rattle.std.specs.Prelude.{◌≡◌};
ghost use Rattle.byte_output.specs.Pending.{output_of};
ghost use Rattle.dsm_world.specs.System.{setting_of, world_of};
ghost use Rattle.script.specs.Script.{IsActionWithinLimits};
ghost use Rattle.script_replay.specs.Acting.{HasDone};

use crate::answers::{begin, deliver, exec, take_step, turn};
use crate::log::{put_entry, put_log};
use crate::rows::put_rows;
use byte_output::paged::PagedOutput;
use dsm_world::{Step, World};
use log_model::RequestId;
use row_sets::Bytes;
use script::Action;
use std::alloc::Allocator;
use std::io;
use std::io::Write;

/// Does an action to a world, and gives what it prints to the output. What is printed takes no memory. An error is the
/// output's, and then a beginning of the print was given.
pub fn act<A: Allocator + Copy, W: Write>(
    world: &mut World<A>,
    output: &mut PagedOutput<'_, W>,
    action: &Action<Bytes<A>>,
) -> io::Result<()>
    // The limits are those of a line's action.
    requires { IsActionWithinLimits action.now }
    ensures same_output { (output_of output.new).ghost_name ≡ (output_of output.old).ghost_name }
    ensures setting { setting_of world.new ≡ setting_of world.old }
    ensures done { HasDone W.contents (setting_of world.old) (world_of world.old) action.now
        output.old output.new result (world_of world.new) }
{
    match action {
        Action::Begin {
            replica,
            name,
            args,
        } => {
            let (name, args) = (name.as_slice(), args.as_slice());
            begin(world, output, *replica, name, args, None)
        }
        Action::BeginNumbered {
            replica,
            name,
            args,
            session,
            sequence,
        } => {
            let request = Some(request_of(*session, *sequence));
            let (name, args) = (name.as_slice(), args.as_slice());
            begin(world, output, *replica, name, args, request)
        }
        Action::Add(procedure) => {
            let add = Step::Add {
                name: procedure.name.as_slice(),
                number: procedure.number,
                args_len: procedure.args_len,
                bytes: procedure.program.as_slice(),
            };
            take_step(world, output, add)
        }
        Action::Turn { call, most } => turn(world, output, *call, *most),
        Action::Exec { call } => exec(world, output, *call),
        Action::Order { call } => take_step(world, output, Step::Order { call: *call }),
        Action::Deliver { replica, most } => deliver(world, output, *replica, *most),
        Action::Rows { replica } => put_rows(world, output, *replica),
        Action::Log => put_log(world, output),
        Action::Entry { position } => put_entry(world, output, *position),
        Action::Rebuild { replica } => take_step(
            world,
            output,
            Step::Rebuild { replica: *replica },
        ),
    }
}

fn request_of(session: u32, sequence: u32) -> RequestId
    ensures { result ≡ record { session = session; sequence = sequence } }
{
    RequestId { session, sequence }
}
