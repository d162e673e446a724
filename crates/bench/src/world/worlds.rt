//! Worlds whose one procedure adds to the row at a key, and what comes of their calls.

ghost use Rattle.std.specs.Prelude.{◌≤◌};
ghost use Rattle.schema.specs.declared.limits.TheConstants.{MAX_REPLICAS};

use bpf_bytes::decode;
use bpf_verify::verify;
use catalogue::Catalogue;
use dsm_model::Outcome;
use dsm_world::{Step, World};
use log_model::Verdict;
use schema::Schema;
use std::alloc::Global;
use test_programs::{ADD, TABLES, bytes_of};

fn catalogue_of(alloc: Global) -> Option<Catalogue> {
    let code = decode(alloc, &bytes_of(alloc, ADD)?).ok()?;
    let schema = Schema::new(alloc, &TABLES).ok()?;
    let accepted = verify(alloc, code, &schema, 16).ok()?;
    let mut catalogue = Catalogue::new(alloc, schema);
    catalogue.add(b"add", 1, accepted).ok()?;
    Some(catalogue)
}

/// Makes a world of `replicas` replicas, each with a window of 4,096.
pub(crate) fn new_world(alloc: Global, replicas: u32) -> Option<World>
    requires least { 1 ≤ replicas }
    requires most { replicas ≤ MAX_REPLICAS }
{
    World::new(alloc, replicas, 4_096, catalogue_of(alloc)?).ok()
}

/// Tells whether a call at replica 1 commits, which is begun, run to its end, ordered and delivered there.
fn is_committed(world: &mut World, args: &[u8]) -> bool {
    let begin = Step::Begin {
        replica: 1,
        procedure: 1,
        args,
    };
    let Outcome::Begun { call, .. } = world.step(begin) else {
        return false;
    };
    let _ = world.exec(call);
    let _ = world.step(Step::Order { call });
    let delivered = world.step(Step::Deliver { replica: 1 });
    commits(&[delivered]) == 1
}

/// Makes the calls with these arguments one after another, and returns the number that commit.
pub(crate) fn commits_of_calls(world: &mut World, arguments: &[[u8; 16]]) -> u32 {
    let mut commits = 0u32;
    for args in arguments {
        if is_committed(world, args) {
            commits = commits.wrapping_add(1);
        }
    }
    commits
}

/// Counts the deliveries that found their call committed.
pub(crate) fn commits(outcomes: &[Outcome]) -> u32 {
    let mut commits = 0u32;
    for outcome in outcomes {
        if let Outcome::Delivered {
            verdict: Verdict::Commit,
            ..
        } = outcome
        {
            commits = commits.wrapping_add(1);
        }
    }
    commits
}
