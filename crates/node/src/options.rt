//! The options of a node.

ghost use Rattle.std.specs.Prelude.{◌≤◌, ◌↔◌, IsTrue, OnOk, IfErr};
ghost use Rattle.node.specs.Options.{AreInBounds, IsOptionsFault, IsFromOneTo};

use schema::{MAX_EXECUTORS, MAX_LOG, MAX_REPLICAS, MAX_WINDOW};

/// A cause for which a node doesn't start.
#[derive(Clone, Copy, Debug, PartialEq, Eq, Drop)]
pub enum StartFault {
    /// The number of replicas isn't 1 to 8.
    Replicas,
    /// The number of executing threads a replica isn't 1 to 16.
    Executors,
    /// The window isn't 1 to 4,096.
    Window,
    NoMemory,
    /// A thread wasn't started; those that were have ended.
    NoThread,
    /// The log isn't for 1 to 1,048,576 entries.
    Limit,
}

/// The options of a node: its size, and the window. `Options::default()` is a small node.
#[derive(Clone, Copy, Debug, PartialEq, Eq, Drop)]
pub struct Options {
    /// The number of replicas: 1 to 8.
    pub replicas: u32,
    /// The number of executing threads a replica: 1 to 16.
    pub executors: u32,
    /// The number of later entries for which a call's snapshot is kept: 1 to 4,096.
    pub window: u32,
    /// The most entries of the log: 1 to 1,048,576.
    pub limit: u32,
}

/// Tells whether a number is from 1 to a limit.
fn is_from_one_to(limit: u32, number: u32) -> bool
    ensures { IsTrue result ↔ IsFromOneTo limit number }
{
    1 <= number && number <= limit
}

impl Options {
    /// Checks whether a node may be started with these options. Returns the first cause where it may not.
    pub fn check(&self) -> Result<(), StartFault>
        ensures bounds { OnOk result (AreInBounds self.now) }
        ensures fault { IfErr result (IsOptionsFault self.now) }
    {
        if !is_from_one_to(MAX_REPLICAS, self.replicas) {
            return Err(StartFault::Replicas);
        }
        if !is_from_one_to(MAX_EXECUTORS, self.executors) {
            return Err(StartFault::Executors);
        }
        if !is_from_one_to(MAX_WINDOW, self.window) {
            return Err(StartFault::Window);
        }
        if !is_from_one_to(MAX_LOG, self.limit) {
            return Err(StartFault::Limit);
        }
        Ok(())
    }
}

impl Default for Options {
    ghost use Rattle.std.specs.Prelude.{◌≡◌};
    ghost use Rattle.schema.specs.declared.limits.TheConstants.{MAX_LOG};

    ghost is_default = { λ o. o ≡ record { replicas = 3; executors = 2; window = 256; limit = MAX_LOG } };

    /// Three replicas with two executing threads each, a window of 256 entries, and the longest log.
    fn default() -> Options {
        Options {
            replicas: 3,
            executors: 2,
            window: 256,
            limit: MAX_LOG,
        }
    }
}
