//! The gate that an executing thread passes before it reads or writes rows.

use std::sync::Wait;

/// The gate of an executing thread. The thread calls the gate before each helper that reads or writes rows, holding no
/// lock. The gate may wait.
pub trait Gate {
    /// Is called where a call of this procedure is at such a helper.
    fn at_look<R: Wait>(&self, rt: &R, procedure: u16);
}

/// A gate that is always open.
#[derive(Clone, Copy, Debug, Drop)]
pub struct OpenGate;

impl Gate for OpenGate {
    fn at_look<R: Wait>(&self, _rt: &R, _procedure: u16) {}
}
