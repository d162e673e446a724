//! A session of a caller: it calls at any replica of a node, and never sees less of the log than it has seen before.
#![tactic(auto)]

pub use session::Session;

mod session;
