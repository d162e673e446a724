//! Replicas for which there is no memory.

mod queue;
mod refused;
mod refused_growths;
mod states;
