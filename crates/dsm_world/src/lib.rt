//! A world of replicas in one thread, whose every step is proved to be that step of the definitions of the world: a
//! call begins, runs on, is ordered; a procedure is added; an entry is delivered; a replica is made anew.
#![tactic(auto)]

pub use calls::{Calls, Spare};
pub use rows::ListedRows;
pub use step::Step;
pub use world::World;

mod add;
mod begin;
mod calls;
mod deliver;
mod numbers;
mod order;
mod rebuild;
mod rows;
mod step;
mod turn;
mod world;
