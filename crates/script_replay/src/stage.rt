//! The stage of a script.

use dsm_world::World;
use script::Settings;
use std::alloc::Allocator;

/// The stage of a script.
#[derive(Drop)]
pub enum Stage<A: Allocator + Copy> {
    /// The script sets things.
    SettingUp(Settings<A>),
    /// The script's world acts.
    Acting(World<A>),
}
