//! The looks of a thread that waits for another, before it sleeps.

use std::hint::spin_loop;
use std::thread;

/// The number of times that a waiting thread looks before it sleeps. A sleep and its end cost more than a whole call.
pub const LOOKS: u32 = 100;

/// The number of looks after which a thread lets others run between two looks.
pub const SPINS: u32 = 20;

/// Pauses behind a look, by its number from 0 on: on the processor at first, later by letting other threads run.
pub fn pause(look: u32) {
    if look < SPINS {
        spin_loop();
    } else {
        thread::yield_now();
    }
}
