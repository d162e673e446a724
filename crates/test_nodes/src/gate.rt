//! A gate that holds the first call of procedure 1 at its first look.

use node_calls::Gate;
use std::alloc::Global;
use std::sync::atomic::AtomicU32;
use std::sync::atomic::Ordering::SeqCst;
use std::sync::{Arc, Wait};
use std::thread;

/// The state in which nobody is held.
const OPEN: u32 = 0;
/// The state in which the next call of procedure 1 is to be held.
const ARMED: u32 = 1;
/// The state in which a call is held.
const HELD: u32 = 2;
/// The state in which the call is let go.
const RELEASED: u32 = 3;

/// The number of times that a loop yields before it gives up.
const TURNS: u32 = 1_000_000;

/// The state of the gate. The holder of it hears of a held call, and lets the call go.
#[derive(Drop)]
pub struct Hold {
    state: AtomicU32,
}

impl Hold {
    fn new(armed: bool) -> Hold {
        Hold {
            state: AtomicU32::new(if armed { ARMED } else { OPEN }),
        }
    }

    /// Waits until a call is held, as long as a loop goes.
    pub(crate) fn await_held(&self) {
        for _ in 0..TURNS {
            if self.state.load(SeqCst) != ARMED {
                break;
            }
            thread::yield_now();
        }
    }

    /// Lets the call go.
    pub(crate) fn release(&self) {
        self.state.store(RELEASED, SeqCst);
    }

    /// Holds a call until it is let go, as long as a loop goes.
    fn hold(&self) {
        if self
            .state
            .compare_exchange(ARMED, HELD, SeqCst, SeqCst)
            .is_err()
        {
            return;
        }
        for _ in 0..TURNS {
            if self.state.load(SeqCst) == RELEASED {
                break;
            }
            thread::yield_now();
        }
    }
}

/// The gate of a node under test.
#[derive(Drop)]
pub struct HoldingGate {
    hold: Arc<Hold>,
}

/// Makes a gate that holds a call where it is armed, and the gate's state. Returns `None` where memory is wanting.
pub fn gate_of(alloc: Global, armed: bool) -> Option<(HoldingGate, Arc<Hold>)> {
    let hold = Arc::new(alloc, Hold::new(armed)).ok()?;
    let gate = HoldingGate {
        hold: Arc::try_clone(&hold).ok()?,
    };
    Some((gate, hold))
}

impl Gate for HoldingGate {
    fn at_look<R: Wait>(&self, _rt: &R, procedure: u16) {
        if procedure == 1 {
            self.hold.hold();
        }
    }
}
