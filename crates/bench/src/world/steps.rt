//! Steps of calls that are begun, run to their end, ordered, and delivered to both replicas, one after another.

use dsm_world::Step;
use std::alloc::{AllocError, Global};

/// The number of steps that a call takes: its begin, a turn an instruction, its order, and two deliveries.
const STEPS_OF_A_CALL: u32 = 21;

/// The number of instructions that a call runs.
const TURNS: u32 = 17;

/// The arguments of a call: a key, spread over `keys` keys, and 1.
fn argument_of(number: u32, keys: u64) -> [u8; 16] {
    let key = u64::from(number).wrapping_mul(2_654_435_761);
    let mut bytes = [0; 16];
    let words = key.checked_rem(keys).unwrap_or(0).to_le_bytes();
    for (byte, from) in bytes.iter_mut().zip(&words) {
        *byte = *from;
    }
    bytes[8] = 1;
    bytes
}

/// Returns the number of calls that take `steps` steps.
pub(crate) fn calls_of(steps: u32) -> u32 {
    steps.div_ceil(STEPS_OF_A_CALL)
}

/// The arguments of `calls` calls.
pub(crate) fn arguments_of(
    alloc: Global,
    keys: u64,
    calls: u32,
) -> Result<Vec<[u8; 16]>, AllocError> {
    let mut arguments = Vec::new(alloc);
    for number in 0..calls {
        arguments.push(argument_of(number, keys))?;
    }
    Ok(arguments)
}

/// Adds the steps of a call, which begins at replica 1 or 2 in turn.
fn add_call<'a>(steps: &mut Vec<Step<'a>>, call: u32, args: &'a [u8]) -> Result<(), AllocError> {
    steps.push(Step::Begin {
        replica: call % 2 + 1,
        procedure: 1,
        args,
    })?;
    for _ in 0..TURNS {
        steps.push(Step::Turn { call })?;
    }
    steps.push(Step::Order { call })?;
    for replica in [1, 2] {
        steps.push(Step::Deliver { replica })?;
    }
    Ok(())
}

/// Makes `count` steps: those of the calls, the last of which may stay open.
pub(crate) fn steps_of<'a>(
    alloc: Global,
    arguments: &'a [[u8; 16]],
    count: u32,
) -> Result<Vec<Step<'a>>, AllocError> {
    let mut steps = Vec::new(alloc);
    let mut call = 0u32;
    for args in arguments {
        call = call.wrapping_add(1);
        add_call(&mut steps, call, args)?;
    }
    steps.truncate(count as usize);
    Ok(steps)
}
