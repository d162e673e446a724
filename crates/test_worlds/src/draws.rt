//! The numbers, words and arguments that are drawn.

use crate::procedures::{procedures, program_of};
use dsm_world::Step;
use log_model::RequestId;
use rand_core::utils::NextWord;
use rand_pcg::Pcg32;
use std::alloc::Global;

/// The greatest number that is drawn for an addition, or for the digits of its name. The least is 1.
pub(crate) const NUMBERS: u32 = 60;

/// A number below the end.
pub(crate) fn draw(generator: &mut Pcg32, end: u32) -> u32 {
    generator.next_word().checked_rem(end).unwrap_or(0)
}

/// The number of a procedure of the catalogue.
pub(crate) fn draw_listed(generator: &mut Pcg32) -> u16 {
    let procedures = procedures();
    let place = draw(generator, procedures.len() as u32) as usize;
    procedures.get(place).map_or(0, |procedure| procedure.0)
}

/// A number that the catalogue may have or not.
pub(crate) fn draw_number(generator: &mut Pcg32) -> u16 {
    let number = draw(generator, NUMBERS).wrapping_add(1);
    u16::try_from(number).unwrap_or(0)
}

/// A word from 1 to 12; every other one is of the first three, which more calls share.
pub(crate) fn draw_word(generator: &mut Pcg32) -> u64 {
    let end = if draw(generator, 2) == 0 { 3 } else { 12 };
    u64::from(draw(generator, end)).wrapping_add(1)
}

/// Arguments for the procedure of a number, at times a word too many. The answer is none where memory is wanting.
pub(crate) fn draw_args(alloc: Global, generator: &mut Pcg32, number: u16) -> Option<Vec<u8>> {
    let (words, _program) = program_of(number);
    let more = if draw(generator, 32) == 0 { 1 } else { 0 };
    let mut args = Vec::new(alloc);
    for _ in 0..words.wrapping_add(more) {
        let word = draw_word(generator);
        args.extend_from_slice(&word.to_le_bytes()).ok()?;
    }
    Some(args)
}

/// The request of a number from 1 on; all requests are of few sessions.
pub(crate) fn request_of(number: u32) -> RequestId {
    RequestId {
        session: 1 + number % 4,
        sequence: 1 + number / 4,
    }
}

/// The beginning of a call, with a request or without one.
pub(crate) fn begin_step(
    replica: u32,
    procedure: u16,
    args: &[u8],
    request: Option<RequestId>,
) -> Step<'_> {
    match request {
        None => Step::Begin {
            replica,
            procedure,
            args,
        },
        Some(it) => Step::BeginNumbered {
            replica,
            procedure,
            args,
            session: it.session,
            sequence: it.sequence,
        },
    }
}
