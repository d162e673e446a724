//! Bytes in hex.

ghost use Rattle.std.specs.Prelude.{◌≡◌, ◌⊎◌, Some, None, MatchResult};
ghost use Rattle.script.specs.Text.{bytes_of_hex};
ghost use Rattle.script.specs.declared.fault.LineFault.TheVariants.{NoMemory, Field};

use crate::fault::LineFault;
use hex::FromHexError;
use row_sets::Bytes;
use std::alloc::Allocator;

/// The bytes that a field gives in hex, or none where it is `-`.
#[tactic(auto, unfolding(crate::specs::Text::bytes_of_hex))]
pub fn read_hex<A: Allocator>(alloc: A, field: &str) -> Result<Bytes<A>, LineFault>
    ensures { MatchResult result (λ bytes. bytes_of_hex field.now ≡ Some bytes)
        (λ fault. (fault ≡ NoMemory) ⊎ ((fault ≡ Field) × (bytes_of_hex field.now ≡ None))) }
{
    if field == "-" {
        return Ok(Bytes::new(Vec::new(alloc)));
    }
    if field.is_empty() {
        return Err(LineFault::Field);
    }
    match hex::decode(alloc, field) {
        Ok(bytes) => Ok(Bytes::new(bytes)),
        Err(FromHexError::OutOfMemory) => Err(LineFault::NoMemory),
        Err(_) => Err(LineFault::Field),
    }
}
