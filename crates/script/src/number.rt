//! Numbers, each within its limits.

ghost use Rattle.std.specs.Prelude.{◌≡◌, ◌^◌, ◌<◌, ◌≤◌, IfOk, IfSome, ok_or};
ghost use Rattle.schema.specs.declared.limits.TheConstants.{MAX_ARGUMENTS, MAX_REPLICAS, MAX_WINDOW};
ghost use Rattle.script.specs.Text.{number_of, u8_of, u16_of, u32_of, u64_of, count_of};
ghost use Rattle.script.specs.declared.fault.LineFault.TheVariants.{Field};

use crate::fault::LineFault;
use itoa::Buffer;
use schema::{MAX_ARGUMENTS, MAX_REPLICAS, MAX_WINDOW};

/// The number that a field gives in decimal, where it is from `least` to `most`.
fn read_number(field: &str, least: u64, most: u64) -> Option<u64>
    ensures number { result ≡ number_of least most field.now }
    ensures limits { IfSome result (λ number. (least ≤ number) × (number ≤ most)) }
{
    let number: u64 = field.parse().ok()?;
    let mut digits = Buffer::new();
    if digits.format(number) == field && least <= number && number <= most {
        Some(number)
    } else {
        None
    }
}

/// Reads a number of 8 bits.
pub fn read_u8(field: &str) -> Result<u8, LineFault>
    ensures { result ≡ ok_or (u8_of field.now) Field }
{
    let number = read_number(field, 0, u64::from(u8::MAX)).ok_or(LineFault::Field)?;
    Ok(number as u8)
}

/// Reads a number of 16 bits.
pub fn read_u16(field: &str) -> Result<u16, LineFault>
    ensures { result ≡ ok_or (u16_of field.now) Field }
{
    let number = read_number(field, 0, u64::from(u16::MAX)).ok_or(LineFault::Field)?;
    Ok(number as u16)
}

/// Reads a number of 32 bits.
pub fn read_u32(field: &str) -> Result<u32, LineFault>
    ensures { result ≡ ok_or (u32_of field.now) Field }
{
    let number = read_number(field, 0, u64::from(u32::MAX)).ok_or(LineFault::Field)?;
    Ok(number as u32)
}

/// Reads a number of 64 bits.
pub fn read_u64(field: &str) -> Result<u64, LineFault>
    ensures { result ≡ ok_or (u64_of field.now) Field }
{
    read_number(field, 0, u64::MAX).ok_or(LineFault::Field)
}

/// Reads a number of 32 bits that isn't 0.
pub fn read_count(field: &str) -> Result<u32, LineFault>
    ensures count { result ≡ ok_or (count_of field.now) Field }
    ensures limits { IfOk result (λ count. 1 ≤ count) }
{
    let count = read_number(field, 1, u64::from(u32::MAX)).ok_or(LineFault::Field)?;
    Ok(count as u32)
}

pub(crate) fn read_window(field: &str) -> Result<u32, LineFault>
    ensures window { result ≡ ok_or (number_of 1 MAX_WINDOW field.now) Field }
    ensures limits { IfOk result (λ window. (1 ≤ window) × (window ≤ MAX_WINDOW)) }
{
    let window = read_number(field, 1, u64::from(MAX_WINDOW)).ok_or(LineFault::Field)?;
    Ok(window as u32)
}

/// Reads a number of replicas.
pub(crate) fn read_replicas(field: &str) -> Result<u32, LineFault>
    ensures replicas { result ≡ ok_or (number_of 1 MAX_REPLICAS field.now) Field }
    ensures limits { IfOk result (λ replicas. (1 ≤ replicas) × (replicas ≤ MAX_REPLICAS)) }
{
    let replicas = read_number(field, 1, u64::from(MAX_REPLICAS)).ok_or(LineFault::Field)?;
    Ok(replicas as u32)
}

/// Reads the length of a procedure's arguments.
pub fn read_args_len(field: &str) -> Result<u16, LineFault>
    ensures args_len { result ≡ ok_or (number_of 0 MAX_ARGUMENTS field.now) Field }
    ensures limits { IfOk result (λ args_len. args_len ≤ MAX_ARGUMENTS) }
{
    let args_len = read_number(field, 0, u64::from(MAX_ARGUMENTS)).ok_or(LineFault::Field)?;
    Ok(args_len as u16)
}
