//! Numbers and tables as the words of a command line give them.

ghost use Rattle.std.specs.Prelude.{◌≡◌, ◌==◌, ◌≤◌, slice_index, Some, IfSome};
ghost use Rattle.program_commands.specs.Number.{has_leading_zero, within, number_in, table_word};

use schema::{MAX_TABLE, MAX_WIDTH};

/// The number that a word gives in decimal digits, without sign and without leading zero, where it
/// is from `lo` to `hi`.
pub fn number_in(text: &str, lo: u32, hi: u32) -> Option<u32>
    ensures number { result ≡ number_in lo hi text.now }
    ensures range { IfSome result (λ n. (lo ≤ n) × (n ≤ hi)) }
{
    if has_plus(text.as_bytes()) || has_leading_zero(text.as_bytes()) {
        return None;
    }
    match text.parse::<u32>() {
        Ok(number) => within(number, lo, hi),
        Err(_) => None,
    }
}

/// The table's number, 1 to 64, and the width of its rows, 1 to 128, that a word gives as `T:W`.
pub fn table(text: &str) -> Option<(u8, u16)>
    ensures { result ≡ table_word text.now }
{
    let (table, width) = text.split_once(':')?;
    let table = number_in(table, 1, u32::from(MAX_TABLE))?;
    let width = number_in(width, 1, u32::from(MAX_WIDTH))?;
    Some((table as u8, width as u16))
}

fn within(number: u32, lo: u32, hi: u32) -> Option<u32>
    ensures number { result ≡ within lo hi (Some number) }
    ensures range { IfSome result (λ n. (lo ≤ n) × (n ≤ hi)) }
{
    if lo <= number && number <= hi {
        Some(number)
    } else {
        None
    }
}

/// Tells whether a plus sign stands in front, which `parse` would pass over.
fn has_plus(text: &[u8]) -> bool
    ensures { result ≡ (slice_index text.now 0 == 43) }
{
    !text.is_empty() && text[0] == b'+'
}

fn has_leading_zero(text: &[u8]) -> bool
    ensures { result ≡ has_leading_zero text.now }
{
    text.len() > 1 && text[0] == b'0'
}
