ghost use Rattle.std.specs.Prelude.{◌≡◌};
ghost use Rattle.bpf_words.specs.End.{end_value, byte_reversal};

use crate::cut::{low16, low32};
use crate::operation::{ByteOrder, EndWidth};

/// The low bits of `a`, in little-endian or in reversed byte order, with zeros above them (RFC 9669 section 4.2). The
/// whole 64-bit value is taken in every class.
#[tactic(auto, unfolding(crate::specs::End::end_value))]
pub fn end(order: ByteOrder, width: EndWidth, a: u64) -> u64
    ensures { result ≡ end_value order width a }
{
    match order {
        ByteOrder::Little => match width {
            EndWidth::Low16 => a & 0xffff,
            EndWidth::Low32 => a & 0xffff_ffff,
            EndWidth::Low64 => a,
        },
        ByteOrder::Big | ByteOrder::Swap => swapped(width, a),
    }
}

fn swapped(width: EndWidth, a: u64) -> u64
    ensures { result ≡ byte_reversal width a }
{
    match width {
        EndWidth::Low16 => u64::from(low16(a).swap_bytes()),
        EndWidth::Low32 => u64::from(low32(a).swap_bytes()),
        EndWidth::Low64 => a.swap_bytes(),
    }
}
