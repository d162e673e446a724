//! Bytes of an entry in hex.

ghost use Rattle.hex.specs.Hex.{encode_lower};
ghost use Rattle.bpf_bytes.specs.Spelling.{spelling};
ghost use Rattle.log_entry.specs.Bytes.{entry_bytes};
ghost use Rattle.log_entry.specs.Kind.{entry_of};

use bpf_bytes::append_program;
use bpf_code::Code;
use byte_output::sink::ByteSink;
use log_entry::{Entry, append_entry};
use std::alloc::Allocator;

/// A sink to which bytes are appended in hex, two digits each.
#[derive(Drop)]
struct HexSink<'a, S: ByteSink> {
    digits: &'a mut S,
}

impl<'a, S: ByteSink> ByteSink for HexSink<'a, S> {
    ghost use Rattle.site_report.specs.Digits.{HasInHex, nothing_in_hex, together_in_hex};

    ghost appends = { HasInHex S.appends };

    ghost nothing = { nothing_in_hex S.appends S.nothing };

    ghost together = { together_in_hex S.appends S.together };

    fn append(&mut self, bytes: &[u8]) {
        append_digits(self.digits, bytes);
    }
}

/// Appends bytes in hex.
pub(crate) fn append_digits<S: ByteSink>(sink: &mut S, bytes: &[u8])
    ensures { S.appends sink.old sink.new (encode_lower bytes.now) }
{
    for byte in bytes {
        let mut digits = [0u8; 2];
        let _ = hex::encode_to_slice(&[*byte], &mut digits);
        sink.append(&digits);
    }
}

/// Appends the bytes of a program in hex. Takes no memory.
pub(crate) fn append_code_digits<A: Allocator, S: ByteSink>(sink: &mut S, code: &Code<A>)
    ensures { S.appends sink.old sink.new (encode_lower (spelling code.now)) }
{
    let mut digits = HexSink { digits: sink };
    append_program(&mut digits, code);
}

/// Appends the bytes of an entry in hex. Takes no memory.
pub(crate) fn append_entry_digits<A: Allocator + Copy, S: ByteSink>(sink: &mut S, entry: &Entry<A>)
    ensures { S.appends sink.old sink.new (encode_lower (entry_bytes (entry_of entry.now))) }
{
    let mut digits = HexSink { digits: sink };
    append_entry(&mut digits, entry);
}
