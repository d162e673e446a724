ghost use Rattle.std.specs.Prelude.{◌≡◌, ◌≤◌, ◌*◌, length, IfOk};
ghost use Rattle.bpf_code.specs.Program.{max_slots};
ghost use Rattle.bpf_bytes.specs.Spelling.{spelling, spelling_at};

use crate::fields::Fields;
use bpf_code::{Code, Instruction};
use byte_output::sink::{ByteSink, GrowingBytes};
use std::alloc::{AllocError, Allocator};

/// Returns the number of bytes of the program: eight a slot.
pub fn byte_length<A: Allocator>(code: &Code<A>) -> usize
    ensures length { result ≡ length (spelling code.now) }
    ensures slots { result ≡ 8 * length code.now }
    ensures few { result ≤ 8 * max_slots }
{
    8 * code.slots()
}

/// The bytes of the program, exactly those that it was decoded from.
pub fn encode<A: Allocator, B: Allocator>(
    alloc: B,
    code: &Code<A>,
) -> Result<Vec<u8, B>, AllocError>
    ensures { IfOk result (λ bytes. bytes.items ≡ spelling code.now) }
{
    let room = Vec::with_capacity(alloc, byte_length(code))?;
    let mut bytes = GrowingBytes::new(room);
    append_program(&mut bytes, code);
    bytes.into_bytes()
}

/// Appends the bytes of the program, an instruction after the other.
pub fn append_program<A: Allocator, S: ByteSink>(sink: &mut S, code: &Code<A>)
    ensures { S.appends sink.old sink.new (spelling code.now) }
{
    for slot in 0..code.slots() {
        append_at(sink, code.at(slot));
    }
}

/// Appends the bytes of the instruction that begins at a slot, where one does.
#[tactic(auto, unfolding(crate::specs::Spelling::instruction_bytes))]
fn append_at<S: ByteSink>(sink: &mut S, begins: Option<Instruction>)
    ensures { S.appends sink.old sink.new (spelling_at begins) }
{
    let Some(instruction) = begins else {
        return;
    };
    sink.append(&Fields::of(instruction).to_bytes());
    if let Some(half) = Fields::of_second_slot(instruction) {
        sink.append(&half.to_bytes());
    }
}
