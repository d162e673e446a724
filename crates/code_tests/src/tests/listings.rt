use super::same;
use bpf_bytes::decode;
use bpf_code::Code;
use bpf_list::{listing, put_listing};
use byte_output::paged::PagedOutput;
use std::alloc::Global;
use std::io;
use std::io::{ErrorKind, Write};
use std::process::Abort;
use test_programs::{
    ADD, COUNT, DELETE, INCREMENT, INDEX, INDEX_TOO_FAR, JUMP_ON, NEXT, ONE, PUT, PUT_AND_CANCEL,
    PUT_AND_GET, PUT_AND_STICK, READ, SKEW, SKIP, STACK_WORD, STORE_WITHIN, TRANSFER, bytes_of,
    listing_of,
};

/// The first slot of a program that EXIT follows, and how its line goes on: one for each opcode and
/// each value that changes the name.
static ROWS: [&str; 135] = [
    "6121fbff00000000 ldx32 dst 1 src 2 off -5 imm 0",
    "6921fbff00000000 ldx16 dst 1 src 2 off -5 imm 0",
    "7121fbff00000000 ldx8 dst 1 src 2 off -5 imm 0",
    "7921fbff00000000 ldx64 dst 1 src 2 off -5 imm 0",
    "8121fbff00000000 ldsx32 dst 1 src 2 off -5 imm 0",
    "8921fbff00000000 ldsx16 dst 1 src 2 off -5 imm 0",
    "9121fbff00000000 ldsx8 dst 1 src 2 off -5 imm 0",
    "6201fbfff9ffffff st32 dst 1 src 0 off -5 imm -7",
    "6a01fbfff9ffffff st16 dst 1 src 0 off -5 imm -7",
    "7201fbfff9ffffff st8 dst 1 src 0 off -5 imm -7",
    "7a01fbfff9ffffff st64 dst 1 src 0 off -5 imm -7",
    "6321fbff00000000 stx32 dst 1 src 2 off -5 imm 0",
    "6b21fbff00000000 stx16 dst 1 src 2 off -5 imm 0",
    "7321fbff00000000 stx8 dst 1 src 2 off -5 imm 0",
    "7b21fbff00000000 stx64 dst 1 src 2 off -5 imm 0",
    "04010000f9ffffff add32 dst 1 src 0 off 0 imm -7",
    "0c21000000000000 add32 dst 1 src 2 off 0 imm 0",
    "14010000f9ffffff sub32 dst 1 src 0 off 0 imm -7",
    "1c21000000000000 sub32 dst 1 src 2 off 0 imm 0",
    "24010000f9ffffff mul32 dst 1 src 0 off 0 imm -7",
    "2c21000000000000 mul32 dst 1 src 2 off 0 imm 0",
    "34010000f9ffffff div32 dst 1 src 0 off 0 imm -7",
    "3c21000000000000 div32 dst 1 src 2 off 0 imm 0",
    "34010100f9ffffff sdiv32 dst 1 src 0 off 1 imm -7",
    "3c21010000000000 sdiv32 dst 1 src 2 off 1 imm 0",
    "44010000f9ffffff or32 dst 1 src 0 off 0 imm -7",
    "4c21000000000000 or32 dst 1 src 2 off 0 imm 0",
    "54010000f9ffffff and32 dst 1 src 0 off 0 imm -7",
    "5c21000000000000 and32 dst 1 src 2 off 0 imm 0",
    "64010000f9ffffff lsh32 dst 1 src 0 off 0 imm -7",
    "6c21000000000000 lsh32 dst 1 src 2 off 0 imm 0",
    "74010000f9ffffff rsh32 dst 1 src 0 off 0 imm -7",
    "7c21000000000000 rsh32 dst 1 src 2 off 0 imm 0",
    "94010000f9ffffff mod32 dst 1 src 0 off 0 imm -7",
    "9c21000000000000 mod32 dst 1 src 2 off 0 imm 0",
    "94010100f9ffffff smod32 dst 1 src 0 off 1 imm -7",
    "9c21010000000000 smod32 dst 1 src 2 off 1 imm 0",
    "a4010000f9ffffff xor32 dst 1 src 0 off 0 imm -7",
    "ac21000000000000 xor32 dst 1 src 2 off 0 imm 0",
    "b4010000f9ffffff mov32 dst 1 src 0 off 0 imm -7",
    "bc21000000000000 mov32 dst 1 src 2 off 0 imm 0",
    "c4010000f9ffffff arsh32 dst 1 src 0 off 0 imm -7",
    "cc21000000000000 arsh32 dst 1 src 2 off 0 imm 0",
    "8401000000000000 neg32 dst 1 src 0 off 0 imm 0",
    "07010000f9ffffff add64 dst 1 src 0 off 0 imm -7",
    "0f21000000000000 add64 dst 1 src 2 off 0 imm 0",
    "17010000f9ffffff sub64 dst 1 src 0 off 0 imm -7",
    "1f21000000000000 sub64 dst 1 src 2 off 0 imm 0",
    "27010000f9ffffff mul64 dst 1 src 0 off 0 imm -7",
    "2f21000000000000 mul64 dst 1 src 2 off 0 imm 0",
    "37010000f9ffffff div64 dst 1 src 0 off 0 imm -7",
    "3f21000000000000 div64 dst 1 src 2 off 0 imm 0",
    "37010100f9ffffff sdiv64 dst 1 src 0 off 1 imm -7",
    "3f21010000000000 sdiv64 dst 1 src 2 off 1 imm 0",
    "47010000f9ffffff or64 dst 1 src 0 off 0 imm -7",
    "4f21000000000000 or64 dst 1 src 2 off 0 imm 0",
    "57010000f9ffffff and64 dst 1 src 0 off 0 imm -7",
    "5f21000000000000 and64 dst 1 src 2 off 0 imm 0",
    "67010000f9ffffff lsh64 dst 1 src 0 off 0 imm -7",
    "6f21000000000000 lsh64 dst 1 src 2 off 0 imm 0",
    "77010000f9ffffff rsh64 dst 1 src 0 off 0 imm -7",
    "7f21000000000000 rsh64 dst 1 src 2 off 0 imm 0",
    "97010000f9ffffff mod64 dst 1 src 0 off 0 imm -7",
    "9f21000000000000 mod64 dst 1 src 2 off 0 imm 0",
    "97010100f9ffffff smod64 dst 1 src 0 off 1 imm -7",
    "9f21010000000000 smod64 dst 1 src 2 off 1 imm 0",
    "a7010000f9ffffff xor64 dst 1 src 0 off 0 imm -7",
    "af21000000000000 xor64 dst 1 src 2 off 0 imm 0",
    "b7010000f9ffffff mov64 dst 1 src 0 off 0 imm -7",
    "bf21000000000000 mov64 dst 1 src 2 off 0 imm 0",
    "c7010000f9ffffff arsh64 dst 1 src 0 off 0 imm -7",
    "cf21000000000000 arsh64 dst 1 src 2 off 0 imm 0",
    "8701000000000000 neg64 dst 1 src 0 off 0 imm 0",
    "bc21080000000000 movsx32 dst 1 src 2 off 8 imm 0",
    "bc21100000000000 movsx32 dst 1 src 2 off 16 imm 0",
    "bf21080000000000 movsx64 dst 1 src 2 off 8 imm 0",
    "bf21100000000000 movsx64 dst 1 src 2 off 16 imm 0",
    "bf21200000000000 movsx64 dst 1 src 2 off 32 imm 0",
    "d401000010000000 le dst 1 src 0 off 0 imm 16",
    "d401000020000000 le dst 1 src 0 off 0 imm 32",
    "d401000040000000 le dst 1 src 0 off 0 imm 64",
    "dc01000010000000 be dst 1 src 0 off 0 imm 16",
    "dc01000020000000 be dst 1 src 0 off 0 imm 32",
    "dc01000040000000 be dst 1 src 0 off 0 imm 64",
    "d701000010000000 swap dst 1 src 0 off 0 imm 16",
    "d701000020000000 swap dst 1 src 0 off 0 imm 32",
    "d701000040000000 swap dst 1 src 0 off 0 imm 64",
    "0500000000000000 ja64 dst 0 src 0 off 0 imm 0",
    "0600000000000000 ja32 dst 0 src 0 off 0 imm 0",
    "15010000f9ffffff jeq64 dst 1 src 0 off 0 imm -7",
    "1d21000000000000 jeq64 dst 1 src 2 off 0 imm 0",
    "25010000f9ffffff jgt64 dst 1 src 0 off 0 imm -7",
    "2d21000000000000 jgt64 dst 1 src 2 off 0 imm 0",
    "35010000f9ffffff jge64 dst 1 src 0 off 0 imm -7",
    "3d21000000000000 jge64 dst 1 src 2 off 0 imm 0",
    "45010000f9ffffff jset64 dst 1 src 0 off 0 imm -7",
    "4d21000000000000 jset64 dst 1 src 2 off 0 imm 0",
    "55010000f9ffffff jne64 dst 1 src 0 off 0 imm -7",
    "5d21000000000000 jne64 dst 1 src 2 off 0 imm 0",
    "65010000f9ffffff jsgt64 dst 1 src 0 off 0 imm -7",
    "6d21000000000000 jsgt64 dst 1 src 2 off 0 imm 0",
    "75010000f9ffffff jsge64 dst 1 src 0 off 0 imm -7",
    "7d21000000000000 jsge64 dst 1 src 2 off 0 imm 0",
    "a5010000f9ffffff jlt64 dst 1 src 0 off 0 imm -7",
    "ad21000000000000 jlt64 dst 1 src 2 off 0 imm 0",
    "b5010000f9ffffff jle64 dst 1 src 0 off 0 imm -7",
    "bd21000000000000 jle64 dst 1 src 2 off 0 imm 0",
    "c5010000f9ffffff jslt64 dst 1 src 0 off 0 imm -7",
    "cd21000000000000 jslt64 dst 1 src 2 off 0 imm 0",
    "d5010000f9ffffff jsle64 dst 1 src 0 off 0 imm -7",
    "dd21000000000000 jsle64 dst 1 src 2 off 0 imm 0",
    "16010000f9ffffff jeq32 dst 1 src 0 off 0 imm -7",
    "1e21000000000000 jeq32 dst 1 src 2 off 0 imm 0",
    "26010000f9ffffff jgt32 dst 1 src 0 off 0 imm -7",
    "2e21000000000000 jgt32 dst 1 src 2 off 0 imm 0",
    "36010000f9ffffff jge32 dst 1 src 0 off 0 imm -7",
    "3e21000000000000 jge32 dst 1 src 2 off 0 imm 0",
    "46010000f9ffffff jset32 dst 1 src 0 off 0 imm -7",
    "4e21000000000000 jset32 dst 1 src 2 off 0 imm 0",
    "56010000f9ffffff jne32 dst 1 src 0 off 0 imm -7",
    "5e21000000000000 jne32 dst 1 src 2 off 0 imm 0",
    "66010000f9ffffff jsgt32 dst 1 src 0 off 0 imm -7",
    "6e21000000000000 jsgt32 dst 1 src 2 off 0 imm 0",
    "76010000f9ffffff jsge32 dst 1 src 0 off 0 imm -7",
    "7e21000000000000 jsge32 dst 1 src 2 off 0 imm 0",
    "a6010000f9ffffff jlt32 dst 1 src 0 off 0 imm -7",
    "ae21000000000000 jlt32 dst 1 src 2 off 0 imm 0",
    "b6010000f9ffffff jle32 dst 1 src 0 off 0 imm -7",
    "be21000000000000 jle32 dst 1 src 2 off 0 imm 0",
    "c6010000f9ffffff jslt32 dst 1 src 0 off 0 imm -7",
    "ce21000000000000 jslt32 dst 1 src 2 off 0 imm 0",
    "d6010000f9ffffff jsle32 dst 1 src 0 off 0 imm -7",
    "de21000000000000 jsle32 dst 1 src 2 off 0 imm 0",
    "85000000f9ffffff call dst 0 src 0 off 0 imm -7",
    "9500000000000000 exit dst 0 src 0 off 0 imm 0",
];

const EXIT: [u8; 8] = [0x95, 0, 0, 0, 0, 0, 0, 0];

fn code_of(rt: &impl Abort, alloc: Global, program: &[u8]) -> Code {
    decode(alloc, program).expect(rt, "the program")
}

fn is_listed(rt: &impl Abort, alloc: Global, program: &[u8], expected: &str) {
    let code = code_of(rt, alloc, program);
    let mut text = Vec::new(alloc);
    listing(&code, &mut text).expect(rt, expected);
    assert_eq!(rt; text.as_slice(), expected.as_bytes());
}

/// The first slot of the row's program, and EXIT.
fn program_of(rt: &impl Abort, alloc: Global, row: &str) -> Vec<u8> {
    let digits = row.split_whitespace().next().expect(rt, "sixteen digits");
    let mut program = bytes_of(alloc, digits).expect(rt, digits);
    program.extend_from_slice(&EXIT).expect(rt, "the exit");
    program
}

fn has_its_line(rt: &impl Abort, alloc: Global, row: &str) {
    let program = program_of(rt, alloc, row);
    let expected = format!(in alloc;
        "   0 {row}\n   1 9500000000000000 exit dst 0 src 0 off 0 imm 0\n"
    );
    is_listed(rt, alloc, &program, &expected.expect(rt, "the lines"));
}

#[test]
fn each_instruction_has_its_line(rt: HostRuntime) {
    for row in &ROWS {
        has_its_line(&rt, rt.alloc(), row);
    }
}

static WIDE: [u8; 24] = [
    0x18, 0, 0, 0, 1, 0, 0, 0, 0, 0, 0, 0, 2, 0, 0, 0, 0x95, 0, 0, 0, 0, 0, 0, 0,
];

#[test]
fn a_wide_load_is_one_line(rt: HostRuntime) {
    let expected =
        "   0 18000000010000000000000002000000 lddw dst 0 src 0 off 0 imm 8589934593\n   \
        2 9500000000000000 exit dst 0 src 0 off 0 imm 0\n";
    is_listed(&rt, rt.alloc(), &WIDE, expected);
}

/// The test programs.
static PROGRAMS: [&str; 19] = [
    ADD,
    SKEW,
    PUT,
    COUNT,
    NEXT,
    DELETE,
    READ,
    PUT_AND_GET,
    PUT_AND_CANCEL,
    PUT_AND_STICK,
    INCREMENT,
    TRANSFER,
    ONE,
    JUMP_ON,
    SKIP,
    INDEX,
    INDEX_TOO_FAR,
    STORE_WITHIN,
    STACK_WORD,
];

fn has_its_listing(rt: &impl Abort, alloc: Global, program: &str) {
    let bytes = bytes_of(alloc, program).expect(rt, program);
    let expected = listing_of(alloc, program).expect(rt, program);
    is_listed(rt, alloc, &bytes, &expected);
}

#[test]
fn test_programs_have_their_listings(rt: HostRuntime) {
    for program in &PROGRAMS {
        has_its_listing(&rt, rt.alloc(), program);
    }
}

/// An output that takes a number of bytes, then fails.
#[derive(Drop)]
struct Failing {
    room: usize,
}

impl Write for Failing {
    fn write(&mut self, buf: &[u8]) -> io::Result<usize> {
        if self.room == 0 {
            return Err(io::Error::from(ErrorKind::Other));
        }
        let taken = buf.len().min(self.room);
        self.room -= taken;
        Ok(taken)
    }

    fn flush(&mut self) -> io::Result<()> {
        Ok(())
    }
}

fn is_given(code: &Code, room: usize) -> bool {
    let mut failing = Failing { room };
    let mut output = PagedOutput::new(&mut failing);
    put_listing(code, &mut output).is_ok()
}

fn is_written(code: &Code, room: usize) -> bool {
    listing(code, &mut Failing { room }).is_ok()
}

/// The room of an output in bytes, whether the lines are given to a page, and whether they are written.
static ROOMS: [(usize, bool, bool); 5] = [
    (0, false, false),
    (4079, false, false),
    (4080, true, false),
    (4130, true, false),
    (4131, true, true),
];

fn exits(rt: &impl Abort, alloc: Global, count: usize) -> Vec<u8> {
    let mut program = Vec::new(alloc);
    for _ in 0..count {
        program.extend_from_slice(&EXIT).expect(rt, "an exit");
    }
    program
}

/// Eighty lines of 51 bytes fit a page, which leaves for the next line.
#[test]
fn a_failed_write_ends_the_listing(rt: HostRuntime) {
    let code = code_of(&rt, rt.alloc(), &exits(&rt, rt.alloc(), 81));
    for (room, given, written) in &ROOMS {
        let found = (*room, is_given(&code, *room), is_written(&code, *room));
        same(
            &rt,
            "room, given, written",
            found,
            (*room, *given, *written),
        );
    }
}
