use crate::growths::refuse_in_turn;
use row_sets::Bytes;
use scarce::Scarce;
use script::{Action, LineFault, MAX_LINE, Next, Statement, next_line, statement};
use std::alloc::{Allocator, Global};
use std::process::Abort;
use test_streams::InterruptedInput;

/// Lines with a character that none may have.
static OTHER_CHARACTERS: [&[u8]; 4] = [b"window\t4", b"# \t", b"log\r", b"rows \x7f"];

/// Lines that begin with no word that one may begin with.
static UNKNOWN_WORDS: [&[u8]; 4] = [b"jump 1", b" window 4", b"Window 4", b"window4"];

/// Lines with too few fields, or too many.
static OTHER_FIELDS: [&[u8]; 14] = [
    b"window",
    b"window 4 ",
    b"window  4",
    b"log 1",
    b"log ",
    b"proc x 1 0",
    b"begin 1 add",
    b"begin 1 one - 7",
    b"begin 0 one - 7",
    b"begin 1 one - 7 1 ",
    b"add",
    b"add one 9 0",
    b"add one 9 257",
    b"add one 9 0 - -",
];

/// Settings with a field that has no value that it may have.
static SETTINGS_OF_OTHER_VALUES: [&[u8]; 13] = [
    b"window 0",
    b"window 4097",
    b"window 04",
    b"window +4",
    b"window -4",
    b"window 4x",
    b"replicas 0",
    b"replicas 9",
    b"table 256 8",
    b"table 1 65536",
    b"table 1 ",
    b"proc x 65536 0 -",
    b"proc x 1 257 -",
];

/// Steps with a field that has no value that it may have.
static STEPS_OF_OTHER_VALUES: [&[u8]; 20] = [
    b"begin 1 add 050",
    b"begin 1 add 0g",
    b"begin 1 add ",
    b"begin 4294967296 add -",
    b"begin 1 one - 0 1",
    b"begin 1 one - 7 0",
    b"begin 1 one - 4294967296 1",
    b"begin 1 one - 7 4294967296",
    b"begin 1 one - 07 1",
    b"begin 1 one  7 1",
    b"begin 4294967296 one - 7 1",
    b"add one 65536 0 -",
    b"add one 9 257 -",
    b"add one 9 0 b",
    b"add one 9 0 ",
    b"turn 1 0",
    b"deliver 1 0",
    b"deliver 1 -1",
    b"exec 4294967296",
    b"entry 18446744073709551616",
];

/// Lines that say something.
static SOUND: [&[u8]; 21] = [
    b"window 4096",
    b"replicas 8",
    b"table 0 8",
    b"table 255 65535",
    b"proc x 1 0 -",
    b"proc a-b 65535 256 b7000000010000009500000000000000",
    b"begin 1 add 05000000000000000A00000000000000",
    b"begin 0  -",
    b"begin 1 one - 7 1",
    b"begin 0  - 4294967295 4294967295",
    b"add one 9 0 -",
    b"add a-b 65535 256 b7000000010000009500000000000000",
    b"turn 1 4294967295",
    b"exec 4294967295",
    b"order 0",
    b"deliver 1 1",
    b"rows 2",
    b"log",
    b"entry 9",
    b"rebuild 2",
    b"# window 0",
];

/// The number of a line's fault, and 0 where the line says something.
fn fault_number<A: Allocator + Copy>(alloc: A, line: &[u8]) -> u8 {
    match statement(alloc, line) {
        Ok(_) => 0,
        Err(fault) => fault.number(),
    }
}

/// Asserts that each of these lines has a fault of this number, or none where the number is 0.
fn have_fault(rt: &impl Abort, alloc: Global, lines: &[&[u8]], number: u8) {
    for (at, line) in lines.iter().enumerate() {
        let found = fault_number(alloc, line);
        assert!(rt; found == number, "{number} {at} {found}");
    }
}

#[test]
fn lines_have_their_first_fault(rt: HostRuntime) {
    have_fault(&rt, rt.alloc(), &OTHER_CHARACTERS, 1);
    have_fault(&rt, rt.alloc(), &UNKNOWN_WORDS, 2);
    have_fault(&rt, rt.alloc(), &OTHER_FIELDS, 3);
    have_fault(&rt, rt.alloc(), &SETTINGS_OF_OTHER_VALUES, 4);
    have_fault(&rt, rt.alloc(), &STEPS_OF_OTHER_VALUES, 4);
    have_fault(&rt, rt.alloc(), &SOUND, 0);
}

/// The number of the fault of a line of `len` bytes, of which the first is `first`.
fn fault_of_long(rt: &impl Abort, alloc: Global, len: usize, first: u8) -> u8 {
    let mut line = vec![in alloc; b'0'; len].expect(rt, "memory");
    if let Some(byte) = line.first_mut() {
        *byte = first;
    }
    fault_number(alloc, &line)
}

#[test]
fn the_longest_lines(rt: HostRuntime) {
    for (len, first, number) in [
        (MAX_LINE, b'#', 0),
        (MAX_LINE, b'a', 2),
        (MAX_LINE + 1, b'#', 1),
    ] {
        let found = fault_of_long(&rt, rt.alloc(), len, first);
        assert_eq!(rt; found, number);
    }
    assert!(rt; matches!(statement(rt.alloc(), b""), Ok(None)));
}

/// The values of a line: a name, bytes, and numbers.
type Given<'a> = (&'a [u8], &'a [u8], [u32; 3]);

const GIVEN: [(&[u8], Given<'static>); 3] = [
    (b"begin 1 add 05FF", (b"add", &[5, 255], [1, 0, 0])),
    (b"begin 2 one - 7 1", (b"one", &[], [2, 7, 1])),
    (b"add two 9 16 b7fF", (b"two", &[183, 255], [0, 9, 16])),
];

/// The values of a line: the replica and the request of a call, or the values of an addition.
fn given<A: Allocator>(statement: &Statement<Bytes<A>>) -> Option<Given<'_>> {
    let Statement::Action(action) = statement else {
        return None;
    };
    match action {
        Action::Begin {
            name,
            args,
            replica,
        } => Some((name.as_slice(), args.as_slice(), [*replica, 0, 0])),
        Action::BeginNumbered {
            name,
            args,
            replica,
            session,
            sequence,
        } => Some((
            name.as_slice(),
            args.as_slice(),
            [*replica, *session, *sequence],
        )),
        Action::Add(procedure) => Some((
            procedure.name.as_slice(),
            procedure.program.as_slice(),
            [
                0,
                u32::from(procedure.number),
                u32::from(procedure.args_len),
            ],
        )),
        _ => None,
    }
}

/// Tells whether the line is read as what it gives; memory was wanting where it isn't. Returns `None` where another
/// fault was told, or it was read as something else.
fn is_read<A: Allocator + Copy>(alloc: A, line: &[u8], expected: &Given<'_>) -> Option<bool> {
    match statement(alloc, line) {
        Ok(Some(statement)) if given(&statement).as_ref() == Some(expected) => Some(true),
        Err(LineFault::NoMemory) => Some(false),
        _ => None,
    }
}

#[test]
fn growths_are_refused_in_turn(rt: HostRuntime) {
    for (line, expected) in &GIVEN {
        let scarce = Scarce::new(rt.alloc());
        refuse_in_turn(&rt, &scarce, 100, || is_read(&scarce, line, expected));
    }
}

/// Inputs, the lines of an input that ends, and those of an input that fails at its end. A last line is known to be
/// whole by its LF.
const INPUTS: [(&[u8], &[&[u8]], &[&[u8]]); 5] = [
    (b"", &[], &[]),
    (b"a", &[b"a"], &[]),
    (b"ab\ncd\n", &[b"ab", b"cd"], &[b"ab", b"cd"]),
    (b"\n\n", &[b"", b""], &[b"", b""]),
    (b"log\nrows 1", &[b"log", b"rows 1"], &[b"log"]),
];

/// Tells whether these lines come off an input, and then its end, or its failure.
fn gives(input: &mut InterruptedInput<'_>, line: &mut Vec<u8>, lines: &[&[u8]]) -> bool {
    for expected in lines {
        let next = next_line(input, line);
        if !matches!(next, Ok(Next::Line)) || line.as_slice() != *expected {
            return false;
        }
    }
    match next_line(input, line) {
        Ok(Next::AtEnd) => !input.fails,
        Ok(_) => false,
        Err(_) => input.fails,
    }
}

/// Tells the same of an input over these bytes, with a line of its own.
fn gives_all(alloc: Global, bytes: &[u8], shown: usize, fails: bool, lines: &[&[u8]]) -> bool {
    let mut input = InterruptedInput::new(bytes, shown, fails);
    let mut line = Vec::new(alloc);
    gives(&mut input, &mut line, lines)
}

#[test]
fn lines_are_read_one_by_one(rt: HostRuntime) {
    for (at, (bytes, ended, failed)) in INPUTS.iter().enumerate() {
        for shown in [1, 4, 100] {
            for (fails, lines) in [(false, *ended), (true, *failed)] {
                let met = gives_all(rt.alloc(), bytes, shown, fails, lines);
                assert!(rt; met, "{at} {shown} {fails}");
            }
        }
    }
}

/// A line that is too long stays on the input: no more is taken than a line may have.
#[test]
fn long_lines_stay_on_the_input(rt: HostRuntime) {
    let bytes = vec![in rt.alloc(); b'a'; MAX_LINE + 10].expect(&rt, "memory");
    let mut input = InterruptedInput::new(&bytes, 1000, false);
    let mut line = Vec::new(rt.alloc());
    assert!(rt; matches!(next_line(&mut input, &mut line), Ok(Next::TooLong)));
    assert_eq!(rt; line.len(), MAX_LINE);
    assert_eq!(rt; input.left.len(), 10);
}
