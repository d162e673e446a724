use row_sets::Bytes;
use site_service::{Scan, SiteLine, site_line};
use std::alloc::Allocator;

/// A line, and the number of its fault, or 0 where it has none.
type Faulty = (&'static [u8], u8);

static BYTES_AND_WORDS: [Faulty; 10] = [
    (b"rows\t", 1),
    (b"jump\x7f", 1),
    (b"# \x80", 1),
    (b"call add - 0 0\r", 1),
    (b"jump", 2),
    (b" rows", 2),
    (b"Rows", 2),
    (b"rows1", 2),
    (b"window 4", 2),
    (b"begin 1 add -", 2),
];

static FIELD_COUNTS: [Faulty; 13] = [
    (b"call add -", 3),
    (b"call add 0 7", 3),
    (b"call add - 7 1 ", 3),
    (b"add one 9 257", 3),
    (b"add one 9 0 - -", 3),
    (b"entry", 3),
    (b"entry 0 ", 3),
    (b"rows 1", 3),
    (b"rows ", 3),
    (b"scan 1 0 9", 3),
    (b"scan 1 0 9 10 1", 3),
    (b"dump 1", 3),
    (b"position 1", 3),
];

static FIELDS: [Faulty; 18] = [
    (b"call add 0 0 0", 4),
    (b"call add  0 0", 4),
    (b"call add 0g 0 0", 4),
    (b"call add - 4294967296 0", 4),
    (b"call add - 0 4294967296", 4),
    (b"call add - 00 0", 4),
    (b"call add - 0 +1", 4),
    (b"add one 65536 0 -", 4),
    (b"add one 9 257 -", 4),
    (b"add one 9 0 b", 4),
    (b"entry ", 4),
    (b"entry 012", 4),
    (b"scan 256 0 9 1", 4),
    (b"scan 1 18446744073709551616 9 1", 4),
    (b"scan 1 0 18446744073709551616 1", 4),
    (b"scan 1 -1 9 1", 4),
    (b"scan 1 0 9 0", 4),
    (b"scan 1 0 9 4294967296", 4),
];

static FAULTLESS: [Faulty; 12] = [
    (b"call add 05FF 7 1", 0),
    (b"call  - 0 0", 0),
    (b"call add - 0 1", 0),
    (b"call add - 4294967295 0", 0),
    (b"add a-b 65535 256 -", 0),
    (b"entry -", 0),
    (b"rows", 0),
    (b"scan 0 9 0 1", 0),
    (b"scan 255 0 18446744073709551615 4294967295", 0),
    (b"position", 0),
    (b"# jump", 0),
    (b"", 0),
];

/// The number of a line's fault, and 0 where it has none.
fn fault_number<A: Allocator + Copy>(alloc: A, line: &[u8]) -> u8 {
    match site_line(alloc, line) {
        Ok(_) => 0,
        Err(fault) => fault.number(),
    }
}

#[test]
fn lines_have_their_first_fault(rt: HostRuntime) {
    for table in [&BYTES_AND_WORDS[..], &FIELD_COUNTS, &FIELDS, &FAULTLESS] {
        for (line, number) in table {
            assert_eq!(rt; fault_number(rt.alloc(), line), *number);
        }
    }
}

/// The values of a line: a name, bytes, and numbers.
type Given<'a> = (&'a [u8], &'a [u8], [u32; 2]);

static GIVEN: [(&[u8], Given<'static>); 4] = [
    (b"call add 05FF 7 1", (b"add", &[5, 255], [7, 1])),
    (b"call one - 0 0", (b"one", &[], [0, 0])),
    (b"add two 9 16 b7fF", (b"two", &[183, 255], [9, 16])),
    (b"entry 0aFF", (b"", &[10, 255], [0, 0])),
];

/// Returns the values of a line with fields.
fn given<A: Allocator>(line: &SiteLine<Bytes<A>>) -> Option<Given<'_>> {
    Some(match line {
        SiteLine::Call {
            name,
            args,
            session,
            sequence,
        } => (name.as_slice(), args.as_slice(), [*session, *sequence]),
        SiteLine::Add(procedure) => (
            procedure.name.as_slice(),
            procedure.program.as_slice(),
            [u32::from(procedure.number), u32::from(procedure.args_len)],
        ),
        SiteLine::Entry { bytes } => (b"", bytes.as_slice(), [0, 0]),
        SiteLine::Rows | SiteLine::Scan(_) | SiteLine::Dump | SiteLine::Position => return None,
    })
}

/// Tells whether a line is read as what it gives.
fn gives<A: Allocator + Copy>(alloc: A, line: &[u8], expected: &Given<'_>) -> bool {
    match site_line(alloc, line) {
        Ok(Some(line)) => given(&line).as_ref() == Some(expected),
        _ => false,
    }
}

#[test]
fn lines_give_their_fields(rt: HostRuntime) {
    for (line, expected) in &GIVEN {
        assert!(rt; gives(rt.alloc(), line, expected));
    }
    assert!(rt; matches!(site_line(rt.alloc(), b"rows"), Ok(Some(SiteLine::Rows))));
    assert!(rt; matches!(site_line(rt.alloc(), b"dump"), Ok(Some(SiteLine::Dump))));
    assert!(rt;
        matches!(
            site_line(rt.alloc(), b"position"),
            Ok(Some(SiteLine::Position))
        )
    );
    assert!(rt;
        matches!(
            site_line(rt.alloc(), b"scan 64 5 18446744073709551615 7"),
            Ok(Some(SiteLine::Scan(Scan {
                table: 64,
                lo: 5,
                hi: u64::MAX,
                most: 7
            })))
        )
    );
    assert!(rt; matches!(site_line(rt.alloc(), b"# rows"), Ok(None)));
}
