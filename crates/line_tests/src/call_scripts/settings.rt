use crate::growths::refuse_in_turn;
use scarce::Scarce;
use script::{FaultCause, ScriptFault, Settings, Statement, statement};
use std::alloc::{Allocator, Global};
use std::process::Abort;

/// Sets what a line says.
fn set<A: Allocator + Copy>(
    settings: &mut Settings<A>,
    alloc: A,
    text: &str,
) -> Result<(), FaultCause> {
    match statement(alloc, text.as_bytes())? {
        Some(Statement::Setting(setting)) => settings.set(setting),
        _ => Ok(()),
    }
}

/// Sets what the lines say, up to the first fault.
fn set_all<A: Allocator + Copy>(
    settings: &mut Settings<A>,
    alloc: A,
    lines: &[&str],
) -> Result<(), ScriptFault> {
    let mut line = 0u64;
    for text in lines {
        line = line.wrapping_add(1);
        if let Err(cause) = set(settings, alloc, text) {
            return Err(ScriptFault { line, cause });
        }
    }
    Ok(())
}

const ONE: &str = "proc one 9 0 b7000000010000009500000000000000";

/// An increment without the call that gets the row.
const INCREMENT: &str =
    "proc add 1 16 79160000000000007917080000000000b701000001000000bf62000000000000\
    bfa300000000000007030000f8ffffff79a8f8ff000000000f780000000000007b8af8ff00000000\
    b701000001000000bf62000000000000bfa300000000000007030000f8ffffff8500000002000000\
    bf800000000000009500000000000000";

/// Lines, and the fault of the last.
const FAULTS: [(&[&str], &str); 16] = [
    (&["window 0"], "line 1: L4"),
    (&["# \t"], "line 1: L1"),
    (&["", "jump 1"], "line 2: L2"),
    (&["window"], "line 1: L3"),
    (&["window 4", "replicas 2", "window 4"], "line 3: L5"),
    (&["replicas 2", "replicas 1"], "line 2: L5"),
    (&[ONE, "table 1 8"], "line 2: L5"),
    (&["table 0 8"], "line 1: L6 S1"),
    (&["table 1 8", "table 2 129"], "line 2: L6 S2"),
    (&["table 1 8", "table 1 8"], "line 2: L6 S3"),
    (&["proc x 1 0 -"], "line 1: L7 B1 slot 0"),
    (
        &["window 4", "replicas 2", "table 1 8", INCREMENT],
        "line 4: L7 V5 slot 6",
    ),
    (&["proc a-b 1 0 9500000000000000"], "line 1: L7 V1 slot 0"),
    (
        &["proc a-b 1 0 b7000000010000009500000000000000"],
        "line 1: L8 C4",
    ),
    (&[ONE, ONE], "line 2: L8 C1"),
    (
        &[ONE, "proc two 9 0 b7000000010000009500000000000000"],
        "line 2: L8 C2",
    ),
];

/// Returns the printed fault of lines, and an empty text where they have none.
fn fault_of(rt: &impl Abort, alloc: Global, lines: &[&str]) -> String {
    let mut settings = Settings::new(alloc).expect(rt, "memory");
    match set_all(&mut settings, alloc, lines) {
        Ok(()) => String::new(alloc),
        Err(fault) => fault.to_string(alloc).expect(rt, "memory"),
    }
}

/// Tells whether the fault of lines is printed so.
fn is_told(rt: &impl Abort, alloc: Global, lines: &[&str], text: &str) -> bool {
    let told = fault_of(rt, alloc, lines);
    told.as_str() == text
}

/// Tells whether a fault is printed so.
fn is_printed(rt: &impl Abort, alloc: Global, fault: ScriptFault, text: &str) -> bool {
    let printed = fault.to_string(alloc).expect(rt, "memory");
    printed.as_str() == text
}

#[test]
fn faults_are_printed(rt: HostRuntime) {
    for (at, (lines, text)) in FAULTS.iter().enumerate() {
        let met = is_told(&rt, rt.alloc(), lines, text);
        assert!(rt; met, "{at}");
    }
    let cause = FaultCause::NoMemory;
    assert!(rt;
        is_printed(
            &rt,
            rt.alloc(),
            ScriptFault { line: 0, cause },
            "line 0: L9"
        )
    );
}

const LINES: [&str; 5] = [
    "table 64 128",
    "replicas 8",
    "table 1 8",
    "window 4096",
    ONE,
];

fn set_lines<A: Allocator + Copy>(settings: &mut Settings<A>, alloc: A) -> Result<(), FaultCause> {
    for text in &LINES {
        set(settings, alloc, text)?;
    }
    Ok(())
}

/// Tells whether what the lines set is there.
fn has_lines<A: Allocator + Copy>(settings: Settings<A>) -> bool {
    let limits = settings.window() == Some(4096) && settings.replicas() == Some(8);
    let catalogue = settings.into_catalogue();
    let widths = [catalogue.schema().width(64), catalogue.schema().width(1)];
    limits && catalogue.by_name(b"one") == Some(9) && widths == [Some(128), Some(8)]
}

/// Tells whether the lines are set; memory was wanting where they aren't. Returns `None` where another fault was told,
/// or they were set otherwise.
fn are_set<A: Allocator + Copy>(alloc: A) -> Option<bool> {
    let Ok(mut settings) = Settings::new(alloc) else {
        return Some(false);
    };
    match set_lines(&mut settings, alloc) {
        Ok(()) if has_lines(settings) => Some(true),
        Err(FaultCause::NoMemory) => Some(false),
        _ => None,
    }
}

/// Each growth that is refused is want of memory, unless it can be done without.
#[test]
fn growths_are_refused_in_turn(rt: HostRuntime) {
    let scarce = Scarce::new(rt.alloc());
    refuse_in_turn(&rt, &scarce, 500, || are_set(&scarce));
}
