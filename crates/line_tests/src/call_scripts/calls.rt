use log_model::RequestId;
use row_sets::Bytes;
use scarce::Scarce;
use script::{FaultCause, Stop};
use script_run::{CallScript, ScriptCall, read_script};
use std::alloc::{Allocator, Global};
use std::process::Abort;
use test_streams::InterruptedInput;

/// Settings and calls of both forms, with lines between them that say nothing.
const SCRIPT: &[u8] = b"# two replicas\n\
    replicas 2\n\
    window 4\n\
    table 1 8\n\
    proc one 9 0 b7000000010000009500000000000000\n\
    \n\
    begin 1 one -\n\
    begin 9 nobody 0aFF 7 1\n\
    # the last\n\
    begin 2 one 00";

/// The replica, the name, the arguments and the request of a call.
type Expected = (u32, &'static [u8], &'static [u8], Option<RequestId>);

const CALLS: [Expected; 3] = [
    (1, b"one", b"", None),
    (
        9,
        b"nobody",
        b"\x0a\xff",
        Some(RequestId {
            session: 7,
            sequence: 1,
        }),
    ),
    (2, b"one", b"\0", None),
];

fn is_call<A: Allocator>(call: &ScriptCall<Bytes<A>>, expected: &Expected) -> bool {
    let (replica, name, args, request) = expected;
    call.replica == *replica
        && call.name.as_slice() == *name
        && call.args.as_slice() == *args
        && call.request == *request
}

/// Tells whether the script is read with its settings and its calls.
fn is_read<A: Allocator + Copy>(script: &CallScript<A>) -> bool {
    script.window == 4
        && script.replicas == 2
        && script.catalogue.by_name(b"one") == Some(9)
        && script.calls.len() == CALLS.len()
        && script
            .calls
            .iter()
            .zip(CALLS.iter())
            .all(|(call, expected)| is_call(call, expected))
}

/// Tells whether the script is read whole by an input that shows `shown` bytes at a time.
fn is_read_whole(alloc: Global, shown: usize) -> bool {
    let mut input = InterruptedInput::new(SCRIPT, shown, false);
    match read_script(alloc, &mut input) {
        Ok(script) => is_read(&script),
        Err(_) => false,
    }
}

#[test]
fn a_script_of_calls_is_read_whole(rt: HostRuntime) {
    assert!(rt; is_read_whole(rt.alloc(), 7));
}

/// Scripts, and the printed fault of each.
const FAULTS: [(&str, &str); 18] = [
    ("", "line 0: L5"),
    ("window 4\n\n", "line 0: L5"),
    ("replicas 2\n# the end", "line 0: L5"),
    ("window 0", "line 1: L4"),
    ("window 4\nwindow 4\n", "line 2: L5"),
    ("begin 1 one -\n", "line 1: L5"),
    ("window 4\nbegin 1 one -\nreplicas 2\n", "line 2: L5"),
    (
        "window 4\nreplicas 2\nbegin 1 one -\nwindow 4\n",
        "line 4: L5",
    ),
    (
        "window 4\nreplicas 2\nbegin 1 one -\ntable 1 8\n",
        "line 4: L5",
    ),
    ("window 4\nreplicas 2\nbegin 1 one\n", "line 3: L3"),
    ("window 4\nreplicas 2\nbegin 1 one - 0 1\n", "line 3: L4"),
    ("window 4\nreplicas 2\nbegin 1 one - 1 0\n", "line 3: L4"),
    ("window 4\nreplicas 2\nbegin 1 one -\n# \t\n", "line 4: L1"),
    (
        "window 4\nreplicas 2\nbegin 1 one -\njump 1\n",
        "line 4: L2",
    ),
    ("turn 1 0\n", "line 1: L4"),
    ("table 0 8\n", "line 1: L6 S1"),
    ("proc x 1 0 -\n", "line 1: L7 B1 slot 0"),
    (
        "proc a-b 1 0 b7000000010000009500000000000000\n",
        "line 1: L8 C4",
    ),
];

/// Lines that act, but begin no call.
const NO_CALLS: [&str; 9] = [
    "turn 1 1",
    "exec 1",
    "order 1",
    "deliver 1 1",
    "rows 1",
    "log",
    "entry 1",
    "rebuild 1",
    "add one 9 0 b7000000010000009500000000000000",
];

/// Returns the printed fault of a script, and an empty text where the script has none.
fn fault_of(rt: &impl Abort, alloc: Global, text: &str) -> String {
    let mut input = InterruptedInput::new(text.as_bytes(), 1000, false);
    match read_script(alloc, &mut input) {
        Err(Stop::Fault(fault)) => fault.to_string(alloc).expect(rt, "memory"),
        _ => String::new(alloc),
    }
}

/// Tells whether the fault of a script is printed so.
fn has_fault(rt: &impl Abort, alloc: Global, text: &str, printed: &str) -> bool {
    let fault = fault_of(rt, alloc, text);
    fault.as_str() == printed
}

/// Tells whether a line is at fault that stands where calls begin.
fn is_no_call(rt: &impl Abort, alloc: Global, line: &str) -> bool {
    let text = format!(in alloc; "window 4\nreplicas 2\n{line}").expect(rt, "memory");
    has_fault(rt, alloc, text.as_str(), "line 3: L5")
}

#[test]
fn faults_of_scripts_of_calls(rt: HostRuntime) {
    for (at, (text, printed)) in FAULTS.iter().enumerate() {
        let met = has_fault(&rt, rt.alloc(), text, printed);
        assert!(rt; met, "{at}");
    }
    for line in &NO_CALLS {
        let met = is_no_call(&rt, rt.alloc(), line);
        assert!(rt; met, "{line}");
    }
}

/// Tells whether the script is read; memory was wanting where it isn't. Returns `None` where another fault was told, or
/// the script was read otherwise.
fn is_read_by<A: Allocator + Copy>(alloc: A) -> Option<bool> {
    let mut input = InterruptedInput::new(SCRIPT, 1000, false);
    match read_script(alloc, &mut input) {
        Ok(script) if is_read(&script) => Some(true),
        Err(Stop::Fault(fault)) if matches!(fault.cause, FaultCause::NoMemory) => Some(false),
        _ => None,
    }
}

/// Each growth that is refused is want of memory, unless it can be done without.
#[test]
fn a_script_of_calls_finds_no_memory(rt: HostRuntime) {
    let scarce = Scarce::new(rt.alloc());
    let mut failed = 0u32;
    for growth in 1..=1000 {
        let before = scarce.refused();
        scarce.refuse_nth(growth);
        let read = is_read_by(&scarce);
        assert!(rt; read.is_some(), "{growth}");
        if read == Some(false) {
            failed = failed.wrapping_add(1);
        }
        if scarce.refused() == before {
            break;
        }
    }
    assert!(rt; failed > 10 && failed < 1000, "{failed}");
}

fn is_stopped_by_its_input(alloc: Global, shown: &[u8]) -> bool {
    let mut input = InterruptedInput::new(shown, 1000, true);
    matches!(read_script(alloc, &mut input), Err(Stop::Input(_)))
}

/// An input that fails gives no script, also where the lines so far would be one.
#[test]
fn a_script_of_calls_fails_with_its_input(rt: HostRuntime) {
    for count in 0..SCRIPT.len() {
        assert!(rt;
            is_stopped_by_its_input(rt.alloc(), &SCRIPT[..count]),
            "{count}"
        );
    }
}
