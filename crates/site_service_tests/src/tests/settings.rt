//! Settings.

use super::runs::joined;
use site_service::site_over;
use std::alloc::Global;

/// Settings, and the message about their fault.
const FAULTS: [(&[&str], &str); 14] = [
    (&["table 1 8"], "line 0: L5"),
    (&[], "line 0: L5"),
    (&["window 4", "replicas 2"], "line 2: L5"),
    (&["window 4", "log"], "line 2: L5"),
    (&["window 4", "begin 1 add 00"], "line 2: L5"),
    (&["window 4", "window 4"], "line 2: L5"),
    (&["additions", "window 4", "additions"], "line 3: L5"),
    (&["window 4", "additions 1"], "line 2: L3"),
    (&["window 4", "additions "], "line 2: L3"),
    (&["window 4", "addition"], "line 2: L2"),
    (&["window 4", " additions"], "line 2: L2"),
    (&["window 0"], "line 1: L4"),
    (&["# a\tcomment", "window 4"], "line 1: L1"),
    (
        &["window 4", "table 1 8", "proc x 1 0 9500000000000000"],
        "line 3: L7 V1 slot 0",
    ),
];

/// Tells whether a site with these settings says this, and neither answers nor reads its input.
fn says(alloc: Global, settings: &[u8], fault: &[u8]) -> bool {
    let mut reader = settings;
    let mut input = b"position\n".as_slice();
    let mut answers = Vec::new(alloc);
    let mut faults = Vec::new(alloc);
    let status = site_over(alloc, &mut reader, &mut input, &mut answers, &mut faults);
    status == 1 && answers.is_empty() && input.len() == 9 && faults.as_slice() == fault
}

/// Settings at fault end a site before it reads its input.
#[test]
fn settings_at_fault_are_told(rt: HostRuntime) {
    let alloc = rt.alloc();
    for (at, (lines, fault)) in FAULTS.iter().enumerate() {
        let settings = joined(&rt, alloc, lines);
        let said = joined(&rt, alloc, &[*fault]);
        let met = says(alloc, &settings, &said);
        assert!(rt; met, "{at}");
    }
}
