//! Tests of how a fault is printed.

use refusals::{Fault, Refusal};
use test_devices::is_told;

// Returns a fault with or without a line.
fn fault(line: Option<u64>, refusal: Refusal) -> Fault {
    Fault { line, refusal }
}

#[test]
fn faults_are_shown(rt: HostRuntime) {
    let shown = format!(in rt.alloc();
        "{}, {}, {}, {}",
        fault(None, Refusal::Io),
        fault(None, Refusal::EndMemory),
        fault(None, Refusal::NoThread),
        fault(Some(4), Refusal::Busy)
    )
    .expect(&rt, "memory");
    let wanted = "1 Io, 20 Memory, 38 NoThread, line 4: 24 Busy";
    assert!(rt; is_told(&rt, shown.as_str(), wanted, "faults"));
}
