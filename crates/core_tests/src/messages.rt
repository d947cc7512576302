//! The texts of faults: each is the fault's number and its name.

use abs_codec::CodecFault;
use dataflow_core::CoreFault;
use recovery::RecoveryFault;
use std::alloc::Global;
use std::fmt::Display;
use std::process::Abort;
use std::test::Fail;

const RECOVERY: [(RecoveryFault, &str); 4] = [
    (RecoveryFault::Fault, "V1 Fault"),
    (RecoveryFault::MissingPart, "V2 MissingPart"),
    (RecoveryFault::Damaged(1, CodecFault::BadTag), "V3 Damaged"),
    (RecoveryFault::Memory, "V4 Memory"),
];

/// Those that no script comes to.
const CORE: [(CoreFault, &str); 2] = [
    (CoreFault::WrongResult, "K7 WrongResult"),
    (CoreFault::Memory, "K11 Memory"),
];

fn expect_texts<F: Display>(
    rt: &impl Abort,
    alloc: Global,
    faults: &[(F, &str)],
) -> Result<(), Fail> {
    for (fault, text) in faults {
        let shown = format!(in alloc; "{fault}")?;
        assert_eq!(rt; shown.as_str(), *text);
    }
    Ok(())
}

#[test]
fn a_fault_is_shown_by_number_and_name(rt: HostRuntime) -> Result<(), Fail> {
    let alloc = rt.alloc();
    expect_texts(&rt, alloc, &RECOVERY)?;
    expect_texts(&rt, alloc, &CORE)
}
