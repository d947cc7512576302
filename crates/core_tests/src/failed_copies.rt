//! Copies of a sink that fail half-way.

use crate::cores::{expect_answers, opened};
use crate::devices::Devices;
use crate::jobs::LINE;
use std::alloc::Global;
use std::process::Abort;
use std::test::Fail;

/// The devices after the line's sink has failed to copy, and the job has started again.
fn after_a_failed_copy(rt: &impl Abort, alloc: Global, fault: &str) -> Result<Devices, Fail> {
    let steps = [
        ("restart", "ok 0"),
        ("append 0 1 a", "ok"),
        ("read 0", "ok"),
        ("work 1 0", "ok"),
        ("work 2 0", "ok"),
        ("trigger", "ok 1"),
        ("inject 0", "ok"),
        ("barrier 1 0", "ok copy-done"),
        (fault, "ok"),
        ("barrier 2 0", "K12 Device"),
        ("restart", "ok 0"),
    ];
    let mut core = opened(alloc, LINE)?;
    expect_answers(rt, alloc, &mut core, &steps)?;
    core.into_devices(alloc)
}

/// A sink's copy begins a transaction and pre-commits the one before it. Where either fails, the
/// restart aborts both and begins the third: that one is open, and those before it are settled.
#[test]
fn a_restart_aborts_what_a_failed_copy_left(rt: HostRuntime) -> Result<(), Fail> {
    for fault in ["fault txn.begin after", "fault txn.pre_commit after"] {
        let mut devices = after_a_failed_copy(&rt, rt.alloc(), fault)?;
        let unsettled = devices.unsettled()?;
        assert_eq!(rt; unsettled.as_slice(), [(3, None)].as_slice());
    }
    Ok(())
}
