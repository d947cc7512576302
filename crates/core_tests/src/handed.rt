//! Cores over devices that were used before.

use crate::cores::{expect_answers, opened};
use crate::devices::Devices;
use crate::jobs::LINE;
use crate::lists::{almost_spent, store_of_lists};
use crate::test_core::TestCore;
use abs_codec::{Bytes, Map};
use std::alloc::Global;
use std::process::Abort;
use std::test::Fail;

/// A row goes into the sink, and into checkpoint 1.
const FIRST_CHECKPOINT: [(&str, &str); 13] = [
    ("append 0 1 a", "ok"),
    ("restart", "ok 0"),
    ("read 0", "ok"),
    ("work 1 0", "ok"),
    ("work 2 0", "ok"),
    ("trigger", "ok 1"),
    ("inject 0", "ok"),
    ("barrier 1 0", "ok copy-done"),
    ("barrier 2 0", "ok copy-done"),
    ("persist 0", "ok"),
    ("persist 1", "ok"),
    ("persist 2", "ok"),
    ("complete", "ok 1"),
];

/// The devices of a line that has worked one row and completed checkpoint 1, and has not committed.
fn used(rt: &impl Abort, alloc: Global) -> Result<Devices, Fail> {
    let mut core = opened(alloc, LINE)?;
    expect_answers(rt, alloc, &mut core, &FIRST_CHECKPOINT)?;
    core.into_devices(alloc)
}

/// A core that is opened over such devices goes on from them.
#[test]
fn a_core_goes_on_from_the_devices_of_another(rt: HostRuntime) -> Result<(), Fail> {
    let devices = used(&rt, rt.alloc())?;
    let mut core = TestCore::open(rt.alloc(), LINE, devices)?;
    expect_commit(&rt, rt.alloc(), &mut core)
}

/// Whether the core is fresh, and how many rows it has committed.
fn told(core: &TestCore) -> Result<(bool, u64), Fail> {
    Ok((core.is_fresh(), core.committed_len(0)?))
}

/// The restart commits the row of checkpoint 1, and there is none behind it.
fn expect_commit(rt: &impl Abort, alloc: Global, core: &mut TestCore) -> Result<(), Fail> {
    assert_eq!(rt; told(core)?, (false, 0));
    expect_answers(rt, alloc, core, &[("restart", "ok 1")])?;
    assert_eq!(rt; told(core)?, (false, 1));
    expect_answers(rt, alloc, core, &[("read 0", "K3 NotReady")])
}

/// The part of a task in checkpoint 1 begins with another byte.
fn damage(alloc: Global, devices: &mut Devices, task: u32, byte: u8) -> Result<(), Fail> {
    let mut part = devices.part(1, task)?;
    if let Some(first) = part.first_mut() {
        *first = byte;
    }
    Ok(devices.set_part(alloc, task, &part)?)
}

/// Checkpoint 1 has lost the part of task 1.
fn lose_a_part(alloc: Global, devices: &mut Devices) -> Result<(), Fail> {
    let mut parts = Map::new(alloc);
    parts.insert((1, 0), Bytes::from_vec(devices.part(1, 0)?))?;
    parts.insert((1, 2), Bytes::from_vec(devices.part(1, 2)?))?;
    devices.set_store(store_of_lists(alloc, parts)?);
    Ok(())
}

/// The devices after a restart that was refused.
fn refused(rt: &impl Abort, alloc: Global, devices: Devices) -> Result<Devices, Fail> {
    let mut core = TestCore::open(alloc, LINE, devices)?;
    expect_answers(rt, alloc, &mut core, &[("restart", "K15 BadSnapshot")])?;
    core.into_devices(alloc)
}

/// A restart over these devices is refused, and the transactions are as they were.
fn expect_refusal(rt: &impl Abort, alloc: Global, mut devices: Devices) -> Result<(), Fail> {
    let before = devices.unsettled()?;
    let mut devices = refused(rt, alloc, devices)?;
    let after = devices.unsettled()?;
    assert_eq!(rt; after.as_slice(), before.as_slice());
    assert_eq!(rt; devices.committed_len(), 0);
    Ok(())
}

/// The first byte of a part is another.
#[test]
fn a_damaged_part_is_refused_before_any_transaction(rt: HostRuntime) -> Result<(), Fail> {
    let alloc = rt.alloc();
    for (task, byte) in [
        (0, 1),
        (0, 2),
        (0, 3),
        (1, 0),
        (1, 2),
        (1, 255),
        (2, 0),
        (2, 1),
        (2, 3),
    ] {
        let mut devices = used(&rt, alloc)?;
        damage(alloc, &mut devices, task, byte)?;
        expect_refusal(&rt, alloc, devices)?;
    }
    Ok(())
}

/// A part has to be there for each task.
#[test]
fn a_missing_part_is_refused_before_any_transaction(rt: HostRuntime) -> Result<(), Fail> {
    let mut devices = used(&rt, rt.alloc())?;
    lose_a_part(rt.alloc(), &mut devices)?;
    expect_refusal(&rt, rt.alloc(), devices)
}

/// The part of a sink that names one transaction.
fn naming(transaction: u8) -> [u8; 17] {
    [2, 0, 0, 0, 1, 0, 0, 0, 0, 0, 0, 0, transaction, 0, 0, 0, 0]
}

/// Transaction 1 is pre-committed, 2 is open, and 0 and 9 were never given out.
#[test]
fn a_name_of_no_pre_committed_transaction_is_refused(rt: HostRuntime) -> Result<(), Fail> {
    let alloc = rt.alloc();
    for name in [0, 2, 9] {
        let mut devices = used(&rt, alloc)?;
        devices.set_part(alloc, 2, &naming(name))?;
        expect_refusal(&rt, alloc, devices)?;
    }
    let mut devices = used(&rt, alloc)?;
    devices.abort(1)?;
    expect_refusal(&rt, alloc, devices)
}

/// The line over a store that has the last number left.
fn almost_spent_line(alloc: Global) -> Result<TestCore, Fail> {
    let mut devices = Devices::new(alloc, LINE)?;
    devices.set_store(almost_spent(alloc)?);
    TestCore::open(alloc, LINE, devices)
}

/// The last number is given out once, and lost with the failure. The job runs on without
/// checkpoints.
#[test]
fn no_checkpoint_begins_without_a_number(rt: HostRuntime) -> Result<(), Fail> {
    let mut core = almost_spent_line(rt.alloc())?;
    let steps = [
        ("restart", "ok 0"),
        ("trigger", "ok 9223372036854775807"),
        ("fail", "ok"),
        ("restart", "ok 0"),
        ("trigger", "K14 NumbersSpent"),
        ("read 0", "K3 NotReady"),
    ];
    expect_answers(&rt, rt.alloc(), &mut core, &steps)
}
