//! The parts of a checkpoint, as they stand in the store. Which of them are kept, and that one is
//! spelled as it was at the copy, stands in clauses and in tests/scripts.

use crate::cores::{expect_answers, opened};
use crate::devices::Devices;
use crate::jobs::{COUNT, EARLY, LINE, LONG_LOOP};
use std::alloc::Global;
use std::process::Abort;
use std::test::Fail;

/// A source at offset 0, an operator without states, and a sink with one pre-committed transaction,
/// of number 1.
const PARTS: [&[u8]; 3] = [
    &[0, 0, 0, 0, 0, 0, 0, 0, 0],
    &[1, 0, 0, 0, 0, 0, 0, 0, 0],
    &[2, 0, 0, 0, 1, 0, 0, 0, 0, 0, 0, 0, 1, 0, 0, 0, 0],
];

/// Checkpoint 1 of the line.
const CHECKPOINT: [(&str, &str); 9] = [
    ("restart", "ok 0"),
    ("trigger", "ok 1"),
    ("inject 0", "ok"),
    ("barrier 1 0", "ok copy-done"),
    ("barrier 2 0", "ok copy-done"),
    ("persist 0", "ok"),
    ("persist 1", "ok"),
    ("persist 2", "ok"),
    ("complete", "ok 1"),
];

/// The devices of a job after these steps.
fn devices_after(
    rt: &impl Abort,
    alloc: Global,
    job: &str,
    steps: &[(&str, &str)],
) -> Result<Devices, Fail> {
    let mut core = opened(alloc, job)?;
    expect_answers(rt, alloc, &mut core, steps)?;
    core.into_devices(alloc)
}

fn expect_part(rt: &impl Abort, devices: &mut Devices, task: u32, part: &[u8]) -> Result<(), Fail> {
    assert_eq!(rt; devices.part(1, task)?.as_slice(), part);
    Ok(())
}

/// The parts of checkpoint 1 stand as they are spelled.
fn expect_parts(rt: &impl Abort, devices: &mut Devices) -> Result<(), Fail> {
    for (task, part) in (0..3).zip(PARTS) {
        expect_part(rt, devices, task, part)?;
    }
    Ok(())
}

#[test]
fn parts_stand_as_they_are_spelled(rt: HostRuntime) -> Result<(), Fail> {
    let mut devices = devices_after(&rt, rt.alloc(), LINE, &CHECKPOINT)?;
    expect_parts(&rt, &mut devices)
}

/// The part of a task in checkpoint 1, after these steps of the job.
fn expect_part_after(
    rt: &impl Abort,
    alloc: Global,
    job: &str,
    steps: &[(&str, &str)],
    task: u32,
    part: &[u8],
) -> Result<(), Fail> {
    let mut devices = devices_after(rt, alloc, job, steps)?;
    expect_part(rt, &mut devices, task, part)
}

/// The operator that counts has counted one row of each input, and not the one behind the barrier.
#[test]
fn a_part_has_what_came_before_the_barriers(rt: HostRuntime) -> Result<(), Fail> {
    let steps = [
        ("append 0 1 a", "ok"),
        ("append 0 2 a", "ok"),
        ("append 1 5 a", "ok"),
        ("restart", "ok 0"),
        ("read 0", "ok"),
        ("trigger", "ok 1"),
        ("inject 0", "ok"),
        ("read 0", "ok"),
        ("work 2 0", "ok"),
        ("barrier 2 0", "ok blocked"),
        ("read 1", "ok"),
        ("work 2 1", "ok"),
        ("inject 1", "ok"),
        ("barrier 2 1", "ok copy-done"),
        ("work 2 0", "ok"),
        ("work 3 0", "ok"),
        ("work 3 0", "ok"),
        ("barrier 3 0", "ok copy-done"),
        ("persist 0", "ok"),
        ("persist 1", "ok"),
        ("persist 2", "ok"),
        ("persist 3", "ok"),
        ("complete", "ok 1"),
    ];
    let part: &[u8] = &[
        1, 0, 0, 0, 1, 0, 0, 0, 1, 0x61, 1, 0, 0, 0, 0, 0, 0, 0, 2, 0, 0, 0, 0,
    ];
    expect_part_after(&rt, rt.alloc(), COUNT, &steps, 2, part)
}

/// The row that went round between the copy and the barrier stands in the log of channel 2.
#[test]
fn a_part_has_what_went_round(rt: HostRuntime) -> Result<(), Fail> {
    let steps = [
        ("append 0 3 x", "ok"),
        ("restart", "ok 0"),
        ("read 0", "ok"),
        ("work 1 0", "ok"),
        ("work 2 0", "ok"),
        ("trigger", "ok 1"),
        ("inject 0", "ok"),
        ("barrier 1 0", "ok copy"),
        ("work 1 1", "ok"),
        ("barrier 2 0", "ok copy-done"),
        ("barrier 1 1", "ok done"),
        ("barrier 3 0", "ok copy-done"),
        ("persist 0", "ok"),
        ("persist 1", "ok"),
        ("persist 2", "ok"),
        ("persist 3", "ok"),
        ("complete", "ok 1"),
    ];
    let part: &[u8] = &[
        1, 0, 0, 0, 0, 0, 0, 0, 1, 0, 0, 0, 2, 0, 0, 0, 1, 0, 0, 0, 1, 0x78, 0, 0, 0, 0, 0, 0, 0, 2,
    ];
    expect_part_after(&rt, rt.alloc(), LONG_LOOP, &steps, 1, part)
}

/// The log of a back-edge whose barrier came early is empty, and stands in the part.
#[test]
fn an_early_barrier_leaves_an_empty_log(rt: HostRuntime) -> Result<(), Fail> {
    let steps = [
        ("append 0 1 k", "ok"),
        ("restart", "ok 0"),
        ("trigger", "ok 1"),
        ("inject 0", "ok"),
        ("barrier 1 0", "ok copy-done"),
        ("read 0", "ok"),
        ("work 1 0", "ok"),
        ("barrier 2 1", "ok blocked"),
        ("barrier 2 0", "ok copy-done"),
        ("work 2 1", "ok"),
        ("work 2 0", "ok"),
        ("barrier 3 0", "ok copy-done"),
        ("persist 0", "ok"),
        ("persist 1", "ok"),
        ("persist 2", "ok"),
        ("persist 3", "ok"),
        ("complete", "ok 1"),
    ];
    let part: &[u8] = &[1, 0, 0, 0, 0, 0, 0, 0, 1, 0, 0, 0, 2, 0, 0, 0, 0];
    expect_part_after(&rt, rt.alloc(), EARLY, &steps, 2, part)
}
