//! A device of which each second call fails, up to the fourth.

use operators::Row;
use source_log::{FlakyLog, MemoryLog, Partitions, SourceFault};
use std::process::Abort;
use std::test::Fail;

/// What six reads of an empty log come to.
const READS: [Option<SourceFault>; 6] = [
    None,
    Some(SourceFault::Fault),
    None,
    Some(SourceFault::Fault),
    None,
    None,
];

fn expect_reads<P: Partitions>(rt: &impl Abort, log: &mut P) {
    for wanted in READS {
        assert_eq!(rt; log.read(0, 0).err(), wanted);
    }
    assert_eq!(rt; log.faults(), 2);
}

#[test]
fn each_second_call_of_a_log_fails(rt: HostRuntime) -> Result<(), Fail> {
    let mut log = FlakyLog::new(MemoryLog::<Row>::new(rt.alloc(), 1)?);
    log.every(2, 4);
    expect_reads(&rt, &mut log);
    Ok(())
}
