//! The texts of faults: each is the fault's number and its name.

use commit_sink::TransactionFault;
use coordinator::CoordinatorFault;
use job_spec::JobFault;
use snapshot_store::StoreFault;
use source_log::SourceFault;
use std::alloc::Global;
use std::fmt::Display;
use std::process::Abort;
use std::test::Fail;

const COORDINATOR: [(CoordinatorFault, &str); 4] = [
    (CoordinatorFault::AlreadyPending, "O1 AlreadyPending"),
    (CoordinatorFault::NotPending, "O2 NotPending"),
    (CoordinatorFault::NotAllAcked, "O3 NotAllAcked"),
    (CoordinatorFault::AlreadyAcked, "O4 AlreadyAcked"),
];

const STORE: [(StoreFault, &str); 6] = [
    (StoreFault::Fault, "P1 Fault"),
    (StoreFault::NoSuchNumber, "P2 NoSuchNumber"),
    (StoreFault::AlreadyPut, "P3 AlreadyPut"),
    (StoreFault::MissingPart, "P4 MissingPart"),
    (StoreFault::NumberFull, "P5 NumberFull"),
    (StoreFault::Memory, "P6 Memory"),
];

const TRANSACTIONS: [(TransactionFault, &str); 6] = [
    (TransactionFault::Fault, "X1 Fault"),
    (TransactionFault::NotPreCommitted, "X2 NotPreCommitted"),
    (TransactionFault::NotOpen, "X3 NotOpen"),
    (TransactionFault::AlreadyCommitted, "X4 AlreadyCommitted"),
    (TransactionFault::NoSuchTransaction, "X5 NoSuchTransaction"),
    (TransactionFault::Memory, "X6 Memory"),
];

const SOURCE: [(SourceFault, &str); 4] = [
    (SourceFault::NoSuchPartition, "S1 NoSuchPartition"),
    (SourceFault::Fault, "S2 Fault"),
    (SourceFault::Full, "S3 Full"),
    (SourceFault::Memory, "S4 Memory"),
];

fn expect_texts<F: Display>(
    rt: &impl Abort,
    alloc: Global,
    faults: &[(F, &str)],
) -> Result<(), Fail> {
    for (fault, text) in faults {
        let shown = format!(in alloc; "{fault}")?;
        assert_eq!(rt; shown.as_str(), *text);
    }
    Ok(())
}

#[test]
fn a_fault_is_shown_by_number_and_name(rt: HostRuntime) -> Result<(), Fail> {
    let alloc = rt.alloc();
    expect_texts(&rt, alloc, &COORDINATOR)?;
    expect_texts(&rt, alloc, &STORE)?;
    expect_texts(&rt, alloc, &TRANSACTIONS)?;
    expect_texts(&rt, alloc, &SOURCE)?;
    expect_texts(&rt, alloc, &[(JobFault::Memory, "G13 Memory")])
}
