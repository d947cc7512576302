//! A job's result is taken by the core, and counted in a book.

ghost use Rattle.std.specs.Prelude.{◌≡◌, ◌+◌, ◌<◌, ◌^◌, MatchResult};
ghost use Rattle.claims.specs.Carried.{given_of, records_of};
ghost use Rattle.dataflow_core.specs.Claims.{EndsFinish, FinishMoves, EndsAccepting, AcceptMoves, EndsAcceptingRows, RowsMove};
ghost use Rattle.dataflow_core.specs.Steps.{IsStep};
ghost use Rattle.counted_finishes.specs.Counting.{EndsAClaim, UsesASerial, SpendsASerial, Within};

use claims::Worked;
use commit_sink::Transactions;
use dataflow_core::{Core, CoreFault, Done, Rules};
use operators::Operator;
use snapshot_store::SnapshotStore;
use source_log::Partitions;
use std::sync::ledger::{Book, Ledger, Share};

/// Takes what was done of a job, as the core's own `finish` does, and adds the number of its
/// records to the share and the book where it is taken.
pub fn finish_counted<
    O: Operator,
    S: SnapshotStore,
    X: Transactions,
    P: Partitions<Record = O::Record>,
    L: Ledger,
>(
    core: &mut Core<O, S, X, P>,
    book: &mut Book<L>,
    share: &mut Share<L>,
    done: Done<O>,
) -> Result<(), CoreFault>
    requires parts { 0 < share.old.parts }
    requires within { Within book.old.total core.old }
    ensures within { Within book.new.total core.new }
    ensures ends { EndsFinish core.old ⟦<O as Rules>⟧.lang core.new done.attempt done.serial
        done.worked result }
    ensures step { IsStep ⟦<O as Rules>⟧.all core.old.engine core.new.engine }
    ensures plain { FinishMoves core.old ⟦<O as Rules>⟧.lang core.new done.attempt
        done.serial done.worked result }
    ensures total { MatchResult result (λ _. book.new.total ≡ book.old.total
        + records_of (given_of done.worked)) (λ _. book.new.total ≡ book.old.total) }
    ensures amount { MatchResult result (λ _. share.new.amount ≡ share.old.amount
        + records_of (given_of done.worked)) (λ _. share.new.amount ≡ share.old.amount) }
    ensures bound { share.new.amount < 2 ^ 128 }
    ensures parts { share.new.parts ≡ share.old.parts }
{
    let records = done.records();
    let finished = finish(core, done);
    if finished.is_ok() {
        book.add(share, records);
    }
    core.serials_bound();
    book.audit(share);
    finished
}

/// The core's own `finish`. A claim ends where the result is taken.
fn finish<O: Operator, S: SnapshotStore, X: Transactions, P: Partitions<Record = O::Record>>(
    core: &mut Core<O, S, X, P>,
    done: Done<O>,
) -> Result<(), CoreFault>
    ensures ends { EndsFinish core.old ⟦<O as Rules>⟧.lang core.new done.attempt done.serial
        done.worked result }
    ensures step { IsStep ⟦<O as Rules>⟧.all core.old.engine core.new.engine }
    ensures plain { FinishMoves core.old ⟦<O as Rules>⟧.lang core.new done.attempt
        done.serial done.worked result }
    ensures claims { EndsAClaim core.old core.new result }
{
    core.finish(done)
}

/// Takes what was made of a task's work with no claim, as the core's own `accept` does, and adds
/// the number of its records to the share and the book where it is taken.
pub fn accept_counted<
    O: Operator,
    S: SnapshotStore,
    X: Transactions,
    P: Partitions<Record = O::Record>,
    L: Ledger,
>(
    core: &mut Core<O, S, X, P>,
    book: &mut Book<L>,
    share: &mut Share<L>,
    task: u32,
    input: u32,
    worked: Worked<O>,
) -> Result<(), CoreFault>
    requires parts { 0 < share.old.parts }
    requires within { Within book.old.total core.old }
    ensures within { Within book.new.total core.new }
    ensures ends { EndsAccepting core.old ⟦<O as Rules>⟧.lang core.new task input worked result }
    ensures step { IsStep ⟦<O as Rules>⟧.all core.old.engine core.new.engine }
    ensures plain { AcceptMoves core.old ⟦<O as Rules>⟧.lang core.new task input worked result }
    ensures total { MatchResult result (λ _. book.new.total ≡ book.old.total
        + records_of (given_of worked)) (λ _. book.new.total ≡ book.old.total) }
    ensures amount { MatchResult result (λ _. share.new.amount ≡ share.old.amount
        + records_of (given_of worked)) (λ _. share.new.amount ≡ share.old.amount) }
    ensures bound { share.new.amount < 2 ^ 128 }
    ensures parts { share.new.parts ≡ share.old.parts }
{
    let records = worked.records() as u64;
    let accepted = accept(core, task, input, worked);
    if accepted.is_ok() {
        book.add(share, records);
    }
    core.serials_bound();
    book.audit(share);
    accepted
}

/// The core's own `accept`. A serial is used up where the result is taken.
fn accept<O: Operator, S: SnapshotStore, X: Transactions, P: Partitions<Record = O::Record>>(
    core: &mut Core<O, S, X, P>,
    task: u32,
    input: u32,
    worked: Worked<O>,
) -> Result<(), CoreFault>
    ensures ends { EndsAccepting core.old ⟦<O as Rules>⟧.lang core.new task input worked result }
    ensures step { IsStep ⟦<O as Rules>⟧.all core.old.engine core.new.engine }
    ensures plain { AcceptMoves core.old ⟦<O as Rules>⟧.lang core.new task input worked result }
    ensures serials { UsesASerial core.old core.new result }
{
    core.accept(task, input, worked)
}

/// Takes what was made of the work on several records of a sink with no claim, as the core's own
/// `accept_rows` does, and adds the number of those that were taken to the share and the book.
pub fn accept_rows_counted<
    O: Operator,
    S: SnapshotStore,
    X: Transactions,
    P: Partitions<Record = O::Record>,
    L: Ledger,
>(
    core: &mut Core<O, S, X, P>,
    book: &mut Book<L>,
    share: &mut Share<L>,
    task: u32,
    input: u32,
    ahead: Vec<Worked<O>>,
) -> (u64, Result<(), CoreFault>)
    requires parts { 0 < share.old.parts }
    requires within { Within book.old.total core.old }
    ensures within { Within book.new.total core.new }
    ensures ends { EndsAcceptingRows core.old ⟦<O as Rules>⟧.lang core.new task input ahead.items
        result.0 result.1 }
    ensures step { IsStep ⟦<O as Rules>⟧.all core.old.engine core.new.engine }
    ensures plain { RowsMove core.old ⟦<O as Rules>⟧.lang core.new task input result.0 }
    ensures total { book.new.total ≡ book.old.total + result.0 }
    ensures amount { share.new.amount ≡ share.old.amount + result.0 }
    ensures bound { share.new.amount < 2 ^ 128 }
    ensures parts { share.new.parts ≡ share.old.parts }
{
    let (records, end) = accept_rows(core, task, input, ahead);
    book.add(share, records);
    core.serials_bound();
    book.audit(share);
    (records, end)
}

/// The core's own `accept_rows`. A serial is used up where a record is taken.
fn accept_rows<O: Operator, S: SnapshotStore, X: Transactions, P: Partitions<Record = O::Record>>(
    core: &mut Core<O, S, X, P>,
    task: u32,
    input: u32,
    ahead: Vec<Worked<O>>,
) -> (u64, Result<(), CoreFault>)
    ensures ends { EndsAcceptingRows core.old ⟦<O as Rules>⟧.lang core.new task input ahead.items
        result.0 result.1 }
    ensures step { IsStep ⟦<O as Rules>⟧.all core.old.engine core.new.engine }
    ensures plain { RowsMove core.old ⟦<O as Rules>⟧.lang core.new task input result.0 }
    ensures serials { SpendsASerial core.old core.new result.0 }
{
    let (records, end) = core.accept_rows(task, input, ahead);
    prove!(records <= u64::MAX);
    (records, end)
}
