//! A step.

/// A call on the core, with its arguments.
#[derive(Drop)]
pub enum Step<R> {
    /// A source sends its next record.
    Read(u32),
    /// A task claims the record at the head of an input, and the job is put at the desk.
    Claim(u32, u32),
    /// A task claims so many records of an input at most, and the job is put at the desk.
    ClaimSome(u32, u32, u32),
    /// The job of this number leaves the desk, is done, and what was done is handed in.
    Finish(u32),
    /// A task takes the barrier at the head of an input.
    Barrier(u32, u32),
    Trigger,
    /// A source copies its offset and sends the barrier.
    Inject(u32),
    /// A task's part is put in the store.
    Persist(u32),
    /// So many entries of the work on a task's part are done, or the part is put in the store.
    PersistSome(u32, u32),
    Complete,
    /// A sink subtask commits.
    Commit(u32),
    /// The pending checkpoint is completed, and committed by every sink.
    Settle,
    /// The job is drained, with so many turns.
    Drain(u64),
    Fail,
    Restart,
    /// A record is put last in a partition.
    Append(u32, R),
}
