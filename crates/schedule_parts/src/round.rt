//! How far the checkpoint is.

use std::collections::VecDeque;
use std::mem::replace;

/// What a checkpoint needs next.
#[derive(Clone, Copy, PartialEq, Eq, Debug)]
pub enum Need {
    /// This source task sends the barrier.
    Inject(u32),
    /// Some work on this task's part, or the part is put in the store.
    Persist(u32),
    /// The checkpoint becomes complete.
    Complete,
    /// This sink subtask commits.
    Commit(u32),
}

#[derive(Clone, Copy, PartialEq, Eq, Debug)]
enum Stage {
    /// None is pending, and what was complete is committed.
    None,
    Pending,
    /// It is complete, and sinks commit.
    Complete,
}

/// So many steps of records come between two pieces of a copy that would be late.
const MOST_STEPS: u64 = 128;

/// So many pieces are written with no step of records between, where copies are not late: a small
/// map is frozen for no claim.
const PIECES_AT_ONCE: u64 = 64;

/// A copy is late where it has a piece or more for so many records between two checkpoints.
const RECORDS_A_PIECE: u64 = 12;

/// A piece has so many entries.
const ENTRIES_A_PIECE: u64 = 256;

/// Between two checkpoints so many records are worked, at least, for each key of the former whose
/// state was written elsewhere.
const RECORDS_FOR_A_KEY: u64 = 2;

/// And in all so many for so many channels, since a checkpoint sends a barrier on each: 96 each.
const RECORDS_FOR_BARRIERS: u64 = 768;

/// So many channels. Fewer do not count.
const CHANNELS_TOGETHER: u64 = 8;

/// And so many where there are back-edges, since a checkpoint logs what waits in their channels,
/// however many these are.
const RECORDS_FOR_LOGS: u64 = 4_096;

/// The checkpoint that is made.
#[derive(Drop)]
pub struct Round {
    stage: Stage,
    to_inject: VecDeque<u32>,
    to_persist: VecDeque<u32>,
    /// Whether a source has injected, or may have.
    is_injected: bool,
    /// So many steps of records come between two pieces of a copy, where they are to be had: more
    /// where the last checkpoint had many pieces for the records between two of them. So what
    /// writing copies takes is a share of what records take, however many keys there are.
    steps: u64,
    /// How many of them come before work on the first copy goes on.
    steps_left: u64,
    /// How many pieces of copies were written behind which more is left.
    pieces: u64,
    /// How many entries were written elsewhere.
    entries_elsewhere: u64,
    /// Whether the first copy is back from elsewhere, and was not seen since.
    is_back: bool,
    /// The first barrier waits until so many records are worked after the trigger, so that writing
    /// copies takes a small share of what records take. No copy is there meanwhile, so that waiting
    /// costs nothing.
    records_waited: u64,
    /// How many parts are in the store.
    persisted: u32,
    /// The next sink to commit.
    sink: u32,
    tasks: u32,
    channels: u32,
    /// Whether some of these are of back-edges.
    is_cyclic: bool,
    sinks: u32,
}

impl Round {
    /// Over these queues, which have room for every task.
    pub fn new(
        to_inject: VecDeque<u32>,
        to_persist: VecDeque<u32>,
        tasks: u32,
        channels: u32,
        is_cyclic: bool,
        sinks: u32,
    ) -> Round {
        Round {
            stage: Stage::None,
            to_inject,
            to_persist,
            is_injected: false,
            steps: 1,
            steps_left: 0,
            pieces: 0,
            entries_elsewhere: 0,
            is_back: false,
            records_waited: 0,
            persisted: 0,
            sink: 0,
            tasks,
            channels,
            is_cyclic,
            sinks,
        }
    }

    /// Whether the last checkpoint had many pieces for the records between two of them.
    pub fn is_late(&self) -> bool {
        self.steps > 1
    }

    /// A run begins, with so many records between two checkpoints: the first comes when there were
    /// as many as its barriers ask for.
    pub fn start(&mut self, every: u64) {
        self.records_waited = self.records_between(0, every);
    }

    /// No checkpoint is pending.
    pub fn clear(&mut self) {
        self.stage = Stage::None;
        self.to_inject.clear();
        self.to_persist.clear();
        self.steps_left = 0;
    }

    /// A checkpoint begins.
    pub fn begin(&mut self, sources: &[u32]) {
        self.stage = Stage::Pending;
        self.to_inject.clear();
        self.to_persist.clear();
        self.is_injected = false;
        self.steps_left = 0;
        self.pieces = 0;
        self.entries_elsewhere = 0;
        self.is_back = false;
        self.persisted = 0;
        for &task in sources {
            let _ = self.to_inject.push_back(task);
        }
    }

    /// Whether none is pending, and all sinks have committed what was complete.
    pub fn is_none(&self) -> bool {
        self.stage == Stage::None
    }

    /// Whether one is pending.
    pub fn is_pending(&self) -> bool {
        self.stage == Stage::Pending
    }

    /// Whether barriers of one that is pending may stand in channels.
    pub fn awaits_barriers(&self) -> bool {
        self.is_pending() && self.is_injected
    }

    /// Others have begun the one that is pending, so sources may have injected.
    pub fn begun_before(&mut self) {
        self.is_injected = true;
    }

    /// What is needed next, if anything can be done for it now.
    pub fn next(&self) -> Option<Need> {
        match self.stage {
            Stage::None => None,
            Stage::Pending => self.next_part(),
            Stage::Complete => Some(Need::Commit(self.sink)),
        }
    }

    fn next_part(&self) -> Option<Need> {
        if let Some(task) = self.to_inject.front() {
            return Some(Need::Inject(*task));
        }
        if let Some(task) = self.to_persist.front() {
            return Some(Need::Persist(*task));
        }
        if self.persisted >= self.tasks {
            return Some(Need::Complete);
        }
        None
    }

    /// A task's copy is whole.
    pub fn copied(&mut self, task: u32) {
        let _ = self.to_persist.push_back(task);
    }

    /// The next source has injected, now or before. Whether it is the first is told.
    pub fn injected(&mut self) -> bool {
        let _ = self.to_inject.pop_front();
        !replace(&mut self.is_injected, true)
    }

    /// So many entries of the first copy are written elsewhere.
    pub fn handed_out(&mut self, entries: u64) {
        self.steps_left = 0;
        self.pieces = self.pieces.saturating_add(entries / ENTRIES_A_PIECE);
        self.entries_elsewhere = self.entries_elsewhere.saturating_add(entries);
        let _ = self.to_persist.pop_front();
    }

    /// Entries of a copy were written elsewhere, and it comes first.
    pub fn handed_in(&mut self, task: u32) {
        self.is_back = true;
        let _ = self.to_persist.push_front(task);
    }

    /// Work on the first copy has gone on, and more is left of it. One step of records comes after
    /// pieces that were written elsewhere, for which the task has waited.
    pub fn has_more(&mut self) {
        self.pieces = self.pieces.saturating_add(1);
        if self.is_late() || self.pieces >= PIECES_AT_ONCE {
            self.steps_left = if self.is_back { 1 } else { self.steps };
        }
        self.is_back = false;
    }

    /// Whether entries of this checkpoint's copies were written elsewhere.
    pub fn is_shared(&self) -> bool {
        self.entries_elsewhere > 0
    }

    /// Whether barriers wait for more records, of which so many were worked since the trigger.
    pub fn awaits_records(&self, worked: u64) -> bool {
        worked < self.records_waited && self.is_pending() && !self.is_injected
    }

    /// Whether a record has its turn before what is needed next. It has had one where it is asked.
    pub fn gives_way(&mut self) -> bool {
        let gives_way = self.steps_left > 0;
        self.steps_left = self.steps_left.saturating_sub(1);
        gives_way
    }

    /// The first copy is in the store, now or before.
    pub fn persisted(&mut self, is_new: bool) {
        self.steps_left = 0;
        let _ = self.to_persist.pop_front();
        if is_new {
            self.persisted = self.persisted.saturating_add(1);
        }
    }

    /// The checkpoint is complete, and the next one comes after so many records.
    pub fn completed(&mut self, every: u64) {
        let is_late = every > 0 && self.pieces.saturating_mul(RECORDS_A_PIECE) >= every;
        self.steps = if is_late { MOST_STEPS } else { 1 };
        self.records_waited = self.records_between(self.records_for_copies(), every);
        self.stage = Stage::Complete;
        self.sink = 0;
        self.end_if_committed();
    }

    fn records_for_copies(&self) -> u64 {
        self.entries_elsewhere.saturating_mul(RECORDS_FOR_A_KEY)
    }

    /// How many records barriers wait for, where copies ask for so many between two checkpoints:
    /// those that come before the trigger count.
    fn records_between(&self, for_copies: u64, every: u64) -> u64 {
        for_copies
            .saturating_add(self.records_for_barriers())
            .saturating_sub(every)
    }

    fn records_for_barriers(&self) -> u64 {
        let together = self.channels as u64 / CHANNELS_TOGETHER;
        let records = together.saturating_mul(RECORDS_FOR_BARRIERS);
        let logged = if self.is_cyclic { RECORDS_FOR_LOGS } else { 0 };
        records.saturating_add(logged)
    }

    /// The next sink has committed.
    pub fn committed(&mut self) {
        self.sink = self.sink.saturating_add(1);
        self.end_if_committed();
    }

    fn end_if_committed(&mut self) {
        if self.sink >= self.sinks {
            self.stage = Stage::None;
        }
    }
}
