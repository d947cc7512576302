//! Which step comes next.

ghost use Rattle.std.specs.Prelude.{◌≤◌};

use schedule_parts::{Inputs, Need, Place, RankSet, Round};
use std::collections::VecDeque;

/// A step of a run.
#[derive(Clone, Copy, PartialEq, Eq, Debug)]
pub enum Step {
    /// Nothing is left to do.
    Over,
    /// Nothing is to be had until a claim ends.
    Idle,
    /// Every channel is looked at, and the next choice knows in which something stands.
    Look,
    /// The job is restarted.
    Restart,
    /// A checkpoint begins.
    Trigger,
    /// A source task sends the barrier.
    Inject(u32),
    /// Some work on a task's part, or the part is put in the store.
    Persist(u32),
    /// The checkpoint becomes complete.
    Complete,
    /// A sink subtask commits.
    Commit(u32),
    /// A source task sends records.
    Read(u32),
    /// A task takes what stands at the head of an input.
    Work(Place),
    /// Those that a task sends to are told of what it has sent.
    Tell(u32),
}

/// A channel that a task sends on.
#[derive(Clone, Copy, PartialEq, Eq, Debug)]
pub struct End {
    /// The channel's number.
    pub channel: u32,
    /// The input that it is.
    pub place: Place,
}

/// A task as the schedule sees it.
#[derive(Drop)]
pub(crate) struct Node {
    /// Its place in the graph's order: behind the senders of its unmarked inputs.
    pub(crate) rank: u32,
    pub(crate) inputs: Inputs,
    /// The channels that it sends on.
    pub(crate) ends: Vec<End>,
    /// So many records that it sends are about one for each end.
    pub(crate) spread: usize,
    /// How many records it has worked or read since those it sends to were told.
    pub(crate) sent: usize,
    /// After so many they are told, in the present run.
    pub(crate) enough: usize,
    /// Whether it holds a claim.
    pub(crate) is_busy: bool,
    /// Whether it is a sink's.
    pub(crate) is_sink: bool,
    /// Whether it is an operator's.
    pub(crate) is_operator: bool,
    /// Twice as many records as its last claim had.
    pub(crate) twice_as_many: u32,
    /// The worker that claimed from it last, from 0.
    pub(crate) worker: u32,
}

/// A task's copy that is written elsewhere, since the job was restarted so often.
#[derive(Clone, Copy, PartialEq, Eq, Debug)]
pub struct HandedOut {
    task: u32,
    restarts: u64,
}

impl Node {
    /// After so many records those that it sends to are told, where these records go into so many
    /// channels: about as many for each channel as a task takes at once, but no more in all than
    /// 4,096, or 2,048 of a source, so that what waits in channels stays small however many there
    /// are; and no fewer than there are ends, so that telling costs the same for each record.
    fn enough_of(&self, channels: usize) -> usize {
        let most = if self.is_operator {
            MOST_UNTOLD
        } else {
            MOST_READ_UNTOLD
        };
        let of_channels = channels.saturating_mul(MOST_AT_ONCE as usize);
        self.ends.len().max(of_channels.min(most))
    }
}

/// An operator sends so many records before those that it sends to are asked for them, at most.
const MOST_UNTOLD: usize = 4096;

/// So many of a source's, of which there are few.
const MOST_READ_UNTOLD: usize = 2048;

/// A source sends so many records in one turn, at most.
const MOST_READS: u32 = 128;

/// A task takes so many records at a time, at most, whatever the batch is. For more, what a job has
/// looked up is no longer in a cache when its result is taken.
const MOST_AT_ONCE: u32 = 256;

/// What may have something, so that the next step is found in the same time whatever the number of
/// tasks and channels. The task that stands furthest downstream comes first, so channels stay
/// short.
#[derive(Drop)]
pub struct Schedule {
    nodes: Vec<Node>,
    /// The task of each rank.
    order: Vec<u32>,
    /// Which tasks are sources.
    all_sources: Vec<u32>,
    /// The ranks of tasks that hold no claim and have an input that may have something.
    ready: RankSet,
    /// The ranks of tasks that have sent since those they send to were told, and too few records to
    /// tell them again.
    senders: RankSet,
    /// The ranks of tasks that have sent enough records.
    due: RankSet,
    /// The sources that may have a record, in turn.
    sources: VecDeque<u32>,
    round: Round,
    /// How many claims are held.
    claims: u64,
    /// The ranks of tasks that have a full input.
    full: RankSet,
    /// An operator's task takes so many records at a time at first.
    batch: u32,
    /// How many records are worked between triggers: 0 for any number.
    every: u64,
    /// How many were since the last one.
    finished: u64,
    /// How often the job was restarted.
    restarts: u64,
    /// Whether a restart comes next.
    is_down: bool,
    /// Whether every channel is looked at next: what stands in them isn't known.
    is_unseen: bool,
    /// Whether every channel was looked at since a record last moved.
    is_searched: bool,
    /// Whether the checkpoint that was triggered last is of a job at rest.
    is_last: bool,
    ghost some: { 1 ≤ batch },
}

impl Schedule {
    /// Over these tasks. The queues have room for every task.
    pub(crate) fn over(
        nodes: Vec<Node>,
        order: Vec<u32>,
        all_sources: Vec<u32>,
        sources: VecDeque<u32>,
        round: Round,
    ) -> Schedule {
        Schedule {
            nodes,
            order,
            all_sources,
            ready: RankSet::new(),
            senders: RankSet::new(),
            due: RankSet::new(),
            sources,
            round,
            claims: 0,
            full: RankSet::new(),
            batch: 1,
            every: 0,
            finished: 0,
            restarts: 0,
            is_down: true,
            is_unseen: false,
            is_searched: false,
            is_last: false,
        }
    }

    /// A run begins, and a restart comes first. A task tells at first as if it sent into one channel
    /// alone: which ones its records go into shows when it tells.
    pub(crate) fn begin(&mut self, every: u64, batch: u32)
        requires { 1 ≤ batch }
    {
        self.every = every;
        self.round.start(every);
        self.batch = batch.min(MOST_AT_ONCE);
        for node in self.nodes.iter_mut() {
            node.enough = node.enough_of(1);
            node.twice_as_many = 0;
        }
        self.went_down();
    }

    /// How many records a task takes next, at most: an operator's a batch, or twice as many as its
    /// last claim had, if that is more. So claims grow while there are records for them.
    pub(crate) fn most(&self, task: u32) -> u32
        ensures { 1 ≤ result }
    {
        match self.nodes.get(task as usize) {
            Some(node) if node.is_sink => MOST_AT_ONCE,
            Some(node) => self.batch.max(node.twice_as_many),
            None => self.batch,
        }
    }

    /// How many records a source sends in one turn, at most: one between two pieces of a copy that
    /// has time and is written here, so that its pieces come soon.
    pub(crate) fn reads(&self) -> u32
        ensures { 1 ≤ result }
    {
        let is_late = self.round.is_late() || self.round.is_shared();
        let has_time = self.round.next().is_some() && !is_late;
        if has_time && !self.awaits_records() {
            1
        } else {
            MOST_READS
        }
    }

    /// Whether the barriers of the checkpoint wait for records.
    fn awaits_records(&self) -> bool {
        self.round.awaits_records(self.finished)
    }

    /// How many of so many workers can be of use: a task works one claim at a time, so it is as
    /// many as there are operators' tasks, or sinks, if these are more.
    pub(crate) fn useful(&self, workers: usize) -> usize
        requires { 1 ≤ workers }
        ensures { (1 ≤ result) × (result ≤ workers) }
    {
        let operators = self.nodes.iter().filter(|node| node.is_operator).count();
        let sinks = self.nodes.iter().filter(|node| node.is_sink).count();
        operators.max(sinks).max(1).min(workers)
    }

    /// The job is down.
    pub(crate) fn went_down(&mut self) {
        self.is_down = true;
        self.is_last = false;
    }

    /// The next step, for this worker.
    pub(crate) fn next(&mut self, worker: u32) -> Step {
        if self.is_down {
            return Step::Restart;
        }
        if self.is_unseen {
            return self.look();
        }
        if self.is_last && self.round.is_none() {
            return Step::Over;
        }
        match self.round.next() {
            Some(need) => self.next_need(need, worker),
            None if self.is_due() => Step::Trigger,
            None => self.next_record(worker),
        }
    }

    /// The step for what the checkpoint needs. Its barriers wait for as many records as the keys of
    /// the last one ask for, or till the job is at rest, and where a part takes many steps, steps of
    /// records come between two of them, if they are to be had.
    fn next_need(&mut self, need: Need, worker: u32) -> Step {
        let awaits_records = self.awaits_records();
        if awaits_records || self.round.gives_way() {
            if let Some(step) = self.record_step(worker) {
                return step;
            }
        }
        if awaits_records {
            self.next_at_rest(step_for(need))
        } else {
            step_for(need)
        }
    }

    /// The first barrier of the pending checkpoint has waited for records, of which none is to be
    /// had. Where the job is at rest, that checkpoint is the last: its barriers go with this step.
    fn next_at_rest(&mut self, inject: Step) -> Step {
        if self.claims > 0 {
            return Step::Idle;
        }
        if !self.is_searched {
            return self.look();
        }
        self.is_last = true;
        inject
    }

    /// Every channel is looked at.
    fn look(&mut self) -> Step {
        self.is_unseen = false;
        self.is_searched = true;
        self.forget_all();
        Step::Look
    }

    fn is_due(&self) -> bool {
        self.every > 0 && self.finished >= self.every && self.round.is_none()
    }

    /// A step that takes a record or a barrier, or finds out where one is.
    fn record_step(&mut self, worker: u32) -> Option<Step> {
        if let Some(task) = self.first_of(&self.due) {
            return Some(Step::Tell(task));
        }
        if let Some(place) = self.next_input(worker) {
            return Some(Step::Work(place));
        }
        if self.claims > 0 && self.is_far_ahead() {
            return None;
        }
        if let Some(task) = self.sources.front() {
            return Some(Step::Read(*task));
        }
        self.next_sender()
    }

    /// Of the tasks that have sent since, the one furthest downstream tells of it.
    fn next_sender(&self) -> Option<Step> {
        Some(Step::Tell(self.first_of(&self.senders)?))
    }

    /// A step that takes a record or a barrier, and what is to be done where there is none.
    fn next_record(&mut self, worker: u32) -> Step {
        if let Some(step) = self.record_step(worker) {
            return step;
        }
        if self.claims > 0 {
            return Step::Idle;
        }
        if !self.is_searched {
            return self.look();
        }
        self.at_rest()
    }

    /// Whether enough was read ahead of the claims that are held: an input is full.
    fn is_far_ahead(&self) -> bool {
        self.full.greatest().is_some()
    }

    /// Of the ready tasks that this worker claimed from last, the one furthest downstream: it has
    /// their states in its cache.
    fn own_task(&self, worker: u32) -> Option<u32> {
        let mut others = self.ready;
        for _ in 0..self.nodes.len() {
            let rank = others.greatest()?;
            let task = self.task_at(rank)?;
            if self.is_own(task, worker) {
                return Some(task);
            }
            others.remove(rank);
        }
        None
    }

    /// Whether it was this worker who claimed from the task last.
    fn is_own(&self, task: u32, worker: u32) -> bool {
        let node = self.nodes.get(task as usize);
        node.is_some_and(|node| node.worker == worker)
    }

    /// The ready task that stands furthest downstream.
    fn first_task(&self) -> Option<u32> {
        self.first_of(&self.ready)
    }

    /// The task of a set that stands furthest downstream.
    fn first_of(&self, tasks: &RankSet) -> Option<u32> {
        self.task_at(tasks.greatest()?)
    }

    /// The first input of the worker's own task, or else of the one that stands furthest
    /// downstream.
    fn next_input(&self, worker: u32) -> Option<Place> {
        let first = self.first_task()?;
        let task = if self.is_own(first, worker) {
            first
        } else {
            self.own_task(worker).unwrap_or(first)
        };
        let input = self.nodes.get(task as usize)?.inputs.first()?;
        Some(Place { task, input })
    }

    fn task_at(&self, rank: u32) -> Option<u32> {
        self.order.get(rank as usize).copied()
    }

    /// A checkpoint of the job at rest; where one is pending, its end.
    fn at_rest(&mut self) -> Step {
        if self.round.is_pending() {
            return Step::Complete;
        }
        self.is_last = true;
        Step::Trigger
    }

    /// The job is up, and anything may be anywhere.
    pub(crate) fn restarted(&mut self) {
        self.is_down = false;
        self.restarts = self.restarts.wrapping_add(1);
        self.claims = 0;
        self.finished = 0;
        self.round.clear();
        for node in self.nodes.iter_mut() {
            node.is_busy = false;
        }
        self.is_unseen = true;
        self.moved();
    }

    /// Forgets what stands in channels. Every source may have a record.
    fn forget_all(&mut self) {
        self.ready.clear();
        self.senders.clear();
        self.due.clear();
        self.full.clear();
        for node in self.nodes.iter_mut() {
            node.sent = 0;
            node.inputs.clear();
        }
        self.sources.clear();
        for task in self.all_sources.iter() {
            let _ = self.sources.push_back(*task);
        }
    }

    /// A record has moved.
    fn moved(&mut self) {
        self.is_searched = false;
        self.is_last = false;
    }

    /// Marks the ends of the channels that a task sends on: a barrier stands in each, or there is
    /// but one. Into how many its records go this doesn't tell.
    fn mark_ends(&mut self, task: u32) {
        let ends = self.ends_of(task);
        for number in 0..ends {
            if let Some(end) = self.end_of(task, number) {
                self.mark(end.place);
            }
        }
        self.told_all(task);
    }

    /// How many tasks there are.
    pub(crate) fn tasks(&self) -> usize {
        self.nodes.len()
    }

    /// On how many channels a task sends.
    pub(crate) fn ends_of(&self, task: u32) -> usize {
        self.nodes
            .get(task as usize)
            .map_or(0, |node| node.ends.len())
    }

    /// A channel that a task sends on, of those counted from 0.
    pub(crate) fn end_of(&self, task: u32, number: usize) -> Option<End> {
        self.nodes.get(task as usize)?.ends.get(number).copied()
    }

    /// Those that a task sends to were told of what stands in so many of its channels. They are
    /// told again after as many records as these may take together.
    pub(crate) fn told(&mut self, task: u32, channels: usize) {
        if let Some(node) = self.nodes.get_mut(task as usize) {
            node.enough = node.enough_of(channels.clamp(1, node.spread.max(1)));
        }
        self.told_all(task);
    }

    /// Those that a task sends to were told of all that it has sent.
    fn told_all(&mut self, task: u32) {
        let Some(node) = self.nodes.get_mut(task as usize) else {
            return;
        };
        node.sent = 0;
        let rank = node.rank;
        self.senders.remove(rank);
        self.due.remove(rank);
    }

    /// An input may have something.
    pub(crate) fn mark(&mut self, place: Place) {
        if let Some(node) = self.nodes.get_mut(place.task as usize) {
            node.inputs.fill(place.input);
        }
        self.judge(place.task);
    }

    /// Whether a task is ready, and whether it has a full input, is said anew.
    fn judge(&mut self, task: u32) {
        let Some(node) = self.nodes.get(task as usize) else {
            return;
        };
        if node.inputs.is_full() {
            self.full.insert(node.rank);
        } else {
            self.full.remove(node.rank);
        }
        self.judge_ready(task);
    }

    /// Whether a task is ready is said anew.
    fn judge_ready(&mut self, task: u32) {
        let Some(node) = self.nodes.get(task as usize) else {
            return;
        };
        if node.is_busy || node.inputs.is_empty() {
            self.ready.remove(node.rank);
        } else {
            self.ready.insert(node.rank);
        }
    }

    /// A task may have sent for so many records. Once there may be enough in each of the channels
    /// that they go into, those that it sends to are told: at once where it sends on one channel
    /// alone, and else by the next step, which finds out on which. Who has sent fewer is among the
    /// senders.
    fn sent(&mut self, task: u32, records: u64) {
        let Some(node) = self.nodes.get_mut(task as usize) else {
            return;
        };
        node.sent = node.sent.saturating_add(records as usize);
        let (rank, is_enough, is_one) = (node.rank, node.sent >= node.enough, node.ends.len() < 2);
        if is_enough && is_one {
            self.mark_ends(task);
        } else if is_enough {
            self.due.insert(rank);
        } else {
            self.senders.insert(rank);
        }
    }

    /// A task has worked the records of its claim.
    pub(crate) fn worked(&mut self, task: u32, records: u64) {
        self.moved();
        self.finished = self.finished.saturating_add(records);
        self.sent(task, records);
    }

    /// A task's first input has nothing.
    pub(crate) fn had_nothing(&mut self, task: u32) {
        self.drop_first(task);
        self.judge(task);
    }

    /// A task's first input has nothing, or nothing any more.
    fn drop_first(&mut self, task: u32) {
        if let Some(node) = self.nodes.get_mut(task as usize) {
            node.inputs.drop_first();
        }
    }

    /// A task's first input waits for the barriers of others.
    pub(crate) fn is_blocked(&mut self, task: u32) {
        if let Some(node) = self.nodes.get_mut(task as usize) {
            node.inputs.block_first();
        }
        self.judge(task);
    }

    /// The next source has sent so many records.
    pub(crate) fn read(&mut self, records: u32) {
        self.moved();
        if let Some(task) = self.sources.pop_front() {
            let _ = self.sources.push_back(task);
            self.sent(task, records as u64);
        }
    }

    /// The next source has no record.
    pub(crate) fn had_no_record(&mut self) {
        let _ = self.sources.pop_front();
    }

    /// A checkpoint is pending: a new one, or one that others have begun.
    pub(crate) fn triggered(&mut self, is_new: bool) {
        self.finished = 0;
        self.is_searched = false;
        self.round.begin(&self.all_sources);
        if !is_new {
            self.is_last = false;
            self.round.begun_before();
            for task in self.order.iter() {
                self.round.copied(*task);
            }
        }
    }

    /// The next source has injected: now, or it had before.
    pub(crate) fn injected(&mut self, task: u32, is_new: bool) {
        self.is_searched = false;
        if self.round.injected() {
            self.finished = 0;
        }
        if is_new {
            self.round.copied(task);
            self.mark_ends(task);
        }
    }

    /// A task has taken the barrier of its first input, which waits for those of others now.
    pub(crate) fn blocked_by_barrier(&mut self, task: u32) {
        self.is_searched = false;
        self.is_blocked(task);
    }

    /// A task has taken the barrier of its first input, which goes on.
    pub(crate) fn took_barrier(&mut self, task: u32, is_copy: bool, is_done: bool) {
        self.is_searched = false;
        if let Some(node) = self.nodes.get_mut(task as usize) {
            node.inputs.turn();
            if is_copy || is_done {
                node.inputs.unblock();
            }
        }
        self.judge(task);
        if is_copy {
            self.mark_ends(task);
        }
        if is_done {
            self.round.copied(task);
        }
    }

    /// Work on the next part has gone on, and more is left of it.
    pub(crate) fn has_more(&mut self) {
        self.is_searched = false;
        self.round.has_more();
    }

    /// Whether the next copy may be written elsewhere: where the task holds no claim.
    pub(crate) fn may_hand_out(&self, task: u32) -> bool {
        let node = self.nodes.get(task as usize);
        node.is_some_and(|node| !node.is_busy)
    }

    /// A worker writes so many entries of the next copy, a task's, which works no record meanwhile.
    pub(crate) fn handed_out(&mut self, worker: u32, task: u32, entries: u64) -> HandedOut {
        self.is_searched = false;
        self.round.handed_out(entries);
        self.claims = self.claims.saturating_add(1);
        if let Some(node) = self.nodes.get_mut(task as usize) {
            node.worker = worker;
        }
        self.set_busy(task, true);
        HandedOut {
            task,
            restarts: self.restarts,
        }
    }

    /// A copy was written elsewhere. One from before a restart is dropped.
    pub(crate) fn handed_in(&mut self, copy: HandedOut) {
        if copy.restarts != self.restarts {
            return;
        }
        self.is_searched = false;
        self.unclaimed(copy.task);
        self.round.handed_in(copy.task);
    }

    /// The next part is in the store: now, or it was before.
    pub(crate) fn persisted(&mut self, is_new: bool) {
        self.is_searched = false;
        self.round.persisted(is_new);
    }

    pub(crate) fn completed(&mut self) {
        self.round.completed(self.every);
    }

    pub(crate) fn committed(&mut self) {
        self.round.committed();
    }

    /// Others have ended the checkpoint that was pending.
    pub(crate) fn has_no_checkpoint(&mut self) {
        self.is_searched = false;
        self.is_last = false;
        self.round.clear();
    }

    /// Whether barriers of a pending checkpoint may stand in channels.
    pub(crate) fn awaits_barriers(&self) -> bool {
        self.round.awaits_barriers()
    }

    /// A worker holds a task's claim of so many records of its first input, which comes last now.
    /// It is left out where the claim has all that it had, and no barrier may follow.
    pub(crate) fn claimed(&mut self, worker: u32, task: u32, records: u64) {
        self.claims = self.claims.saturating_add(1);
        if self.takes_all(task, records) {
            self.drop_first(task);
            self.judge(task);
        } else if let Some(node) = self.nodes.get_mut(task as usize) {
            node.inputs.turn();
        }
        if let Some(node) = self.nodes.get_mut(task as usize) {
            node.worker = worker;
        }
        self.took(task, records);
        self.set_busy(task, true);
    }

    /// A task's claim has so many records.
    fn took(&mut self, task: u32, records: u64) {
        if let Some(node) = self.nodes.get_mut(task as usize) {
            node.twice_as_many = twice(records);
        }
    }

    /// Whether a claim of so many records has all that its input had, and no barrier may follow.
    fn takes_all(&self, task: u32, records: u64) -> bool {
        records < self.most(task) as u64 && !self.awaits_barriers()
    }

    /// Whether a task whose claim has ended would be the next to claim from this input: nothing
    /// else comes before it. Then it goes on with the claim that it has, as the schedule sees it.
    pub(crate) fn goes_on(&mut self, place: Place) -> bool {
        let Some(node) = self.nodes.get(place.task as usize) else {
            return false;
        };
        let is_next = node.is_operator
            && node.inputs.is_only(place.input)
            && self.ready.is_below(node.rank)
            && self.due.greatest().is_none();
        is_next && !self.is_down && self.records_come_next()
    }

    /// Whether a step of a record comes next, if there is one. A piece of a copy that gives way has
    /// given way then.
    fn records_come_next(&mut self) -> bool {
        if self.round.is_none() || self.round.next().is_none() {
            return !self.is_due();
        }
        self.awaits_records() || self.round.gives_way()
    }

    /// An operator's task that goes on holds a claim of so many records of its only input. That is
    /// left out where the claim has all that it had, and no barrier may follow.
    pub(crate) fn claimed_on(&mut self, task: u32, records: u64) {
        if self.takes_all(task, records) {
            self.drop_first(task);
            self.judge(task);
        }
        self.took(task, records);
    }

    /// A task's claim has ended.
    pub(crate) fn unclaimed(&mut self, task: u32) {
        self.claims = self.claims.saturating_sub(1);
        self.set_busy(task, false);
    }

    fn set_busy(&mut self, task: u32, is_busy: bool) {
        if let Some(node) = self.nodes.get_mut(task as usize) {
            node.is_busy = is_busy;
        }
        self.judge_ready(task);
    }
}

/// Twice so many records, or as many as a task takes at once, if these are fewer.
fn twice(records: u64) -> u32 {
    let twice = records.saturating_mul(2);
    u32::try_from(twice).map_or(MOST_AT_ONCE, |twice| twice.min(MOST_AT_ONCE))
}

fn step_for(need: Need) -> Step {
    match need {
        Need::Inject(task) => Step::Inject(task),
        Need::Persist(task) => Step::Persist(task),
        Need::Complete => Step::Complete,
        Need::Commit(sink) => Step::Commit(sink),
    }
}
