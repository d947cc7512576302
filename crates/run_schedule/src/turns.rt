//! The turns of a run: what is done at each, and what its outcome means for the next.

ghost use Rattle.std.specs.Prelude.{◌≤◌};

use crate::fault::RunFault;
use crate::schedule::{End, HandedOut, Schedule, Step};
use alignment::Effect;
use engine_model::{CoreFault, Persisted};
use schedule_parts::Place;

/// The turns of the present run.
#[derive(Drop)]
pub struct Turns {
    schedule: Schedule,
    /// How many are left.
    left: u64,
    /// How many restarts are left.
    restarts: u64,
    /// How many workers are awake: at least one, while the run lasts.
    awake: u64,
    /// How the run has ended, once it has.
    end: Option<Result<(), RunFault>>,
}

impl Turns {
    /// No turn, before the first run.
    pub fn new(schedule: Schedule) -> Turns {
        Turns {
            schedule,
            left: 0,
            restarts: 0,
            awake: 0,
            end: None,
        }
    }

    /// A run of so many turns and restarts begins, by so many workers, all of whom are awake. A
    /// checkpoint is triggered after every so many records that were worked, or at the end alone
    /// where that is 0. An operator's claims are of so many records at first.
    pub fn begin(&mut self, workers: u64, every: u64, turns: u64, restarts: u64, batch: u32)
        requires { 1 ≤ batch }
    {
        self.schedule.begin(every, batch);
        self.left = turns;
        self.restarts = restarts;
        self.awake = workers;
        self.end = None;
    }

    /// One turn of a worker, counted from 0: the step that is to be made.
    pub fn choose(&mut self, worker: u32) -> Step {
        if self.end.is_some() {
            return Step::Over;
        }
        let step = self.schedule.next(worker);
        if step == Step::Over {
            self.end = Some(Ok(()));
        } else if self.left == 0 {
            self.stop(RunFault::TurnsSpent);
            return Step::Over;
        } else {
            self.left -= 1;
        }
        step
    }

    /// How many records a task takes next, at most: an operator's a batch at first, and more while
    /// there are more.
    pub fn most(&self, task: u32) -> u32
        ensures { 1 ≤ result }
    {
        self.schedule.most(task)
    }

    /// How many records a source sends in one turn, at most.
    pub fn reads(&self) -> u32
        ensures { 1 ≤ result }
    {
        self.schedule.reads()
    }

    /// How many of so many workers can be of use.
    pub fn useful(&self, workers: usize) -> usize
        requires { 1 ≤ workers }
        ensures { (1 ≤ result) × (result ≤ workers) }
    {
        self.schedule.useful(workers)
    }

    /// How many turns are left.
    pub fn left(&self) -> u64 {
        self.left
    }

    /// How the run has ended. Where its workers have left before it was over, its turns are spent.
    pub fn end(&mut self) -> Result<(), RunFault> {
        if let Some(end) = self.end {
            return end;
        }
        if self.schedule.next(0) == Step::Over {
            Ok(())
        } else {
            Err(RunFault::TurnsSpent)
        }
    }

    /// The run ends by a refusal.
    fn stop(&mut self, fault: RunFault) {
        self.end = Some(Err(fault));
    }

    /// A worker wants to rest. Whether it may: where another one is awake.
    pub fn rests(&mut self) -> bool {
        if self.awake < 2 {
            return false;
        }
        self.awake -= 1;
        true
    }

    /// Whether the run is over.
    pub fn is_over(&self) -> bool {
        self.end.is_some()
    }

    /// A worker has rested.
    pub fn wakes(&mut self) {
        self.awake = self.awake.saturating_add(1);
    }

    /// Whether barriers of a pending checkpoint may stand at the heads of inputs.
    pub fn awaits_barriers(&self) -> bool {
        self.schedule.awaits_barriers()
    }

    /// How many tasks there are.
    pub fn tasks(&self) -> usize {
        self.schedule.tasks()
    }

    /// On how many channels a task sends.
    pub fn ends_of(&self, task: u32) -> usize {
        self.schedule.ends_of(task)
    }

    /// A channel that a task sends on, of those counted from 0.
    pub fn end_of(&self, task: u32, number: usize) -> Option<End> {
        self.schedule.end_of(task, number)
    }

    /// An input may have something.
    pub fn mark(&mut self, place: Place) {
        self.schedule.mark(place);
    }

    /// Those that a task sends to were told of what stands in so many of its channels.
    pub fn told(&mut self, task: u32, channels: usize) {
        self.schedule.told(task, channels);
    }

    /// What came of a source's turn: it has sent so many records, and then this. That it has no
    /// more is found out by its next turn, where it has sent one.
    pub fn read(&mut self, task: u32, records: u32, outcome: Result<(), CoreFault>) {
        if records > 0 {
            self.schedule.read(records);
        }
        match outcome {
            Ok(()) => {}
            Err(CoreFault::NotReady) if records > 0 => {}
            Err(fault) => self.refused(Step::Read(task), fault),
        }
    }

    /// What came of a step that is no record's, and no call for a task's part.
    pub fn made(&mut self, step: Step, outcome: Result<(), CoreFault>) {
        match outcome {
            Ok(()) => self.accepted(step),
            Err(fault) => self.refused(step, fault),
        }
    }

    /// A worker holds a task's claim of so many records, of the input that was chosen.
    pub fn claimed(&mut self, worker: u32, task: u32, records: u64) {
        self.schedule.claimed(worker, task, records);
    }

    /// A task's job of so many records of this input was taken: whether its worker claims there
    /// again at once, as it would by its next turn. Then the task holds that claim already.
    pub fn goes_on(&mut self, place: Place, records: u64) -> bool {
        self.schedule.worked(place.task, records);
        if self.end.is_none() && self.left > 0 && self.schedule.goes_on(place) {
            return true;
        }
        self.schedule.unclaimed(place.task);
        false
    }

    /// The turn of a worker that claims again at once.
    pub fn go_on(&mut self) {
        self.left = self.left.saturating_sub(1);
    }

    /// A worker that claims again at once holds a claim of so many records.
    pub fn claimed_on(&mut self, task: u32, records: u64) {
        self.schedule.claimed_on(task, records);
    }

    /// A task that was to be claimed from again at once is not.
    pub fn lets_go(&mut self, task: u32) {
        self.schedule.unclaimed(task);
    }

    /// What came of a task's job of so many records. A result that comes too late is dropped.
    pub fn finished(&mut self, task: u32, outcome: Result<(), CoreFault>, records: u64) {
        match outcome {
            Ok(()) => {
                self.schedule.unclaimed(task);
                self.schedule.worked(task, records);
            }
            Err(CoreFault::Stale | CoreFault::NotRunning) => {}
            Err(CoreFault::Memory) => self.stop(RunFault::Memory),
            Err(CoreFault::Device) => self.went_down(),
            Err(fault) => self.stop(RunFault::Core(fault)),
        }
    }

    /// Counts the turn of a worker that waits with its job. False where the run is over, or no turn
    /// is left.
    pub fn wait(&mut self) -> bool {
        if self.end.is_some() {
            return false;
        }
        if self.left == 0 {
            self.stop(RunFault::TurnsSpent);
            return false;
        }
        self.left -= 1;
        true
    }

    /// What came of a task's taking of a barrier.
    pub fn took_barrier(&mut self, place: Place, outcome: Result<Effect, CoreFault>) {
        match outcome {
            Ok(Effect::Blocked) => self.schedule.blocked_by_barrier(place.task),
            Ok(effect) => {
                let is_copy = matches!(effect, Effect::Copy | Effect::CopyAndDone);
                let is_done = matches!(effect, Effect::Done | Effect::CopyAndDone);
                self.schedule.took_barrier(place.task, is_copy, is_done);
            }
            Err(fault) => self.refused(Step::Work(place), fault),
        }
    }

    /// Whether a task's copy, for which its part's turn has come, may be written by a worker with
    /// nothing held.
    pub fn may_hand_out(&self, task: u32) -> bool {
        self.schedule.may_hand_out(task)
    }

    /// A worker writes so many entries of this copy with nothing held.
    pub fn handed_out(&mut self, worker: u32, task: u32, entries: u64) -> HandedOut {
        self.schedule.handed_out(worker, task, entries)
    }

    /// A worker has written a copy, as far as there was memory for that.
    pub fn handed_in(&mut self, copy: HandedOut) {
        self.schedule.handed_in(copy);
    }

    /// What came of a call for a task's part.
    pub fn persisted(&mut self, task: u32, outcome: Result<Persisted, CoreFault>) {
        match outcome {
            Ok(Persisted::More) => self.schedule.has_more(),
            Ok(Persisted::Done) => self.schedule.persisted(true),
            Err(fault) => self.refused(Step::Persist(task), fault),
        }
    }

    fn accepted(&mut self, step: Step) {
        match step {
            Step::Restart => self.schedule.restarted(),
            Step::Trigger => self.schedule.triggered(true),
            Step::Inject(task) => self.schedule.injected(task, true),
            Step::Complete => self.schedule.completed(),
            Step::Commit(_) => self.schedule.committed(),
            Step::Read(_) | Step::Persist(_) | Step::Work(_) => {}
            Step::Over | Step::Idle | Step::Look | Step::Tell(_) => {}
        }
    }

    /// A step was refused.
    pub fn refused(&mut self, step: Step, fault: CoreFault) {
        match fault {
            CoreFault::Memory => self.stop(RunFault::Memory),
            CoreFault::NumbersSpent | CoreFault::BadSnapshot => self.stop(RunFault::Core(fault)),
            CoreFault::Device | CoreFault::NotRunning => self.went_down(),
            CoreFault::CommitFault | CoreFault::Stale => {}
            CoreFault::NoCheckpoint => self.schedule.has_no_checkpoint(),
            other => self.found_nothing(step, other),
        }
    }

    /// The job is restarted next, if a restart is left.
    fn went_down(&mut self) {
        if self.restarts == 0 {
            self.stop(RunFault::RestartsSpent);
        } else {
            self.restarts -= 1;
            self.schedule.went_down();
        }
    }

    /// A step had nothing to do.
    fn found_nothing(&mut self, step: Step, fault: CoreFault) {
        match step {
            Step::Restart => self.schedule.restarted(),
            Step::Trigger => self.schedule.triggered(false),
            Step::Inject(task) => self.schedule.injected(task, false),
            Step::Persist(_) => self.schedule.persisted(false),
            Step::Complete => self.stop(RunFault::Core(fault)),
            Step::Commit(_) => self.schedule.committed(),
            Step::Read(_) => self.schedule.had_no_record(),
            Step::Work(place) if fault == CoreFault::ChannelBlocked => {
                self.schedule.is_blocked(place.task);
            }
            Step::Work(place) => self.schedule.had_nothing(place.task),
            Step::Over | Step::Idle | Step::Look | Step::Tell(_) => {}
        }
    }
}
