//! Steps, one and many.

ghost use Rattle.std.specs.Prelude.{◌≡◌, ◌<◌, [], IfOk, IfErr};
ghost use Rattle.std.specs.List.{AllByRecursion};
ghost use Rattle.engine_model.specs.declared.fault.CoreFault.TheVariants as CoreFault;
ghost use Rattle.engine_model.specs.ExactlyOnce.{IsExactlyOnce};
ghost use Rattle.engine_model.specs.Sound.{IsSound};
ghost use Rattle.dataflow_core.specs.Claims.{Refuses};
ghost use Rattle.engine_steps.specs.Fitting.{StepFits};
ghost use Rattle.dataflow_core.specs.Runs.{EndsClaim, EndsFinishing, EndsAppend, EndsStep, IsRun};
ghost use Rattle.dataflow_core.specs.Steps.{Preserves};

use crate::calls::Core;
use crate::desks::Desk;
use crate::replies::{Reply, accepted, appended, copied, drained, numbered, persisted, restarted};
use abs_codec::Codec;
use commit_sink::Transactions;
use engine::CoreFault;
use engine_model::Rules;
use engine_steps::Step;
use operators::Operator;
use snapshot_store::SnapshotStore;
use source_log::{Partitions, SourceFault};

impl<O: Operator, S: SnapshotStore, X: Transactions, P: Partitions<Record = O::Record>> Core<
    O,
    S,
    X,
    P,
> {
    /// Why a claim is refused for which the desk has no room: want of memory, if for nothing else.
    fn claim_refusal(&self, task: u32, input: u32) -> CoreFault
        ensures { Refuses self.now task input result }
    {
        match self.offered(task, input, 1) {
            Ok(_) => CoreFault::Memory,
            Err(fault) => fault,
        }
    }

    /// A task claims so many records at most, and the job is put last at the desk. The desk's room
    /// is taken first.
    fn claim_at(&mut self, desk: &mut Desk<O>, task: u32, input: u32, most: u32) -> Reply
        requires { 0 < most }
        ensures ends { EndsClaim self.old desk.old self.new desk.new result
            ⟦<O as Rules>⟧.lang task input most }
        ensures stays { self.new.engine ≡ self.old.engine }
    {
        let Desk { jobs } = desk;
        if jobs.reserve(1).is_err() {
            return Reply::Refused(self.claim_refusal(task, input));
        }
        match self.claim_some(task, input, most) {
            Ok(job) => {
                let number = jobs.len() as u64;
                jobs.push_reserved(Some(job));
                Reply::Number(number)
            }
            Err(fault) => Reply::Refused(fault),
        }
    }

    /// A job leaves the desk, is done, and what was done is handed in.
    fn finish_at(&mut self, desk: &mut Desk<O>, number: u32) -> Reply
        ensures ends { EndsFinishing self.old desk.old self.new desk.new result
            ⟦<O as Rules>⟧.lang number }
        ensures step { Preserves ⟦<O as Rules>⟧.all self.old.engine self.new.engine }
    {
        let Some(job) = desk.take(number) else {
            return Reply::NoJob;
        };
        accepted(self.finish(job.run()))
    }

    /// A copy of the record is put last in a partition.
    fn append_copy(&mut self, partition: u32, row: &O::Record) -> Reply
        requires { ⟦<O as Rules>⟧.RecordFits row.now }
        ensures ends { EndsAppend self.old [] self.new [] result partition row.now }
        ensures step { Preserves ⟦<O as Rules>⟧.all self.old.engine self.new.engine }
    {
        match row.copied() {
            Ok(row) => appended(self.append(partition, row)),
            Err(_) => Reply::Source(SourceFault::Memory),
        }
    }

    /// Makes one call. What is appended has to fit, as `append` asks, and a claim is for one record
    /// at least, as `claim_some` asks. A record that finds no memory for its copy is answered as
    /// `append` would, and a claim for which the desk finds none as `claim` would; then nothing has
    /// changed.
    pub fn step(&mut self, desk: &mut Desk<O>, step: &Step<O::Record>) -> Reply
        requires { StepFits ⟦<O as Rules>⟧.RecordFits step.now }
        ensures ends { EndsStep ⟦<O as Rules>⟧.all ⟦<O as Rules>⟧.spelling
            step.now self.old desk.old self.new desk.new result }
        ensures step { Preserves ⟦<O as Rules>⟧.all self.old.engine self.new.engine }
    {
        match step {
            Step::Read(task) => accepted(self.read(*task)),
            Step::Claim(task, input) => self.claim_at(desk, *task, *input, 1),
            Step::ClaimSome(task, input, most) => self.claim_at(desk, *task, *input, *most),
            Step::Finish(number) => self.finish_at(desk, *number),
            Step::Barrier(task, input) => copied(self.take_barrier(*task, *input)),
            Step::Trigger => numbered(self.trigger()),
            Step::Inject(task) => accepted(self.inject(*task)),
            Step::Persist(task) => accepted(self.persist(*task)),
            Step::PersistSome(task, most) => persisted(self.persist_some(*task, *most)),
            Step::Complete => numbered(self.complete()),
            Step::Commit(sink) => accepted(self.commit(*sink)),
            Step::Settle => accepted(self.settle()),
            Step::Drain(turns) => drained(self.drain(*turns)),
            Step::Fail => accepted(self.fail()),
            Step::Restart => restarted(self.restart()),
            Step::Append(partition, row) => self.append_copy(*partition, row),
        }
    }

    /// Makes the calls in order, refused or not, with a reply for each. The replies' room is taken
    /// first; where that is refused, `K11 Memory`, no call is made. Of a sound core, and one over
    /// new devices is sound, what each sink has committed is exactly what one run of the plain
    /// machine has put out at the moment of that sink's own last committed checkpoint. At the
    /// moment of a checkpoint whose parts are all in the store, that run is at the cut that they
    /// spell.
    pub fn run_steps(
        &mut self,
        desk: &mut Desk<O>,
        steps: &[Step<O::Record>],
    ) -> Result<Vec<Reply>, CoreFault>
        requires { AllByRecursion (StepFits ⟦<O as Rules>⟧.RecordFits) steps.now }
        ensures run { IfOk result (λ replies. IsRun ⟦<O as Rules>⟧.all ⟦<O as Rules>⟧.spelling
            self.old desk.old steps.now replies.items self.new desk.new) }
        ensures exact { IsSound ⟦<O as Rules>⟧.all self.old.engine
            → IsExactlyOnce ⟦<O as Rules>⟧.lang self.new.engine }
        ensures step { Preserves ⟦<O as Rules>⟧.all self.old.engine self.new.engine }
        ensures err { IfErr result (λ fault.
            (fault ≡ CoreFault.Memory) × (self.new ≡ self.old) × (desk.new ≡ desk.old)) }
    {
        let mut replies = Vec::new(self.alloc);
        if replies.reserve(steps.len()).is_err() {
            // (brings into the proof what every core keeps)
            self.is_fresh();
            return Err(CoreFault::Memory);
        }
        for step in steps {
            let reply = self.step(desk, step);
            replies.push_reserved(reply);
        }
        // (brings into the proof what every core keeps)
        self.is_fresh();
        Ok(replies)
    }
}
