//! Claims are made and finished.

ghost use Rattle.std.specs.Prelude.{◌≡◌, ◌≢◌, ◌⊎◌, ◌+◌, ◌↔◌, ◌≤◌, ◌<◌, ◌^◌, ℕ, None, length, IsTrue, IfOk, IfErr, OnOk};
ghost use Rattle.claims.specs.declared.parts.Given.{Given};
ghost use Rattle.engine_model.specs.declared.fault.CoreFault.TheVariants as CoreFault;
ghost use Rattle.engine_plain.specs.Plain.{Stays};
ghost use Rattle.engine.specs.Claimed.{OffersBehind};
ghost use Rattle.engine.specs.Running.{IsCounted};
ghost use Rattle.dataflow_core.specs.Claims.{IsHeldAt, IsFreshTicket, IsHeldUp, Refuses, MayClaim, Claims, TakesBarrierUnclaimed, EndsFinish, FinishMoves, MayAccept, RefusesAccept, EndsAccepting, AcceptMoves, EndsAcceptingRows, RowsMove, spent_as};
ghost use Rattle.dataflow_core.specs.Steps.{IsStep};

use crate::calls::Core;
use crate::held::{Claim, claim_of, end_claim, is_busy, keep_claim};
use crate::jobs::{Done, Job};
use alignment::Effect;
use claims::{Leavings, Room, Work, Worked};
use commit_sink::Transactions;
use engine::CoreFault;
use engine_model::Rules;
use operators::Operator;
use snapshot_store::SnapshotStore;
use source_log::Partitions;

/// No claim has this serial or a greater one.
const SERIALS: u64 = 1 << 63;

/// Refuses what was offered, since no serial is left.
fn spent<O: Operator>(offered: Result<Work<O>, CoreFault>) -> Result<Work<O>, CoreFault>
    ensures { result ≡ spent_as offered }
{
    match offered {
        Ok(_) => Err(CoreFault::NumbersSpent),
        Err(CoreFault::Memory) => Err(CoreFault::NumbersSpent),
        Err(fault) => Err(fault),
    }
}

impl<O: Operator, S: SnapshotStore, X: Transactions, P: Partitions<Record = O::Record>> Core<
    O,
    S,
    X,
    P,
> {
    /// At most 2^63 claims were made, and no more are out than were made.
    pub fn serials_bound(&self)
        ensures made { self.now.serials ≤ 2 ^ 63 }
        ensures out { length self.now.claims ≤ self.now.serials }
    {
        // (brings into the proof what every core keeps)
        let _ = &self.serials;
    }

    /// The work that a task may claim now, on so many records at most.
    pub(crate) fn offered(&self, task: u32, input: u32, most: u32) -> Result<Work<O>, CoreFault>
        requires { 0 < most }
        ensures ok { IfOk result (MayClaim self.now task input most ⟦<O as Rules>⟧.lang) }
        ensures err { IfErr result (Refuses self.now task input) }
    {
        let mut room = Room::new(self.alloc);
        self.offered_in(task, input, most, &mut room)
    }

    /// The same, in room that was taken before.
    fn offered_in(
        &self,
        task: u32,
        input: u32,
        most: u32,
        room: &mut Room<O>,
    ) -> Result<Work<O>, CoreFault>
        requires { 0 < most }
        ensures ok { IfOk result (MayClaim self.now task input most ⟦<O as Rules>⟧.lang) }
        ensures err { IfErr result (Refuses self.now task input) }
    {
        if is_busy(&self.claims, task) {
            self.engine.has_input(task, input)?;
            return Err(CoreFault::Busy);
        }
        let offered = self.engine.offer_in(task, input, most as usize, room);
        if self.serials >= SERIALS {
            return spent(offered);
        }
        offered
    }

    /// A task claims the record at the head of its input, as `claim_some` with one record at most.
    pub fn claim(&mut self, task: u32, input: u32) -> Result<Job<O>, CoreFault>
        ensures ok { IfOk result (λ job. Claims self.old task input 1 ⟦<O as Rules>⟧.lang self.new
            job.attempt job.serial job.work) }
        ensures err { IfErr result (λ fault. Refuses self.old task input fault
            × (self.new ≡ self.old)) }
    {
        self.claim_some(task, input, 1)
    }

    /// A task claims records of its input, which stay there: an operator all that stand before the
    /// first barrier, or the first `most` of them, and a sink the first. The job carries all that
    /// its work needs. Serials are below 2^63, and rise over all attempts.
    pub fn claim_some(&mut self, task: u32, input: u32, most: u32) -> Result<Job<O>, CoreFault>
        requires { 0 < most }
        ensures ok { IfOk result (λ job. Claims self.old task input most ⟦<O as Rules>⟧.lang
            self.new job.attempt job.serial job.work) }
        ensures err { IfErr result (λ fault. Refuses self.old task input fault
            × (self.new ≡ self.old)) }
    {
        let mut room = Room::new(self.alloc);
        self.claim_in(task, input, most, &mut room)
    }

    /// The same, in room that was taken before: what of it is used up is there no more.
    pub fn claim_in(
        &mut self,
        task: u32,
        input: u32,
        most: u32,
        room: &mut Room<O>,
    ) -> Result<Job<O>, CoreFault>
        requires { 0 < most }
        ensures ok { IfOk result (λ job. Claims self.old task input most ⟦<O as Rules>⟧.lang
            self.new job.attempt job.serial job.work) }
        ensures err { IfErr result (λ fault. Refuses self.old task input fault
            × (self.new ≡ self.old)) }
    {
        let work = self.offered_in(task, input, most, room)?;
        let Core {
            alloc,
            engine,
            claims,
            serials,
        } = self;
        let serial = *serials;
        keep_claim(
            claims,
            Claim {
                serial,
                task,
                input,
            },
        )?;
        *serials += 1;
        Ok(Job {
            attempt: engine.attempt_number(),
            serial,
            alloc: *alloc,
            work,
        })
    }

    /// The claim of which this attempt and serial are a fresh ticket, and its place.
    fn ticket(&self, attempt: u64, serial: u64) -> Result<(usize, Claim), CoreFault>
        ensures ok { IfOk result (λ found. (self.now.engine.held ≢ None)
            × IsHeldAt self.now attempt serial found.0 found.1) }
        ensures err { IfErr result (λ fault.
            ((fault ≡ CoreFault.NotRunning) × (self.now.engine.held ≡ None))
            ⊎ ((fault ≡ CoreFault.Stale) × (self.now.engine.held ≢ None)
            × ¬ IsFreshTicket self.now attempt serial)) }
    {
        if !self.engine.is_running() {
            return Err(CoreFault::NotRunning);
        }
        if attempt != self.engine.attempt_number() {
            return Err(CoreFault::Stale);
        }
        match claim_of(&self.claims, serial) {
            Some(found) => Ok(found),
            None => Err(CoreFault::Stale),
        }
    }

    /// Takes what was done of a job: its records are taken, each in a step of its own, and the
    /// claim ends. A result that is no fresh ticket is stale. One whose operator, states or records
    /// differ from the core's is wrong, and leaves the claim. Where memory was refused the claim
    /// ends with no step made, and its records still stand first.
    pub fn finish(&mut self, done: Done<O>) -> Result<(), CoreFault>
        ensures ends { EndsFinish self.old ⟦<O as Rules>⟧.lang self.new
            done.attempt done.serial done.worked result }
        ensures step { IsStep ⟦<O as Rules>⟧.all self.old.engine self.new.engine }
        ensures plain { FinishMoves self.old ⟦<O as Rules>⟧.lang self.new done.attempt
            done.serial done.worked result }
        ensures counted { IsCounted self.old.engine.faults self.new.engine.faults result }
    {
        let Done {
            attempt,
            serial,
            worked,
            ..
        } = done;
        let (at, claim) = self.ticket(attempt, serial)?;
        let Core { engine, claims, .. } = self;
        let outcome = engine.accept(claim.task, claim.input, worked);
        end_claim(claims, at, &outcome);
        outcome
    }

    /// Offers the work on the records behind the first of a sink's input, in their order and on so
    /// many at most, each of which is due once those before it are taken. It makes no claim, and
    /// changes nothing.
    pub fn offer_behind(
        &self,
        task: u32,
        input: u32,
        most: usize,
    ) -> Result<Vec<Work<O>>, CoreFault>
        ensures { OffersBehind self.now.engine task input most result }
    {
        self.engine.offer_behind(task, input, most)
    }

    /// Whether what was made of a task's work may be taken with no claim.
    fn may_accept(&self, task: u32) -> Result<(), CoreFault>
        ensures ok { OnOk result (MayAccept self.now task) }
        ensures err { IfErr result (RefusesAccept self.now task) }
    {
        if !self.engine.is_running() {
            return Err(CoreFault::NotRunning);
        }
        if is_busy(&self.claims, task) {
            return Err(CoreFault::Busy);
        }
        if self.serials >= SERIALS {
            return Err(CoreFault::NumbersSpent);
        }
        Ok(())
    }

    /// Takes what was made of the work of a task that holds no claim: as a claim of that work and
    /// its finish in one call. What differs from what the task would do now is wrong (`K7`), and
    /// changes nothing but the serials.
    pub fn accept(&mut self, task: u32, input: u32, worked: Worked<O>) -> Result<(), CoreFault>
        ensures ends { EndsAccepting self.old ⟦<O as Rules>⟧.lang self.new task input worked
            result }
        ensures step { IsStep ⟦<O as Rules>⟧.all self.old.engine self.new.engine }
        ensures plain { AcceptMoves self.old ⟦<O as Rules>⟧.lang self.new task input worked
            result }
        ensures counted { IsCounted self.old.engine.faults self.new.engine.faults result }
    {
        self.may_accept(task)?;
        self.serials += 1;
        self.engine.accept(task, input, worked)
    }

    /// Takes what was made of the work on several records of a sink that holds no claim, from the
    /// first to the last, until one is refused, as `accept` would: how many records were taken, and
    /// why no more. It uses up one serial.
    pub fn accept_rows(
        &mut self,
        task: u32,
        input: u32,
        ahead: Vec<Worked<O>>,
    ) -> (u64, Result<(), CoreFault>)
        ensures ends { EndsAcceptingRows self.old ⟦<O as Rules>⟧.lang self.new task input
            ahead.items result.0 result.1 }
        ensures step { IsStep ⟦<O as Rules>⟧.all self.old.engine self.new.engine }
        ensures plain { RowsMove self.old ⟦<O as Rules>⟧.lang self.new task input result.0 }
        ensures counted { IsCounted self.old.engine.faults self.new.engine.faults result.1 }
    {
        if let Err(fault) = self.may_accept(task) {
            return (0, Err(fault));
        }
        self.serials += 1;
        self.engine.accept_rows(task, input, ahead)
    }

    /// Exchanges what results that were taken have left for these leavings, which were let go: who
    /// gets it lets it go, at any time.
    pub fn swap_leavings(&mut self, leavings: &mut Leavings<O>)
        ensures { self.new ≡ self.old }
    {
        let Core { engine, .. } = self;
        engine.swap_leavings(leavings);
    }

    /// Whether a task would take a barrier over its claim.
    fn is_held_up(&self, task: u32, input: u32) -> bool
        ensures { IsTrue result ↔ IsHeldUp self.now task input }
    {
        self.engine.has_input(task, input).is_ok() && is_busy(&self.claims, task)
    }

    /// A task that holds no claim takes the barrier at the head of its input. At the last of its
    /// unmarked inputs it copies what it holds; a sink then begins a transaction and pre-commits
    /// the old one.
    pub fn take_barrier(&mut self, task: u32, input: u32) -> Result<Effect, CoreFault>
        ensures ends { TakesBarrierUnclaimed self.old task input self.new result }
        ensures step { IsStep ⟦<O as Rules>⟧.all self.old.engine self.new.engine }
        ensures stays { Stays ⟦<O as Rules>⟧.lang self.old.engine self.new.engine }
        ensures counted { IsCounted self.old.engine.faults self.new.engine.faults result }
        ensures claims { self.new ≡ record self.old { engine = self.new.engine } }
    {
        if self.is_held_up(task, input) {
            return Err(CoreFault::Busy);
        }
        let Core { engine, .. } = self;
        engine.take_barrier(task, input)
    }
}
