//! The machine's moves.

ghost use Rattle.std.specs.Prelude.{◌≡◌, ◌++◌, ◌<◌, ◌↔◌, IsTrue, IfOk, IfErr, OnOk, OnErr, Some, slice_get, option_copied, length, take, ℕ, true, false};
ghost use Rattle.std.specs.BTreeMap as tree;
ghost use Rattle.abs_codec.specs.Spelling.{Fits};
ghost use Rattle.operators.specs.Operator.{IsGoodState};
ghost use Rattle.dataflow_model.specs.Graph.{SinkTask, admitted, takes_lane};
ghost use Rattle.dataflow_model.specs.Machine.{state_under, kept_under, left, mover, Read, Work, start};
ghost use Rattle.plain_machine.specs.declared.job.Move as code;
ghost use Rattle.plain_machine.specs.Offered.{has_inputs, offered};
ghost use Rattle.plain_machine.specs.Plain.{route_of, channel_of, move_of, task_of, records_of, job_of, configuration_of, IsQueueAfter, IsOperator, MakesStep, IsImpossible, GoesAlong, HandsUnfit, StopsAtUnfit, StaysAt};

use crate::fault::PlainFault;
use crate::job::{Channel, Configuration, Job, Move, Route, Task, TaskState};
use crate::machine::PlainMachine;
use abs_codec::Codec;
use operators::{Operator, Outcome};
use std::alloc::{AllocError, Global};
use std::collections::BTreeMap;

impl Route {
    fn takes(&self, lane: u64) -> bool
        ensures { result ≡ takes_lane (route_of self.now) lane }
    {
        match self {
            Route::Every => true,
            Route::Lanes(share) => lane % share.parallelism == share.subtask,
        }
    }
}

impl Move {
    fn task(&self) -> usize
        ensures { result ≡ mover (move_of self.now) }
    {
        match self {
            Move::Read(task) => *task,
            Move::Work(task, _) => *task,
        }
    }
}

impl<O> Task<O> {
    fn has_inputs(&self) -> bool
        ensures { result ≡ has_inputs (task_of self.now) }
    {
        !matches!(self, Task::Source(_))
    }

    fn is_sink(&self) -> bool
        ensures { IsTrue result ↔ (task_of self.now ≡ SinkTask) }
    {
        matches!(self, Task::Sink)
    }
}

/// Copies of all records, in order.
fn copy_all<R: Codec>(alloc: Global, records: &[R]) -> Result<Vec<R>, PlainFault>
    ensures ok { IfOk result (λ copies. copies.items ≡ records.now) }
    ensures memory { IfErr result (λ f. f ≡ PlainFault.Memory) }
{
    let mut copies = Vec::new(alloc);
    for record in records {
        copies.push(record.copied()?)?;
    }
    Ok(copies)
}

/// Puts what the channel admits at the queue's end.
fn put_admitted<O: Operator>(
    channel: &Channel,
    sent: &[(u32, O::Record)],
    queue: &mut Vec<O::Record>,
) -> Result<(), PlainFault>
    ensures ok { IfOk result (λ _. queue.new.items
        ≡ queue.old.items ++ admitted O.meaning (channel_of channel.now) sent.now) }
    ensures memory { IfErr result (λ f. f ≡ PlainFault.Memory) }
{
    for (port, record) in sent {
        if *port == channel.port && channel.route.takes(O::lane(record)) {
            queue.push(record.copied()?)?;
        }
    }
    Ok(())
}

/// What the operator makes of the record in the state, if it takes the two.
fn apply_to<O: Operator>(
    alloc: Global,
    operator: &O,
    state: &O::State,
    taken: &O::Record,
) -> Result<Outcome<O::State, O::Record>, PlainFault>
    ensures state { IfOk result (λ outcome. outcome.state
        ≡ (O.meaning.apply operator.now state.now taken.now).state) }
    ensures sent { IfOk result (λ outcome. outcome.sent.items
        ≡ (O.meaning.apply operator.now state.now taken.now).sent) }
    ensures unfit { IfErr result (λ f. f ≡ PlainFault.Unfit
        → ¬ (Fits O.Record.HasSpelling O.Record.spelling taken.now
        × IsGoodState (Fits O.State.HasSpelling O.State.spelling) O.Suits operator.now state.now)) }
{
    if taken.fits() && state.fits() && operator.suits(state) {
        Ok(operator.apply(alloc, state, taken)?)
    } else {
        Err(PlainFault::Unfit)
    }
}

/// What the operator makes of the record in its key's state, or in the fresh one.
fn apply_under<O: Operator>(
    alloc: Global,
    operator: &O,
    key: &Option<O::Key>,
    states: &BTreeMap<O::Key, O::State>,
    taken: &O::Record,
) -> Result<Outcome<O::State, O::Record>, PlainFault>
    ensures state { IfOk result (λ outcome. outcome.state
        ≡ (O.meaning.apply operator.now (state_under key.now (O.meaning.fresh operator.now)
        (tree.get O.Key.cmp states.now)) taken.now).state) }
    ensures sent { IfOk result (λ outcome. outcome.sent.items
        ≡ (O.meaning.apply operator.now (state_under key.now (O.meaning.fresh operator.now)
        (tree.get O.Key.cmp states.now)) taken.now).sent) }
    ensures unfit { IfErr result (λ f. f ≡ PlainFault.Unfit
        → ¬ (Fits O.Record.HasSpelling O.Record.spelling taken.now
        × IsGoodState (Fits O.State.HasSpelling O.State.spelling) O.Suits operator.now
        (state_under key.now (O.meaning.fresh operator.now) (tree.get O.Key.cmp states.now)))) }
{
    if let Some(key) = key {
        if let Some(state) = states.get(key) {
            return apply_to(alloc, operator, state, taken);
        }
    }
    let fresh = operator.fresh(alloc)?;
    apply_to(alloc, operator, &fresh, taken)
}

/// Keeps the state under the key, if there is one.
fn keep_under<O: Operator>(
    states: &mut BTreeMap<O::Key, O::State>,
    key: Option<O::Key>,
    state: O::State,
) -> Result<(), AllocError>
    ensures ok { IfOk result (λ _. (other : O.Key)
        → tree.get O.Key.cmp states.new other
        ≡ kept_under O.meaning.same_key key state (tree.get O.Key.cmp states.old) other) }
    ensures err { OnErr result ((other : O.Key)
        → tree.get O.Key.cmp states.new other ≡ tree.get O.Key.cmp states.old other) }
{
    if let Some(key) = key {
        states.insert(key, state)?;
    }
    Ok(())
}

impl<O: Operator> PlainMachine<O, O::Record, O::Key, O::State> {
    /// The machine at the start of its job.
    pub fn new(alloc: Global, job: Job<O, O::Record>) -> Result<Self, AllocError>
        ensures job { IfOk result (λ machine. machine.job ≡ job) }
        ensures starts { IfOk result (λ machine. configuration_of O.Key.cmp
            machine.configuration ≡ start) }
    {
        let mut tasks = Vec::new(alloc);
        for task in 0..job.tasks.len() {
            tasks.push(TaskState {
                offset: 0,
                states: BTreeMap::new(alloc),
                output: Vec::new(alloc),
            })?;
        }
        let mut channels = Vec::new(alloc);
        for channel in 0..job.channels.len() {
            channels.push(Vec::new(alloc))?;
        }
        let configuration = Configuration { tasks, channels };
        Ok(PlainMachine { job, configuration })
    }

    /// What the task has put out, which is nothing unless it is a sink.
    pub fn output(&self, task: usize) -> &[O::Record]
        ensures { result.now ≡ ((configuration_of O.Key.cmp self.now.configuration).tasks
            task).output }
    {
        match self.configuration.tasks.get(task) {
            Some(held) => &held.output,
            None => &[],
        }
    }

    /// What stands in the channel, which is nothing if there is no such channel.
    pub fn channel(&self, number: usize) -> &[O::Record]
        ensures { result.now ≡ (configuration_of O.Key.cmp self.now.configuration).channels number }
    {
        match self.configuration.channels.get(number) {
            Some(queue) => queue,
            None => &[],
        }
    }

    /// A source's next record.
    fn next_record(&self, task: usize) -> Option<&O::Record>
        ensures { option_copied result ≡ offered (job_of O.meaning self.now.job) (Read task)
            (configuration_of O.Key.cmp self.now.configuration) }
    {
        match self.job.tasks.get(task) {
            Some(Task::Source(partition)) => {
                let offset = self.configuration.tasks[task].offset;
                self.job.partitions.get(*partition)?.get(offset)
            }
            _ => None,
        }
    }

    /// The first record of an input, if it is one of the task.
    fn first_record(&self, task: usize, input: usize) -> Option<&O::Record>
        ensures { option_copied result ≡ offered (job_of O.meaning self.now.job) (Work task input)
            (configuration_of O.Key.cmp self.now.configuration) }
    {
        let kind = self.job.tasks.get(task)?;
        let channel = self.job.channels.get(input)?;
        if kind.has_inputs() && channel.receiver == task {
            self.configuration.channels.get(input)?.first()
        } else {
            None
        }
    }

    /// What the move leaves in a channel.
    fn rest(&self, step: &Move, channel: usize) -> &[O::Record]
        requires { channel < length self.now.configuration.channels.items }
        ensures { result.now ≡ left (move_of step.now) channel
            (records_of (slice_get self.now.configuration.channels.items channel)) }
    {
        let queue = &self.configuration.channels[channel];
        match step {
            Move::Work(_, input) if channel == *input && !queue.is_empty() => &queue[1..],
            _ => queue,
        }
    }

    /// The channel after the move, in which its task sends.
    fn queue_after(
        &self,
        alloc: Global,
        step: &Move,
        number: usize,
        sent: &[(u32, O::Record)],
    ) -> Result<Vec<O::Record>, PlainFault>
        requires { number < length self.now.job.channels.items }
        ensures ok { IfOk result (λ queue. IsQueueAfter O.meaning self.now.job
            self.now.configuration (move_of step.now) sent.now number queue.items) }
        ensures memory { IfErr result (λ f. f ≡ PlainFault.Memory) }
    {
        let mut queue = copy_all(alloc, self.rest(step, number))?;
        let channel = &self.job.channels[number];
        if channel.sender == step.task() {
            put_admitted::<O>(channel, sent, &mut queue)?;
        }
        Ok(queue)
    }

    /// All channels after the move.
    fn queues_after(
        &self,
        alloc: Global,
        step: &Move,
        sent: &[(u32, O::Record)],
    ) -> Result<Vec<Vec<O::Record>>, PlainFault>
        ensures len { IfOk result (λ queues. length queues.items
            ≡ length self.now.job.channels.items) }
        ensures each { IfOk result (λ queues. (channel : ℕ)
            → IsQueueAfter O.meaning self.now.job self.now.configuration (move_of step.now) sent.now
            channel (records_of (slice_get queues.items channel))) }
        ensures memory { IfErr result (λ f. f ≡ PlainFault.Memory) }
    {
        let mut queues = Vec::new(alloc);
        for channel in 0..self.job.channels.len() {
            queues.push(self.queue_after(alloc, step, channel, sent)?)?;
        }
        Ok(queues)
    }

    /// A source reads.
    fn read(&mut self, alloc: Global, task: usize) -> Result<bool, PlainFault>
        ensures made { IfOk result (λ made. made ≡ true
            → MakesStep O.meaning O.Key.cmp self.old.job (Read task) self.old.configuration
            self.new.configuration) }
        ensures not_made { IfOk result (λ made. made ≡ false
            → IsImpossible O.meaning O.Key.cmp self.old.job (Read task) self.old.configuration
            × (self.new ≡ self.old)) }
        ensures job { self.new.job ≡ self.old.job }
        ensures err { OnErr result (self.new ≡ self.old) }
        ensures memory { IfErr result (λ f. f ≡ PlainFault.Memory) }
    {
        let Some(next) = self.next_record(task) else {
            return Ok(false);
        };
        let mut sent = Vec::new(alloc);
        sent.push((0, next.copied()?))?;
        let queues = self.queues_after(alloc, &Move::Read(task), &sent)?;
        self.configuration.tasks[task].offset += 1;
        self.configuration.channels = queues;
        Ok(true)
    }

    /// A sink puts a record last in its output.
    fn put_out(
        &mut self,
        alloc: Global,
        task: usize,
        input: usize,
        taken: O::Record,
    ) -> Result<(), PlainFault>
        requires sink { slice_get (job_of O.meaning self.old.job).graph.tasks task ≡ Some SinkTask }
        requires first { offered (job_of O.meaning self.old.job) (Work task input)
            (configuration_of O.Key.cmp self.old.configuration) ≡ Some taken }
        ensures made { OnOk result (MakesStep O.meaning O.Key.cmp self.old.job (Work task input)
            self.old.configuration self.new.configuration) }
        ensures job { self.new.job ≡ self.old.job }
        ensures err { OnErr result (StaysAt O.Key.cmp self.old.configuration
            self.new.configuration) }
        ensures memory { IfErr result (λ f. f ≡ PlainFault.Memory) }
    {
        let sent = Vec::new(alloc);
        let queues = self.queues_after(alloc, &Move::Work(task, input), &sent)?;
        let held = &mut self.configuration.tasks[task];
        held.output.push(taken)?;
        self.configuration.channels = queues;
        Ok(())
    }

    /// An operator makes of a record what it means.
    fn operate(
        &mut self,
        alloc: Global,
        task: usize,
        input: usize,
        taken: O::Record,
    ) -> Result<(), PlainFault>
        requires operator { IsOperator (slice_get
            (job_of O.meaning self.old.job).graph.tasks task) }
        requires first { offered (job_of O.meaning self.old.job) (Work task input)
            (configuration_of O.Key.cmp self.old.configuration) ≡ Some taken }
        ensures made { OnOk result (MakesStep O.meaning O.Key.cmp self.old.job (Work task input)
            self.old.configuration self.new.configuration) }
        ensures job { self.new.job ≡ self.old.job }
        ensures err { OnErr result (StaysAt O.Key.cmp self.old.configuration
            self.new.configuration) }
        ensures unfit { IfErr result (λ f. f ≡ PlainFault.Unfit
            → HandsUnfit O.meaning O.Key.cmp (Fits O.Record.HasSpelling O.Record.spelling)
            (IsGoodState (Fits O.State.HasSpelling O.State.spelling) O.Suits) self.old.job
            (Work task input) self.old.configuration) }
    {
        let Task::Operator(operator) = &self.job.tasks[task] else {
            return Ok(());
        };
        let key = operator.key(alloc, &taken)?;
        let states = &self.configuration.tasks[task].states;
        let outcome = apply_under(alloc, operator, &key, states, &taken)?;
        let queues = self.queues_after(alloc, &Move::Work(task, input), &outcome.sent)?;
        let held = &mut self.configuration.tasks[task];
        keep_under::<O>(&mut held.states, key, outcome.state)?;
        self.configuration.channels = queues;
        Ok(())
    }

    /// A task works off the first record of an input.
    fn work(&mut self, alloc: Global, task: usize, input: usize) -> Result<bool, PlainFault>
        ensures made { IfOk result (λ made. made ≡ true
            → MakesStep O.meaning O.Key.cmp self.old.job (Work task input) self.old.configuration
            self.new.configuration) }
        ensures not_made { IfOk result (λ made. made ≡ false
            → IsImpossible O.meaning O.Key.cmp self.old.job (Work task input) self.old.configuration
            × (self.new ≡ self.old)) }
        ensures job { self.new.job ≡ self.old.job }
        ensures err { OnErr result (StaysAt O.Key.cmp self.old.configuration
            self.new.configuration) }
        ensures unfit { IfErr result (λ f. f ≡ PlainFault.Unfit
            → HandsUnfit O.meaning O.Key.cmp (Fits O.Record.HasSpelling O.Record.spelling)
            (IsGoodState (Fits O.State.HasSpelling O.State.spelling) O.Suits) self.old.job
            (Work task input) self.old.configuration) }
    {
        let Some(first) = self.first_record(task, input) else {
            return Ok(false);
        };
        let taken = first.copied()?;
        if self.job.tasks[task].is_sink() {
            self.put_out(alloc, task, input, taken)?;
        } else {
            self.operate(alloc, task, input, taken)?;
        }
        Ok(true)
    }

    /// Makes the move, or answers that it is not possible. An `Err` leaves the machine where it
    /// was.
    pub fn step(&mut self, alloc: Global, step: &Move) -> Result<bool, PlainFault>
        ensures made { IfOk result (λ made. made ≡ true
            → MakesStep O.meaning O.Key.cmp self.old.job (move_of step.now) self.old.configuration
            self.new.configuration) }
        ensures not_made { IfOk result (λ made. made ≡ false
            → IsImpossible O.meaning O.Key.cmp self.old.job (move_of step.now)
            self.old.configuration × (self.new ≡ self.old)) }
        ensures job { self.new.job ≡ self.old.job }
        ensures err { OnErr result (StaysAt O.Key.cmp self.old.configuration
            self.new.configuration) }
        ensures unfit { IfErr result (λ f. f ≡ PlainFault.Unfit
            → HandsUnfit O.meaning O.Key.cmp (Fits O.Record.HasSpelling O.Record.spelling)
            (IsGoodState (Fits O.State.HasSpelling O.State.spelling) O.Suits) self.old.job
            (move_of step.now) self.old.configuration) }
    {
        match step {
            Move::Read(task) => self.read(alloc, *task),
            Move::Work(task, input) => self.work(alloc, *task, *input),
        }
    }

    /// Makes the moves, up to the first that is not possible, and answers how many it made. An
    /// `Err` leaves the machine after those before the move that was given up.
    pub fn run(&mut self, alloc: Global, moves: &[Move]) -> Result<usize, PlainFault>
        ensures made { IfOk result (λ made. GoesAlong O.meaning O.Key.cmp self.old.job
            (take made moves.now) self.old.configuration self.new.configuration) }
        ensures stopped { IfOk result (λ made. (next : code.Move)
            → slice_get moves.now made ≡ Some next
            → IsImpossible O.meaning O.Key.cmp self.old.job (move_of next) self.new.configuration) }
        ensures err { IfErr result (λ f. (made : ℕ)
            × GoesAlong O.meaning O.Key.cmp self.old.job (take made moves.now)
            self.old.configuration self.new.configuration
            × (f ≡ PlainFault.Unfit → StopsAtUnfit O.meaning O.Key.cmp
            (Fits O.Record.HasSpelling O.Record.spelling)
            (IsGoodState (Fits O.State.HasSpelling O.State.spelling) O.Suits) self.old.job moves.now
            made self.new.configuration)) }
        ensures job { self.new.job ≡ self.old.job }
    {
        for (made, step) in moves.iter().enumerate() {
            if !self.step(alloc, step)? {
                return Ok(made);
            }
        }
        Ok(moves.len())
    }
}
