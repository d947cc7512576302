//! The gate of a task.

ghost use Rattle.std.specs.Prelude.{◌≡◌, ◌<◌, length, map, not, false, IfOk};
ghost use Rattle.alignment.specs.declared.input.Phase.TheVariants.{AtRest};
ghost use Rattle.alignment.specs.Inputs.{fresh, input_at, with_barrier, without_barriers};
ghost use Rattle.alignment.specs.Table.{IsFor, IsKept, has_copied, at_unmarked, at_marked, effect_of, after, is_blocked, is_logged};

use crate::input::{Effect, Input, Phase};
use abs_codec::NoMemory;
use std::alloc::Global;
use std::marker::Model;

/// Which inputs of a task are blocked, and which are logged, while the barriers of a checkpoint
/// come in.
#[derive(Drop)]
pub struct Gate {
    phase: Phase,
    inputs: Vec<Input>,
    /// How many inputs are marked.
    marked: usize,
    missing_unmarked: usize,
    missing_marked: usize,
}

impl Model for Gate {
    ghost use Rattle.alignment.specs.Table.{Alignment};
    ghost use Rattle.alignment.specs.Counted.{IsCounted};

    ghost Value = { Alignment };

    ghost view = { λ g. record { phase = g.phase; inputs = g.inputs.items } };

    ghost invariant = { λ g. IsCounted g.phase g.inputs.items g.marked g.missing_unmarked
        g.missing_marked };
}

impl Gate {
    /// A gate at rest. The marks say of each input whether it is a back-edge.
    pub fn new(alloc: Global, marks: &[bool]) -> Result<Self, NoMemory>
        ensures at_rest { IfOk result (λ g. g
            ≡ record { phase = AtRest; inputs = map fresh marks.now }) }
        ensures kept { IfOk result (λ g. IsKept g.phase g.inputs) }
    {
        let mut inputs = Vec::with_capacity(alloc, marks.len())?;
        let mut marked = 0;
        for &is_marked in marks {
            inputs.push_reserved(Input {
                is_marked,
                came: false,
            });
            if is_marked {
                marked += 1;
            }
        }
        Ok(Gate {
            phase: Phase::AtRest,
            inputs,
            marked,
            missing_unmarked: marks.len() - marked,
            missing_marked: marked,
        })
    }

    /// How far the gate is.
    pub fn phase(&self) -> Phase
        ensures phase { result ≡ self.now.phase }
        ensures kept { IsKept self.now.phase self.now.inputs }
    {
        self.phase
    }

    /// Whether the input's barrier of the gate's number has come.
    pub fn came(&self, input: u32) -> bool
        requires { input < length self.now.inputs }
        ensures { result ≡ (input_at self.now.inputs input).came }
    {
        self.inputs[input as usize].came
    }

    /// Whether a record may be taken from the input: not while the gate is aligning and that
    /// input's barrier came.
    pub fn may_take(&self, input: u32) -> bool
        requires { input < length self.now.inputs }
        ensures { result ≡ not (is_blocked self.now input) }
    {
        match self.phase {
            Phase::Aligning(_) => !self.inputs[input as usize].came,
            Phase::AtRest | Phase::Copied(_) => true,
        }
    }

    /// Whether a record that is taken from the input is logged: only from an open marked input,
    /// once the task has copied.
    pub fn logging(&self, input: u32) -> bool
        requires { input < length self.now.inputs }
        ensures { result ≡ is_logged self.now input }
    {
        let input = self.inputs[input as usize];
        matches!(self.phase, Phase::Copied(_)) && input.is_marked && !input.came
    }

    /// The input's barrier of this number is taken. A number's last barrier takes time linear in
    /// the inputs, all others constant time.
    pub fn barrier(&mut self, input: u32, number: u64) -> Effect
        requires within { input < length self.old.inputs }
        requires awaited { (input_at self.old.inputs input).came ≡ false }
        requires number { IsFor self.old.phase number }
        ensures effect { result ≡ effect_of self.old input }
        ensures after { self.new ≡ after result number (with_barrier self.old.inputs input) }
        ensures kept { IsKept self.new.phase self.new.inputs }
    {
        let effect = self.effect_at(input);
        match effect {
            Effect::Blocked => self.note(input, Phase::Aligning(number)),
            Effect::Copy | Effect::Closed => self.note(input, Phase::Copied(number)),
            Effect::CopyAndDone | Effect::Done => self.rest(),
        }
        effect
    }

    /// What the barrier of this input would bring about.
    pub fn effect_at(&self, input: u32) -> Effect
        requires within { input < length self.now.inputs }
        requires awaited { (input_at self.now.inputs input).came ≡ false }
        ensures effect { result ≡ effect_of self.now input }
        ensures kept { IsKept self.now.phase self.now.inputs }
    {
        if self.inputs[input as usize].is_marked {
            at_marked(self.phase, self.missing_marked - 1)
        } else {
            at_unmarked(self.missing_unmarked - 1, self.missing_marked)
        }
    }

    /// The input's barrier has come, and this is how far the gate is now.
    fn note(&mut self, input: u32, phase: Phase)
        requires within { input < length self.old.inputs }
        requires awaited { (input_at self.old.inputs input).came ≡ false }
        requires kept { IsKept phase (with_barrier self.old.inputs input) }
        ensures { self.new ≡ record { phase = phase; inputs = with_barrier self.old.inputs input } }
    {
        let input = &mut self.inputs[input as usize];
        input.came = true;
        if input.is_marked {
            self.missing_marked -= 1;
        } else {
            self.missing_unmarked -= 1;
        }
        self.phase = phase;
    }

    /// All barriers of a number have come, and none of the next.
    fn rest(&mut self)
        ensures { self.new ≡ record { phase = AtRest; inputs = without_barriers self.old.inputs } }
    {
        self.phase = Phase::AtRest;
        forget_barriers(&mut self.inputs);
        self.missing_marked = self.marked;
        self.missing_unmarked = self.inputs.len() - self.marked;
    }
}

/// What the barrier of a marked input brings about, once so many marked ones are missing.
fn at_marked(phase: Phase, missing: usize) -> Effect
    ensures { result ≡ at_marked (has_copied phase) missing }
{
    match phase {
        Phase::AtRest | Phase::Aligning(_) => Effect::Blocked,
        Phase::Copied(_) if missing > 0 => Effect::Closed,
        Phase::Copied(_) => Effect::Done,
    }
}

/// What the barrier of an unmarked input brings about, once so many are missing.
fn at_unmarked(missing_unmarked: usize, missing_marked: usize) -> Effect
    ensures { result ≡ at_unmarked missing_unmarked missing_marked }
{
    if missing_unmarked > 0 {
        Effect::Blocked
    } else if missing_marked > 0 {
        Effect::Copy
    } else {
        Effect::CopyAndDone
    }
}

fn forget_barriers(inputs: &mut [Input])
    ensures { inputs.new ≡ without_barriers inputs.old }
{
    for input in inputs.iter_mut() {
        input.came = false;
    }
}
