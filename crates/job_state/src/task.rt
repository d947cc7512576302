//! One task: what it holds, and its copy for the pending checkpoint.

ghost use Rattle.std.specs.Prelude.{IfOk, ◌≡◌, ◌≢◌, ℕ, List, [], drop, is_some, None, Some, Err, OnOk, OnErr, IfSome, IfNone};
ghost use Rattle.std.specs.Option.{option_copied, option_or};
ghost use Rattle.abs_codec.specs.Entries.{value_at};
ghost use Rattle.abs_codec.specs.Same.{EqualIsSame};
ghost use Rattle.commit_sink.specs.Sink.{Sinking};
ghost use Rattle.dataflow_model.specs.Machine.{kept_under};
ghost use Rattle.keyed_state.specs.Comparing.{HaveStates};
ghost use Rattle.keyed_state.specs.declared.comparing.SetFault.TheVariants as SetFault;
ghost use Rattle.task_part.specs.declared.part.Part.TheVariants as Part;
ghost use Rattle.job_state.specs.declared.holding.Holding.TheVariants as Holding;
ghost use Rattle.std.specs.List.Sorted.{IsStrictlySortedBy};
ghost use Rattle.std.specs.Map.{keys_of};
ghost use Rattle.job_state.specs.AtOnce.{HaveExpected, KeepsAll};
ghost use Rattle.job_state.specs.Held.{Keeps};

use crate::holding::Holding;
use abs_codec::{Codec, Items, NoMemory};
use commit_sink::Sink;
use keyed_state::{LentStates, Seen, SetFault};
use operator_state::OperatorState;
use operators::Operator;
use std::alloc::Global;
use std::marker::Model;
use std::mem::replace;
use task_part::Part;

/// A source or a sink with its copy, or an operator's states, which keep their copy by themselves.
#[derive(Drop)]
pub(crate) enum Kind<R: Codec, K: Codec + Ord, S: Codec> {
    Source(u64, Option<Part<R, K, S>>),
    Operator(OperatorState<K, S>),
    Sink(Sink, Option<Part<R, K, S>>),
}

/// A task.
#[derive(Drop)]
pub(crate) struct Task<R: Codec, K: Codec + Ord, S: Codec> {
    pub(crate) kind: Kind<R, K, S>,
    /// The part that a source or a sink has spelled last.
    pub(crate) bytes: Vec<u8>,
}

impl<R: Codec, K: Codec + Ord, S: Codec> Model for Task<R, K, S> {
    ghost use Rattle.job_state.specs.Standing.{Standing};

    ghost Value = { Standing R K S };

    ghost use Rattle.job_state.specs.Kinds.{standing_of};

    ghost view = { λ t. standing_of t.kind t.bytes.items };
}

/// Gives each of these keys, which rise, its state where each has the one that is expected of it,
/// or none of them. For no keys the states are not even asked for.
fn exchange_all<K: Codec + Ord, S: Codec + Eq>(
    kept: &mut OperatorState<K, S>,
    states: &mut Vec<(K, S)>,
    expected: &[Seen<S>],
) -> Result<(), SetFault>
    requires exact { EqualIsSame S.Eq.eq }
    requires rising { IsStrictlySortedBy K.Ord.cmp (keys_of states.old.items) }
    ensures states { OnOk result ((q : K) → value_at K.Ord.cmp kept.new.entries q
        ≡ option_or (value_at K.Ord.cmp states.old.items q)
        (value_at K.Ord.cmp kept.old.entries q)) }
    ensures expected { OnOk result (HaveStates K.Ord.cmp kept.old.entries
        (keys_of states.old.items) expected.now) }
    ensures changed { result ≡ Err SetFault.Changed → ¬ HaveStates K.Ord.cmp
        kept.old.entries (keys_of states.old.items) expected.now }
    ensures copy { kept.new.copy ≡ kept.old.copy }
    ensures err { OnErr result (kept.new ≡ kept.old) }
{
    if states.is_empty() && expected.is_empty() {
        return Ok(());
    }
    kept.compare_and_set_all(states, expected)
}

/// Gives each of these keys, which rise, its state. It gives none where memory is refused, or where
/// a key has another state than the one that is expected, if any are. What is left in the list is
/// to be let go.
fn set_expected<K: Codec + Ord, S: Codec + Eq>(
    alloc: Global,
    kept: &mut OperatorState<K, S>,
    states: &mut Vec<(K, S)>,
    expected: Option<&[Seen<S>]>,
) -> Result<(), SetFault>
    requires exact { EqualIsSame S.Eq.eq }
    requires rising { IsStrictlySortedBy K.Ord.cmp (keys_of states.old.items) }
    ensures states { OnOk result ((q : K) → value_at K.Ord.cmp kept.new.entries q
        ≡ option_or (value_at K.Ord.cmp states.old.items q)
        (value_at K.Ord.cmp kept.old.entries q)) }
    ensures expected { OnOk result (HaveExpected K.Ord.cmp kept.old.entries
        (keys_of states.old.items) (option_copied expected.entry)) }
    ensures changed { result ≡ Err SetFault.Changed → ¬ HaveExpected K.Ord.cmp
        kept.old.entries (keys_of states.old.items) (option_copied expected.entry) }
    ensures copy { kept.new.copy ≡ kept.old.copy }
    ensures err { OnErr result (kept.new ≡ kept.old) }
{
    match expected {
        Some(former) => exchange_all(kept, states, former),
        None => Ok(kept.set_all(replace(states, Vec::new(alloc)))?),
    }
}

impl<R: Codec, K: Codec + Ord, S: Codec> Task<R, K, S> {
    /// A task that holds this, and has not copied.
    pub(crate) fn new(alloc: Global, holding: Holding<K, S>) -> Result<Self, NoMemory>
        ensures { IfOk result (λ task. task
            ≡ record { holding = holding; copy = None; part = [] }) }
    {
        let kind = match holding {
            Holding::Source(offset) => Kind::Source(offset, None),
            Holding::Operator(states) => Kind::Operator(OperatorState::from_map(alloc, states)?),
            Holding::Sink(sink) => Kind::Sink(sink, None),
        };
        Ok(Task {
            kind,
            bytes: Vec::new(alloc),
        })
    }

    /// A source that has copied its offset. It takes no memory.
    pub(crate) fn copied_source(alloc: Global, offset: u64) -> Self
        ensures { result ≡ record {
          holding = Holding.Source offset;
          copy = Some (Part.Source offset);
          part = [];
        } }
    {
        Task {
            kind: Kind::Source(offset, Some(Part::Source(offset))),
            bytes: Vec::new(alloc),
        }
    }

    /// A sink that has copied the numbers of its transactions. It takes no memory.
    pub(crate) fn copied_sink(alloc: Global, sink: Sink, names: Items<u64>) -> Self
        ensures { result ≡ record {
          holding = Holding.Sink sink;
          copy = Some (Part.Sink names []);
          part = [];
        } }
    {
        Task {
            kind: Kind::Sink(sink, Some(Part::Sink(names, Items::new(alloc)))),
            bytes: Vec::new(alloc),
        }
    }

    /// The offset of a source.
    pub(crate) fn offset(&self) -> Option<u64>
        ensures some { IfSome result (λ offset. self.now.holding ≡ Holding.Source offset) }
        ensures none { IfNone result ((offset : ℕ) → self.now.holding ≢ Holding.Source offset) }
    {
        match &self.kind {
            Kind::Source(offset, _) => Some(*offset),
            Kind::Operator(_) => None,
            Kind::Sink(_, _) => None,
        }
    }

    /// The transactions of a sink.
    pub(crate) fn sink(&self) -> Option<&Sink>
        ensures some { IfSome result (λ sink. self.now.holding ≡ Holding.Sink sink.now) }
        ensures none { IfNone result ((sink : Sinking) → self.now.holding ≢ Holding.Sink sink) }
    {
        match &self.kind {
            Kind::Source(_, _) => None,
            Kind::Operator(_) => None,
            Kind::Sink(sink, _) => Some(sink),
        }
    }

    /// An operator's state at a key.
    pub(crate) fn state(&self, key: &K) -> Option<&S>
        ensures { (entries : List (K × S)) → self.now.holding ≡ Holding.Operator entries
            → option_copied result ≡ value_at K.cmp entries key.now }
    {
        match &self.kind {
            Kind::Source(_, _) => None,
            Kind::Operator(states) => states.get(key),
            Kind::Sink(_, _) => None,
        }
    }

    /// An operator's states, for a reader.
    pub(crate) fn lend(&self) -> Option<LentStates<K, S>>
        ensures { IfSome result (λ lent. self.now.holding ≡ Holding.Operator lent) }
    {
        match &self.kind {
            Kind::Source(_, _) => None,
            Kind::Operator(states) => states.lend(),
            Kind::Sink(_, _) => None,
        }
    }

    /// Whether the task has copied.
    pub(crate) fn has_copied(&self) -> bool
        ensures { result ≡ is_some self.now.copy }
    {
        match &self.kind {
            Kind::Source(_, copy) => copy.is_some(),
            Kind::Operator(states) => states.has_copied(),
            Kind::Sink(_, copy) => copy.is_some(),
        }
    }

    /// The task has not copied. It takes no memory.
    pub(crate) fn forget(&mut self)
        ensures holding { self.new.holding ≡ self.old.holding }
        ensures copy { self.new.copy ≡ None }
    {
        match &mut self.kind {
            Kind::Source(_, copy) => *copy = None,
            Kind::Operator(states) => states.forget(),
            Kind::Sink(_, copy) => *copy = None,
        }
    }

    /// A source's offset becomes this one.
    pub(crate) fn advance(&mut self, offset: u64)
        requires { (before : ℕ) × (self.old.holding ≡ Holding.Source before) }
        ensures { self.new ≡ record self.old { holding = Holding.Source offset } }
    {
        if let Kind::Source(at, _) = &mut self.kind {
            *at = offset;
        }
    }

    /// An operator keeps these states, whose keys rise. It keeps none of them where memory is
    /// refused, or where a key has another state than the one that is expected, if any are. What is
    /// left in the list is to be let go.
    pub(crate) fn keep_all(
        &mut self,
        alloc: Global,
        states: &mut Vec<(K, S)>,
        expected: Option<&[Seen<S>]>,
    ) -> Result<(), SetFault>
    where
        S: Eq,
        requires exact { EqualIsSame S.Eq.eq }
        requires holds { (entries : List (K × S)) × (self.old.holding
            ≡ Holding.Operator entries) }
        requires rising { IsStrictlySortedBy K.Ord.cmp (keys_of states.old.items) }
        ensures ok { OnOk result (KeepsAll K.Ord.cmp states.old.items self.old.holding
            self.new.holding) }
        ensures expected { (entries : List (K × S)) → self.old.holding ≡ Holding.Operator entries
            → OnOk result (HaveExpected K.Ord.cmp entries (keys_of states.old.items)
            (option_copied expected.entry)) }
        ensures changed { (entries : List (K × S)) → self.old.holding ≡ Holding.Operator entries
            → result ≡ Err SetFault.Changed → ¬ HaveExpected K.Ord.cmp entries
            (keys_of states.old.items) (option_copied expected.entry) }
        ensures copy { self.new.copy ≡ self.old.copy }
        ensures err { OnErr result (self.new ≡ self.old) }
    {
        if let Kind::Operator(kept) = &mut self.kind {
            set_expected(alloc, kept, states, expected)?;
        }
        Ok(())
    }

    /// A sink's oldest pre-committed transaction is forgotten.
    pub(crate) fn forget_oldest(&mut self)
        ensures oldest { (sink : Sinking) → self.old.holding ≡ Holding.Sink sink
            → self.new.holding ≡ Holding.Sink (record sink { pending = drop 1 sink.pending }) }
        ensures copy { self.new.copy ≡ self.old.copy }
    {
        if let Kind::Sink(sink, _) = &mut self.kind {
            sink.forget_oldest();
        }
    }
}

/// Keeps the state under the key, if there is one.
fn keep_under<O: Operator>(
    states: &mut OperatorState<O::Key, O::State>,
    key: Option<O::Key>,
    state: O::State,
) -> Result<(), NoMemory>
    ensures ok { OnOk result ((other : O.Key)
        → value_at O.Key.cmp states.new.entries other
        ≡ kept_under O.meaning.same_key key state (value_at O.Key.cmp states.old.entries) other) }
    ensures copy { states.new.copy ≡ states.old.copy }
    ensures err { OnErr result (states.new ≡ states.old) }
{
    if let Some(key) = key {
        states.set(key, state)?;
    }
    Ok(())
}

/// An operator keeps the state under the key, if there is one.
pub(crate) fn keep<O: Operator>(
    task: &mut Task<O::Record, O::Key, O::State>,
    key: Option<O::Key>,
    state: O::State,
) -> Result<(), NoMemory>
    requires { (entries : List (O.Key × O.State)) × (task.old.holding ≡ Holding.Operator entries) }
    ensures ok { OnOk result (Keeps O.meaning O.Key.cmp key state task.old.holding
        task.new.holding) }
    ensures copy { task.new.copy ≡ task.old.copy }
    ensures err { OnErr result (task.new ≡ task.old) }
{
    if let Kind::Operator(states) = &mut task.kind {
        keep_under::<O>(states, key, state)?;
    }
    Ok(())
}
