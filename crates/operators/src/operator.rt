//! What an operator is.

ghost use Rattle.std.specs.Prelude.{◌≡◌, ◌↔◌, IfOk, IsTrue};
ghost use Rattle.std.specs.Ordering.{is_eq};
ghost use Rattle.abs_codec.specs.Same.{EqualIsSame};
ghost use Rattle.abs_codec.specs.Spelling.{Fits};
ghost use Rattle.dataflow_model.specs.Graph.{Meaning};
ghost use Rattle.operators.specs.Operator.{OrderIsExact, KeysFit, KeysHaveLanes, IsGoodState, FreshIsGood, StatesStayGood, SentFits, KeylessKeepsFresh};

use abs_codec::{Codec, NoMemory};
use std::alloc::Global;

/// What an operator makes of a record: its key's new state, and the records that it sends, each
/// with its port.
#[derive(Debug, Drop)]
pub struct Outcome<S, R> {
    pub state: S,
    pub sent: Vec<(u32, R)>,
}

/// An operator: a function of its value, of the state of a record's key, and of the record.
///
/// It looks at nothing else, so that what is worked off again after a failure gives the same again.
/// Each call refuses only where memory was refused.
pub trait Operator: Eq + Drop {
    type Record: Codec + Eq;

    type Key: Codec + Ord;

    type State: Codec + Eq;

    /// What the operator computes.
    ghost meaning: { Meaning Self.Record Self.Key Self.State Self };

    /// The state has the operator's form.
    ghost Suits: { Self → Self.State → Type 0 };

    /// The key under which the record's state is kept, if it is kept.
    fn key(&self, alloc: Global, item: &Self::Record) -> Result<Option<Self::Key>, NoMemory>
        ensures { IfOk result (λ key. key ≡ meaning.key self.now item.now) };

    /// The number by which a hashed edge picks the record's subtask.
    fn lane(item: &Self::Record) -> u64
        ensures { result ≡ meaning.lane item.now };

    /// How many ports the operator sends on. They are numbered from 0.
    fn ports(&self) -> u32
        ensures { result ≡ meaning.ports self.now };

    /// The state of a key that has none yet.
    fn fresh(&self, alloc: Global) -> Result<Self::State, NoMemory>
        ensures { IfOk result (λ state. state ≡ meaning.fresh self.now) };

    /// Whether the state has the operator's form.
    fn suits(&self, state: &Self::State) -> bool
        ensures { IsTrue result ↔ Suits self.now state.now };

    /// What the operator makes of a record in the state of the record's key.
    fn apply(
        &self,
        alloc: Global,
        state: &Self::State,
        item: &Self::Record,
    ) -> Result<Outcome<Self::State, Self::Record>, NoMemory>
        requires state { IsGoodState (Fits Self.State.HasSpelling Self.State.spelling) Suits
            self.now state.now }
        requires fits { Fits Self.Record.HasSpelling Self.Record.spelling item.now }
        ensures state { IfOk result (λ outcome. outcome.state
            ≡ (meaning.apply self.now state.now item.now).state) }
        ensures sent { IfOk result (λ outcome. outcome.sent.items
            ≡ (meaning.apply self.now state.now item.now).sent) };

    /// The same operator.
    fn copy(&self) -> Result<Self, NoMemory>
        ensures { IfOk result (λ op. op ≡ self.now) };

    /// Keys are one where they compare equal.
    ghost same_key: { (a b : Self.Key) → meaning.same_key a b ≡ is_eq (Self.Key.cmp a b) };

    /// Keys that compare equal are the same key.
    ghost key_is_exact: { OrderIsExact Self.Key.cmp };

    /// So are records,
    ghost record_is_exact: { EqualIsSame Self.Record.eq };

    /// states,
    ghost state_is_exact: { EqualIsSame Self.State.eq };

    /// and operators.
    ghost operator_is_exact: { EqualIsSame Self.eq };

    /// The key of a record that fits, fits.
    ghost key_fits: { KeysFit meaning (Fits Self.Record.HasSpelling Self.Record.spelling)
        (Fits Self.Key.HasSpelling Self.Key.spelling) };

    /// Records with one key have one lane.
    ghost key_has_lane: { KeysHaveLanes meaning };

    /// The fresh state fits and has the operator's form.
    ghost fresh_is_good: { FreshIsGood meaning
        (Fits Self.State.HasSpelling Self.State.spelling) Suits };

    /// A state and a record that fit give a state that fits, of the operator's form.
    ghost state_stays_good: { StatesStayGood meaning
        (Fits Self.Record.HasSpelling Self.Record.spelling)
        (Fits Self.State.HasSpelling Self.State.spelling) Suits };

    /// They send records that fit, on the operator's ports.
    ghost sent_fits: { SentFits meaning (Fits Self.Record.HasSpelling Self.Record.spelling)
        (Fits Self.State.HasSpelling Self.State.spelling) Suits };

    /// A record without a key leaves the fresh state as it is.
    ghost keyless_keeps_fresh: { KeylessKeepsFresh meaning };
}
