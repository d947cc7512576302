//! One of two operators.

use abs_codec::{Codec, NoMemory};
use chained_operators::Stateless;
use operators::{Operator, Outcome};
use std::alloc::Global;

/// One of two operators on the same records, keys and states.
#[derive(Debug, PartialEq, Eq, Drop)]
pub enum Pick<A, B> {
    First(A),
    Second(B),
}

impl<A: Operator, B: Stateless<Record = A::Record, Key = A::Key, State = A::State>> Operator
    for Pick<A, B> {
    ghost use Rattle.std.proofs.Common.{ap};
    ghost use Rattle.composed_operators.specs.declared.pick.Pick.TheVariants.{First, Second};
    ghost use Rattle.abs_codec.specs.Spelling.{Fits};
    ghost use Rattle.composed_operators.specs.Picks.{pick_meaning, PickSuits};
    ghost use Rattle.composed_operators.specs.PickLaws.{pick_keys_fit, pick_keys_have_lanes, pick_keyless_keeps_fresh, pick_fresh_is_good, pick_states_stay_good, pick_sent_fits};

    type Record = A::Record;

    type Key = A::Key;

    type State = A::State;

    ghost meaning = { pick_meaning A.meaning B.meaning };

    ghost Suits = { PickSuits A.Suits B.Suits };

    fn key(&self, alloc: Global, item: &A::Record) -> Result<Option<A::Key>, NoMemory> {
        match self {
            Pick::First(op) => op.key(alloc, item),
            Pick::Second(op) => op.key(alloc, item),
        }
    }

    fn lane(item: &A::Record) -> u64 {
        A::lane(item)
    }

    fn ports(&self) -> u32 {
        match self {
            Pick::First(op) => op.ports(),
            Pick::Second(op) => op.ports(),
        }
    }

    fn fresh(&self, alloc: Global) -> Result<A::State, NoMemory> {
        match self {
            Pick::First(op) => op.fresh(alloc),
            Pick::Second(op) => op.fresh(alloc),
        }
    }

    fn suits(&self, state: &A::State) -> bool {
        match self {
            Pick::First(op) => op.suits(state),
            Pick::Second(op) => op.suits(state),
        }
    }

    fn apply(
        &self,
        alloc: Global,
        state: &A::State,
        item: &A::Record,
    ) -> Result<Outcome<A::State, A::Record>, NoMemory> {
        match self {
            Pick::First(op) => op.apply(alloc, state, item),
            Pick::Second(op) => op.apply(alloc, state, item),
        }
    }

    fn copy(&self) -> Result<Pick<A, B>, NoMemory> {
        match self {
            Pick::First(op) => Ok(Pick::First(op.copy()?)),
            Pick::Second(op) => Ok(Pick::Second(op.copy()?)),
        }
    }

    ghost same_key = { A.same_key };

    ghost key_is_exact = { A.key_is_exact };

    ghost record_is_exact = { A.record_is_exact };

    ghost state_is_exact = { A.state_is_exact };

    ghost operator_is_exact = { elim [
      | First a ↦ elim
          [ First b ↦ λ e. ap First (A.operator_is_exact a b e) | Second b ↦ λ e. absurd Prim.cc ]
      | Second a ↦ elim [
        | First b ↦ λ e. absurd Prim.cc
        | Second b ↦ λ e. ap Second
            (B.operator_is_exact a b e)
      ]
    ] };

    ghost key_fits = { pick_keys_fit A.meaning B.meaning
        (Fits A.Record.HasSpelling A.Record.spelling) (Fits A.Key.HasSpelling A.Key.spelling)
        A.key_fits B.key_fits };

    ghost key_has_lane = { pick_keys_have_lanes A.meaning B.meaning A.key_has_lane B.has_no_keys };

    ghost fresh_is_good = { pick_fresh_is_good A.meaning B.meaning
        (Fits A.State.HasSpelling A.State.spelling) A.Suits B.Suits A.fresh_is_good
        B.fresh_is_good };

    ghost state_stays_good = { pick_states_stay_good A.meaning B.meaning
        (Fits A.State.HasSpelling A.State.spelling) A.Suits B.Suits
        (Fits A.Record.HasSpelling A.Record.spelling) A.state_stays_good B.state_stays_good };

    ghost sent_fits = { pick_sent_fits A.meaning B.meaning
        (Fits A.State.HasSpelling A.State.spelling) A.Suits B.Suits
        (Fits A.Record.HasSpelling A.Record.spelling) A.sent_fits B.sent_fits };

    ghost keyless_keeps_fresh = { pick_keyless_keeps_fresh A.meaning B.meaning A.keyless_keeps_fresh
        B.keyless_keeps_fresh };
}

impl<A: Stateless, B: Stateless<Record = A::Record, Key = A::Key, State = A::State>> Stateless
    for Pick<A, B> {
    ghost use Rattle.composed_operators.specs.PickLaws.{pick_has_no_keys};

    ghost has_no_keys = { pick_has_no_keys A.meaning B.meaning A.has_no_keys B.has_no_keys };
}
