//! Two operators, one behind the other.

ghost use Rattle.std.specs.Prelude.{◌≡◌, ◌++◌, OnOk, IfOk};
ghost use Rattle.std.specs.List.{All, flat_map};
ghost use Rattle.abs_codec.specs.Spelling.{Fits};
ghost use Rattle.chained_operators.specs.Chains.{CanBeChained, passed_on};
ghost use Rattle.operators.specs.Operator.{MayBeSent};

use crate::stateless::Stateless;
use abs_codec::{Codec, NoMemory};
use operators::{Operator, Outcome};
use std::alloc::Global;

/// An operator whose port 0 goes through a second one.
///
/// The ports of the second come first, and then the others of the first: its port `p` is the
/// chain's `B.ports() + p - 1`.
#[derive(Debug, PartialEq, Eq, Drop)]
pub struct Chain<A: Operator, B: Stateless<Record = A::Record>> {
    pub first: A,
    pub second: B,
    pub ghost can_be_chained: { CanBeChained (A.meaning.ports first) (B.meaning.ports second) },
}

impl<A: Operator, B: Stateless<Record = A::Record>> Chain<A, B> {
    /// `first`, with its port 0 going through `second`.
    pub fn new(first: A, second: B) -> Chain<A, B>
        requires { CanBeChained (A.meaning.ports first) (B.meaning.ports second) }
        ensures first { result.first ≡ first }
        ensures second { result.second ≡ second }
    {
        Chain { first, second }
    }

    /// Puts last what becomes of a record that the first operator sends.
    fn pass_on(
        &self,
        alloc: Global,
        port: u32,
        item: A::Record,
        sent: &mut Vec<(u32, A::Record)>,
    ) -> Result<(), NoMemory>
        requires { MayBeSent (Fits A.Record.HasSpelling A.Record.spelling)
            (A.meaning.ports self.now.first) (port, item) }
        ensures { OnOk result (sent.new.items
            ≡ sent.old.items ++ passed_on B.meaning self.now.second (port, item)) }
    {
        if port == 0 {
            let fresh = self.second.fresh(alloc)?;
            let mut outcome = self.second.apply(alloc, &fresh, &item)?;
            sent.append(&mut outcome.sent)?;
        } else {
            sent.push((self.second.ports() + (port - 1), item))?;
        }
        Ok(())
    }

    /// What becomes of all that the first operator sends.
    fn pass_all(
        &self,
        alloc: Global,
        items: Vec<(u32, A::Record)>,
    ) -> Result<Vec<(u32, A::Record)>, NoMemory>
        requires { All (MayBeSent (Fits A.Record.HasSpelling A.Record.spelling)
            (A.meaning.ports self.now.first)) items.items }
        ensures { IfOk result (λ sent. sent.items
            ≡ flat_map (passed_on B.meaning self.now.second) items.items) }
    {
        let mut sent = Vec::new(alloc);
        for (port, item) in items {
            self.pass_on(alloc, port, item, &mut sent)?;
        }
        Ok(sent)
    }
}

impl<A: Operator, B: Stateless<Record = A::Record>> Operator for Chain<A, B> {
    ghost use Rattle.std.proofs.Props.{props};
    ghost use Rattle.std.specs.Cmp.{first_so, second_so};
    ghost use Rattle.chained_operators.specs.Chains.{chain_meaning};
    ghost use Rattle.chained_operators.specs.ChainLaws.{chain_sent_fits};
    ghost use Rattle.chained_operators.specs.Exact.{same_parts};

    type Record = A::Record;

    type Key = A::Key;

    type State = A::State;

    ghost meaning = { chain_meaning A.meaning B.meaning (λ op. op.first) (λ op. op.second) };

    ghost Suits = { λ op s. A.Suits op.first s };

    fn key(&self, alloc: Global, item: &A::Record) -> Result<Option<A::Key>, NoMemory> {
        self.first.key(alloc, item)
    }

    fn lane(item: &A::Record) -> u64 {
        A::lane(item)
    }

    fn ports(&self) -> u32 {
        self.second.ports() + (self.first.ports() - 1)
    }

    fn fresh(&self, alloc: Global) -> Result<A::State, NoMemory> {
        self.first.fresh(alloc)
    }

    fn suits(&self, state: &A::State) -> bool {
        self.first.suits(state)
    }

    fn apply(
        &self,
        alloc: Global,
        state: &A::State,
        item: &A::Record,
    ) -> Result<Outcome<A::State, A::Record>, NoMemory> {
        let outcome = self.first.apply(alloc, state, item)?;
        let sent = self.pass_all(alloc, outcome.sent)?;
        Ok(Outcome {
            state: outcome.state,
            sent,
        })
    }

    fn copy(&self) -> Result<Chain<A, B>, NoMemory> {
        Ok(Chain {
            first: self.first.copy()?,
            second: self.second.copy()?,
        })
    }

    ghost same_key = { A.same_key };

    ghost key_is_exact = { A.key_is_exact };

    ghost record_is_exact = { A.record_is_exact };

    ghost state_is_exact = { A.state_is_exact };

    ghost operator_is_exact = { λ x y e. same_parts
        (λ a b p. record { first = a; second = b; can_be_chained = p }) (λ a b. Prim.hlevel props)
        x.first y.first x.second y.second x.can_be_chained y.can_be_chained
        (A.operator_is_exact x.first y.first (first_so _ _ e))
        (B.operator_is_exact x.second y.second (second_so _ _ e)) };

    ghost key_fits = { λ op. A.key_fits op.first };

    ghost key_has_lane = { λ op. A.key_has_lane op.first };

    ghost fresh_is_good = { λ op. A.fresh_is_good op.first };

    ghost state_stays_good = { λ op. A.state_stays_good op.first };

    ghost sent_fits = { chain_sent_fits A.meaning B.meaning (λ op. op.first) (λ op. op.second)
        (Fits A.Record.HasSpelling A.Record.spelling) (Fits A.State.HasSpelling A.State.spelling)
        (Fits B.State.HasSpelling B.State.spelling) A.Suits B.Suits A.sent_fits B.sent_fits
        B.fresh_is_good };

    ghost keyless_keeps_fresh = { λ op. A.keyless_keeps_fresh op.first };
}

impl<A: Stateless, B: Stateless<Record = A::Record>> Stateless for Chain<A, B> {
    ghost has_no_keys = { λ op. A.has_no_keys op.first };
}
