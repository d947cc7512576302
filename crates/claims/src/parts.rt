//! Work and results as plain data.

ghost use Rattle.std.specs.Prelude.{◌≡◌, IfOk};
ghost use Rattle.operators.specs.Operator.{OrderIsExact};

use crate::states::States;
use abs_codec::{Codec, NoMemory};
use deliveries::{Fanned, Fans, Sent};
use std::alloc::Global;
use std::marker::Model;
use std::mem::replace;
use std::slice::from_ref;

/// What an operator works: the first records of an input, and under each of their keys the present
/// state, `None` where the key has none yet.
#[derive(Drop)]
pub struct Operand<O, K: Ord, S, R> {
    pub operator: O,
    pub states: States<K, S>,
    pub rows: Vec<R>,
}

/// The lanes of what is sent, one for each record, or none.
#[derive(Drop)]
pub enum Lanes {
    /// That of one record.
    One(u64),
    Each(Vec<u64>),
}

impl Lanes {
    ghost use Rattle.claims.specs.Carried.{lanes_in};

    /// The lanes.
    pub(crate) fn as_slice(&self) -> &[u64]
        ensures { result.now ≡ lanes_in self.now }
    {
        match self {
            Lanes::One(lane) => from_ref(lane),
            Lanes::Each(lanes) => lanes,
        }
    }
}

/// What an operator makes of its records, one after another: the last state of each key, by rising
/// keys, and all records that are sent, each with its port; their lanes, or none of them; and they
/// may be put with their channels already.
#[derive(Drop)]
pub struct Outcomes<K, S, R> {
    pub states: Vec<(K, S)>,
    pub sent: Sent<R>,
    pub lanes: Lanes,
    pub fanned: Option<Fanned<R>>,
}

/// Where a task's records go, as far as the graph tells.
#[derive(Clone, Copy)]
pub struct Exits {
    /// Whether their lanes tell it, on one of the first two ports.
    pub by_lane: bool,
    /// How many channels the first port has, if they take lanes in turn; 0 where it is otherwise.
    pub in_turn: usize,
}

/// An operator's work, and what is made of it. The lanes of what is sent may be asked for, or that
/// it is put with its channels.
#[derive(Drop)]
pub struct Sheet<O, K: Ord, S, R> {
    pub operand: Operand<O, K, S, R>,
    pub outcomes: Outcomes<K, S, R>,
    pub exits: Exits,
    pub fans: Option<Fans>,
}

/// An operator's work behind an owner, with a place for what will be made of it: it is handed on as
/// one word. Contracts see the work.
#[derive(Drop)]
pub struct Load<O, K: Ord, S, R> {
    sheet: Box<Sheet<O, K, S, R>>,
}

impl<O, K: Ord, S, R> Model for Load<O, K, S, R> {
    ghost use Rattle.claims.specs.declared.parts.Operand.{Operand};

    ghost Value = { Operand O K S R };

    ghost view = { λ l. l.sheet.value.operand };
}

impl<O: Drop, K: Ord + Drop, S: Drop, R: Drop> Load<O, K, S, R> {
    pub(crate) fn new(
        alloc: Global,
        operand: Operand<O, K, S, R>,
        exits: Exits,
        fans: Option<Fans>,
    ) -> Result<Self, NoMemory>
        ensures { IfOk result (λ load. load ≡ operand) }
    {
        let outcomes = Outcomes {
            states: Vec::new(alloc),
            sent: Sent::Each(Vec::new(alloc)),
            lanes: Lanes::Each(Vec::new(alloc)),
            fanned: None,
        };
        let sheet = Sheet {
            operand,
            outcomes,
            exits,
            fans,
        };
        let sheet = Box::new(alloc, sheet)?;
        Ok(Load { sheet })
    }
}

impl<O, K: Ord, S, R> Load<O, K, S, R> {
    pub(crate) fn get(&self) -> &Operand<O, K, S, R>
        ensures { result.now ≡ self.now }
    {
        &self.sheet.operand
    }

    /// Where what is sent goes, as far as the graph tells.
    pub(crate) fn exits(&self) -> Exits {
        self.sheet.exits
    }

    /// The channels that what is sent is to be put with, which may be asked for once.
    pub(crate) fn take_fans(&mut self) -> Option<Fans>
        ensures { self.new ≡ self.old }
    {
        let sheet = &mut *self.sheet;
        sheet.fans.take()
    }
}

/// These states, copied where they are lent and there is memory for that. Keys that tie have to be
/// one.
fn settle<K: Codec + Ord, S: Codec>(alloc: Global, states: &mut States<K, S>)
    ensures { OrderIsExact K.Ord.cmp → states.new ≡ states.old }
{
    let given = replace(states, States::none(alloc));
    *states = given.settled(alloc);
}

impl<O, K: Codec + Ord, S: Codec, R> Load<O, K, S, R> {
    /// The same work, with states of its own where there is memory for that. Keys that tie have to
    /// be one.
    pub(crate) fn settled(mut self, alloc: Global) -> Self
        ensures { OrderIsExact K.Ord.cmp → result ≡ self }
    {
        let sheet = &mut *self.sheet;
        settle(alloc, &mut sheet.operand.states);
        self
    }
}

/// An operator's work with what was made of it, behind the same owner. Contracts see both.
#[derive(Drop)]
pub struct Solved<O, K: Ord, S, R> {
    pub(crate) sheet: Box<Sheet<O, K, S, R>>,
}

impl<O, K: Ord, S, R> Model for Solved<O, K, S, R> {
    ghost use Rattle.claims.specs.declared.parts.Sheet.{Sheet};

    ghost Value = { Sheet O K S R };

    ghost view = { λ s. s.sheet.value };
}

impl<O: Drop, K: Ord + Drop, S: Drop, R: Drop> Load<O, K, S, R> {
    /// The work with these outcomes, which are put in their place.
    pub(crate) fn solved(mut self, outcomes: Outcomes<K, S, R>) -> Solved<O, K, S, R>
        ensures work { result.operand ≡ self }
        ensures made { result.outcomes ≡ outcomes }
    {
        let sheet = &mut *self.sheet;
        sheet.outcomes = outcomes;
        Solved { sheet: self.sheet }
    }
}

impl<O, K: Ord, S, R> Solved<O, K, S, R> {
    /// The work.
    pub(crate) fn operand(&self) -> &Operand<O, K, S, R>
        ensures { result.now ≡ self.now.operand }
    {
        &self.sheet.operand
    }
}

/// A task's work: an operator's, or the record that a sink puts out.
#[derive(Drop)]
pub enum Given<O, K: Ord, S, R> {
    Operator(Load<O, K, S, R>),
    Sink(R),
}

/// What was made of a task's work, with that work: an operator's outcomes, the bytes that a sink
/// puts out, or nothing, since memory was refused.
#[derive(Drop)]
pub enum Made<O, K: Ord, S, R> {
    Operator(Solved<O, K, S, R>),
    Sink(R, Vec<u8>),
    Refused(Given<O, K, S, R>),
}
