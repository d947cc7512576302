//! Work, and what was made of it.

ghost use Rattle.std.specs.Prelude.{◌≡◌, ◌≤◌, ◌++◌, [], List, All, map, IfOk, IsTrue, OnOk, vec_len, vec_capacity};
ghost use Rattle.deliveries.specs.Deliveries.{on_first, sent_in, AreFanned};
ghost use Rattle.job_state.specs.Sending.{AreLanes};
ghost use Rattle.claims.specs.declared.parts.Given.TheVariants as Given;
ghost use Rattle.claims.specs.Carried.{HasItsState, IsOperand, IsOutcome, given_of, lanes_in, records_of};
ghost use Rattle.claims.specs.Left.{AllGood, WorksRow, made_of, state_left};
ghost use Rattle.claims.specs.Places.{given_at, left_at, state_at};

use crate::left::{Place, entries_of, place_of, places_of, put_at, state_of};
use crate::parts::{Exits, Given, Lanes, Load, Made, Operand, Outcomes};
use abs_codec::{Codec, NoMemory};
use deliveries::{Fanned, Fans, Sent, turn};
use engine_model::Rules;
use operators::{Operator, Outcome};
use std::alloc::Global;
use std::marker::Model;

/// From so many records on, those that all go into one channel are worth a vector of their own.
const TOGETHER_FROM: usize = 8;

/// A channel takes so many items behind such records with no memory more.
const ROOM_BEHIND: usize = 8;

/// A task's work on the first records of an input, with all that it needs: it can be done by
/// anyone, at any time.
#[derive(Drop)]
pub struct Work<O: Operator> {
    pub(crate) given: Given<O, O::Key, O::State, O::Record>,
}

impl<O: Operator> Model for Work<O> {
    ghost use Rattle.abs_codec.specs.Spelling.{Fits};
    ghost use Rattle.engine_model.specs.AllRules.{all_rules};
    ghost use Rattle.engine_model.specs.Language.{language};
    ghost use Rattle.claims.specs.declared.parts.Given.{Given};
    ghost use Rattle.claims.specs.Carried.{IsGiven};

    ghost Value = { Given O O.Key O.State O.Record };

    ghost view = { λ w. w.given };

    ghost invariant = { λ w. IsGiven (all_rules (language O.meaning O.Key.cmp
        O.Record.spelling O.Record.reading O.Key.reading O.State.reading)
        (Fits O.Record.HasSpelling O.Record.spelling) (Fits O.Key.HasSpelling O.Key.spelling)
        (Fits O.State.HasSpelling O.State.spelling) O.Suits) w.given };
}

/// Work that was done, or for which memory was refused, with what it was made of.
#[derive(Drop)]
pub struct Worked<O: Operator> {
    pub(crate) made: Made<O, O::Key, O::State, O::Record>,
}

impl<O: Operator> Model for Worked<O> {
    ghost use Rattle.abs_codec.specs.Spelling.{Fits};
    ghost use Rattle.engine_model.specs.AllRules.{all_rules};
    ghost use Rattle.engine_model.specs.Language.{language};
    ghost use Rattle.claims.specs.declared.parts.Made.{Made};
    ghost use Rattle.claims.specs.Carried.{IsMade};

    ghost Value = { Made O O.Key O.State O.Record };

    ghost view = { λ w. w.made };

    ghost invariant = { λ w. IsMade (all_rules (language O.meaning O.Key.cmp
        O.Record.spelling O.Record.reading O.Key.reading O.State.reading)
        (Fits O.Record.HasSpelling O.Record.spelling) (Fits O.Key.HasSpelling O.Key.spelling)
        (Fits O.State.HasSpelling O.State.spelling) O.Suits) O.Record.spelling w.made };
}

/// What an operator makes of a record, in the state that was left under its key.
fn outcome_of<O: Operator>(
    alloc: Global,
    operand: &Operand<O, O::Key, O::State, O::Record>,
    left: &[Place<O::Key, O::State>],
    place: Option<usize>,
    row: &O::Record,
) -> Result<Outcome<O::State, O::Record>, NoMemory>
    requires operand { IsOperand ⟦<O as Rules>⟧.all operand.now }
    requires fits { ⟦<O as Rules>⟧.RecordFits row.now }
    requires good { AllGood O.Key.cmp (⟦<O as Rules>⟧.IsGood operand.now.operator)
        (left_at left.now) }
    requires state { state_at left.now place ≡ state_left O.Key.cmp operand.now.states
        (left_at left.now) (O.meaning.key operand.now.operator row.now) }
    ensures state { IfOk result (λ outcome. outcome.state
        ≡ (made_of O.meaning O.Key.cmp operand.now (left_at left.now) row.now).state) }
    ensures sent { IfOk result (λ outcome. outcome.sent.items
        ≡ (made_of O.meaning O.Key.cmp operand.now (left_at left.now) row.now).sent) }
    ensures good { IfOk result (λ outcome.
        ⟦<O as Rules>⟧.IsGood operand.now.operator outcome.state) }
{
    let Some(state) = state_of(left, place) else {
        let fresh = operand.operator.fresh(alloc)?;
        return operand.operator.apply(alloc, &fresh, row);
    };
    operand.operator.apply(alloc, state, row)
}

/// Puts records last in a list. Where it has none, and no room for them, their own vector is taken.
fn put_last<R: Drop>(sent: &mut Vec<R>, mut more: Vec<R>) -> Result<(), NoMemory>
    ensures { OnOk result (sent.new.items ≡ sent.old.items ++ more.items) }
{
    if sent.is_empty() && sent.capacity() < more.len() {
        *sent = more;
    } else {
        sent.append(&mut more)?;
    }
    Ok(())
}

/// An operator works a record: its key's state is left, and what is sent is put last. The key's
/// place may be the one that is guessed.
fn work_row<O: Operator>(
    alloc: Global,
    operand: &Operand<O, O::Key, O::State, O::Record>,
    row: &O::Record,
    guess: Option<&u32>,
    left: &mut [Place<O::Key, O::State>],
    sent: &mut Vec<(u32, O::Record)>,
) -> Result<(), NoMemory>
    requires operand { IsOperand ⟦<O as Rules>⟧.all operand.now }
    requires fits { ⟦<O as Rules>⟧.RecordFits row.now }
    requires keyed { HasItsState O.meaning O.Key.cmp operand.now.operator operand.now.states
        row.now }
    requires given { given_at left.old ≡ operand.now.states }
    requires good { AllGood O.Key.cmp (⟦<O as Rules>⟧.IsGood operand.now.operator)
        (left_at left.old) }
    ensures works { OnOk result (WorksRow O.meaning O.Key.cmp operand.now (left_at left.old)
        row.now (left_at left.new) sent.old.items sent.new.items) }
    ensures given { given_at left.new ≡ given_at left.old }
    ensures good { OnOk result (AllGood O.Key.cmp
        (⟦<O as Rules>⟧.IsGood operand.now.operator) (left_at left.new)) }
{
    let key = operand.operator.key(alloc, row)?;
    let place = place_of(left, &key, guess);
    let outcome = outcome_of(alloc, operand, left, place, row)?;
    put_last(sent, outcome.sent)?;
    if let Some(place) = place {
        put_at(left, place, outcome.state);
    }
    Ok(())
}

/// The lane of each record that is sent.
fn each_lane<O: Operator>(alloc: Global, sent: &[(u32, O::Record)]) -> Result<Vec<u64>, NoMemory>
    ensures { IfOk result (λ lanes. lanes.items ≡ map (λ s. O.meaning.lane s.1) sent.now) }
{
    let mut lanes = Vec::with_capacity(alloc, sent.len())?;
    for each in sent {
        lanes.push(O::lane(&each.1))?;
    }
    Ok(lanes)
}

/// The lanes of what is sent, where they are asked for. One takes no memory.
fn lanes_of<O: Operator>(
    alloc: Global,
    sent: &[(u32, O::Record)],
    by_lane: bool,
) -> Result<Lanes, NoMemory>
    ensures { IfOk result (λ lanes. AreLanes O.meaning sent.now (lanes_in lanes)) }
{
    if !by_lane {
        return Ok(Lanes::Each(Vec::new(alloc)));
    }
    if sent.len() == 1 {
        return Ok(Lanes::One(O::lane(&sent[0].1)));
    }
    Ok(Lanes::Each(each_lane::<O>(alloc, sent)?))
}

/// What is sent, put with these channels, if any are asked for.
fn fanned_to<R: Codec>(
    alloc: Global,
    sent: &[(u32, R)],
    fans: Option<Fans>,
) -> Result<Option<Fanned<R>>, NoMemory>
    ensures { IfOk result (AreFanned sent.now) }
{
    let Some(fans) = fans else {
        return Ok(None);
    };
    Ok(Some(fans.fanned(alloc, sent)?))
}

/// Whether all of these records are sent on the first port.
fn are_on_first<R>(sent: &[(u32, R)]) -> bool
    ensures { IsTrue result → All (λ s. s.0 ≡ 0) sent.now }
{
    sent.iter().all(|each| each.0 == 0)
}

/// Whether one of so many channels, which take lanes in turn, takes all of these.
fn share_turn(lanes: &[u64], in_turn: usize) -> bool {
    let Some(first) = lanes.first() else {
        return in_turn == 1;
    };
    if in_turn == 0 {
        return false;
    }
    let chosen = turn(*first, in_turn);
    for lane in lanes {
        if turn(*lane, in_turn) != chosen {
            return false;
        }
    }
    true
}

/// The records that are sent on the first port alone, in a vector with room for some more.
fn without_port<R: Drop>(sent: Vec<(u32, R)>, mut rows: Vec<R>) -> Vec<R>
    requires first { All (λ s. s.0 ≡ 0) sent.items }
    requires none { rows.items ≡ [] }
    requires room { vec_len sent ≤ vec_capacity rows }
    ensures { on_first result.items ≡ sent.items }
{
    for (_, row) in sent {
        rows.push_reserved(row);
    }
    rows
}

/// What is sent, in a vector that a channel can take as it is, if one of so many channels of the
/// first port, which take lanes in turn, takes it all.
fn sent_of<R: Drop>(
    alloc: Global,
    sent: Vec<(u32, R)>,
    lanes: &[u64],
    in_turn: usize,
) -> Result<Sent<R>, NoMemory>
    ensures { IfOk result (λ made. sent_in made ≡ sent.items) }
{
    if sent.len() >= TOGETHER_FROM && share_turn(lanes, in_turn) && are_on_first(&sent) {
        let room = sent.len().saturating_add(ROOM_BEHIND);
        let rows = Vec::with_capacity(alloc, room)?;
        return Ok(Sent::Together(without_port(sent, rows)));
    }
    Ok(Sent::Each(sent))
}

/// What an operator makes of its records, from the first to the last, each in the state that the
/// former left under its key.
fn outcomes_of<O: Operator>(
    alloc: Global,
    operand: &Operand<O, O::Key, O::State, O::Record>,
    exits: Exits,
    fans: Option<Fans>,
) -> Result<Outcomes<O::Key, O::State, O::Record>, NoMemory>
    requires { IsOperand ⟦<O as Rules>⟧.all operand.now }
    ensures { IfOk result (IsOutcome O.meaning O.Key.cmp operand.now) }
{
    let Some(copies) = operand.states.as_copies() else {
        return Err(NoMemory);
    };
    let mut left = places_of(alloc, copies)?;
    // What one record sends is in a vector already.
    let room = if operand.rows.len() == 1 {
        0
    } else {
        operand.rows.len()
    };
    let mut sent = Vec::with_capacity(alloc, room)?;
    let mut guesses = copies.guesses().iter();
    for row in &operand.rows {
        let guess = guesses.next();
        work_row(alloc, operand, row, guess, &mut left, &mut sent)?;
    }
    let states = entries_of(alloc, left)?;
    let lanes = lanes_of::<O>(alloc, &sent, exits.by_lane)?;
    let fanned = fanned_to(alloc, &sent, fans)?;
    let in_turn = if fanned.is_some() { 0 } else { exits.in_turn };
    let outgoing = sent_of(alloc, sent, lanes.as_slice(), in_turn)?;
    Ok(Outcomes {
        states,
        sent: outgoing,
        lanes,
        fanned,
    })
}

/// The same work, with states of its own where there is memory for that.
fn settled<O: Operator>(
    alloc: Global,
    load: Load<O, O::Key, O::State, O::Record>,
) -> Load<O, O::Key, O::State, O::Record>
    ensures { result ≡ load }
{
    load.settled(alloc)
}

/// An operator's work is done.
fn worked_operand<O: Operator>(
    alloc: Global,
    load: Load<O, O::Key, O::State, O::Record>,
) -> Worked<O>
    requires { IsOperand ⟦<O as Rules>⟧.all load }
    ensures { given_of result ≡ Given.Operator load }
{
    let mut own = settled(alloc, load);
    let fans = own.take_fans();
    match outcomes_of(alloc, own.get(), own.exits(), fans) {
        Ok(outcomes) => Worked {
            made: Made::Operator(own.solved(outcomes)),
        },
        Err(_) => Worked {
            made: Made::Refused(Given::Operator(own)),
        },
    }
}

/// The spelling of a record, in a vector that is as long from the start.
fn row_spelling<R: Codec>(alloc: Global, row: &R) -> Result<Vec<u8>, NoMemory>
    ensures { IfOk result (λ bytes. bytes.items ≡ R.spelling row.now) }
{
    let Some(rest) = row.room_after(usize::MAX) else {
        return Err(NoMemory);
    };
    let mut bytes = Vec::with_capacity(alloc, usize::MAX - rest)?;
    match row.encode(&mut bytes) {
        Ok(()) => Ok(bytes),
        Err(_) => Err(NoMemory),
    }
}

/// A sink's record is spelled.
fn worked_row<O: Operator>(alloc: Global, row: O::Record) -> Worked<O>
    ensures { given_of result ≡ Given.Sink row }
{
    match row_spelling(alloc, &row) {
        Ok(bytes) => Worked {
            made: Made::Sink(row, bytes),
        },
        Err(_) => Worked {
            made: Made::Refused(Given::Sink(row)),
        },
    }
}

/// How many records work takes.
fn count_of<O, K: Ord, S, R>(given: &Given<O, K, S, R>) -> usize
    ensures { result ≡ records_of given.now }
{
    match given {
        Given::Operator(load) => load.get().rows.len(),
        Given::Sink(_) => 1,
    }
}

impl<O: Operator> Work<O> {
    ghost use Rattle.std.specs.Prelude.{◌≡◌};
    ghost use Rattle.claims.specs.Carried.{given_of, records_of};

    /// How many records the work takes: one, where it is a sink's.
    pub fn records(&self) -> usize
        ensures { result ≡ records_of self.now }
    {
        count_of(&self.given)
    }

    /// Does the work: an operator works its records from the first to the last, each in the state
    /// that the former left under its key. It waits for nobody, and copies no record; states that
    /// were lent are copied once each. What is made carries the work, also where memory was
    /// refused.
    pub fn run(self, alloc: Global) -> Worked<O>
        ensures { given_of result ≡ self }
    {
        match self.given {
            Given::Operator(load) => worked_operand(alloc, load),
            Given::Sink(row) => worked_row(alloc, row),
        }
    }
}

impl<O: Operator> Worked<O> {
    ghost use Rattle.std.specs.Prelude.{◌≡◌};
    ghost use Rattle.claims.specs.Carried.{given_of, records_of};

    /// How many records the work takes that this was made of.
    pub fn records(&self) -> usize
        ensures { result ≡ records_of (given_of self.now) }
    {
        match &self.made {
            Made::Operator(solved) => solved.operand().rows.len(),
            Made::Sink(_, _) => 1,
            Made::Refused(given) => count_of(given),
        }
    }
}
