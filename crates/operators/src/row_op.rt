//! The operators on rows.

ghost use Rattle.std.specs.Prelude.{◌≡◌, [], ◌∷◌, IfOk};
ghost use Rattle.operators.specs.RowMeaning.{sum_of, tell, collect};

use crate::operator::{Operator, Outcome};
use crate::parameters::{RowKey, WindowSize};
use crate::row::Row;
use crate::row_state::RowState;
use abs_codec::{Codec, Items, NoMemory, Text};
use std::alloc::Global;

/// An operator on rows, with its parameter. Sums and differences stop at the least and the greatest
/// `i64`.
#[derive(Debug, PartialEq, Eq, Drop)]
pub enum RowOp {
    /// Adds a number to each value.
    Add { n: i64 },
    /// Gives each row this key.
    Rekey { k: RowKey },
    /// Sends on the rows whose value is at least a number.
    FilterGe { n: i64 },
    /// Sends on the rows whose value is below a number.
    FilterLt { n: i64 },
    /// Sends the rows whose value is at least a number on port 0, and the others on port 1.
    Split { n: i64 },
    /// Sends, for each row, how many of its key there were.
    Count,
    /// Sends, for each row, the sum of its key's values.
    Sum,
    /// Sends, for every so many rows of a key, the sum of their values.
    Window { n: WindowSize },
    /// Sends a row whose value is above 0 with one less on port 1, and the others on port 0.
    LoopDown,
}

/// The outcome that keeps the state and sends one row.
fn send(
    alloc: Global,
    state: RowState,
    port: u32,
    key: &Text,
    v: i64,
) -> Result<Outcome<RowState, Row>, NoMemory>
    ensures state { IfOk result (λ outcome. outcome.state ≡ state) }
    ensures sent { IfOk result (λ outcome. outcome.sent.items
        ≡ (port, record { k = key.now; v = v }) ∷ []) }
{
    let mut sent = Vec::new(alloc);
    let k = key.copied()?;
    sent.push((port, Row { k, v }))?;
    Ok(Outcome { state, sent })
}

/// The outcome that keeps the state and sends nothing.
fn keep(alloc: Global, state: RowState) -> Outcome<RowState, Row>
    ensures state { result.state ≡ state }
    ensures sent { result.sent.items ≡ [] }
{
    Outcome {
        state,
        sent: Vec::new(alloc),
    }
}

/// The outcome that keeps a number and sends it as the row's value.
fn tell(alloc: Global, row: &Row, n: i64) -> Result<Outcome<RowState, Row>, NoMemory>
    ensures state { IfOk result (λ outcome. outcome.state ≡ (tell row.now n).state) }
    ensures sent { IfOk result (λ outcome. outcome.sent.items ≡ (tell row.now n).sent) }
{
    send(alloc, RowState::Number(n), 0, &row.k, n)
}

/// The sum of the values, from the left.
fn sum_of(values: &[i64]) -> i64
    ensures { result ≡ sum_of values.now }
{
    let mut sum: i64 = 0;
    for value in values {
        sum = sum.saturating_add(*value);
    }
    sum
}

/// The outcome of a window that has taken these values, the row's value last.
fn collect(
    alloc: Global,
    size: u32,
    row: &Row,
    values: Vec<i64>,
) -> Result<Outcome<RowState, Row>, NoMemory>
    ensures state { IfOk result (λ outcome. outcome.state
        ≡ (collect size row.now values.items).state) }
    ensures sent { IfOk result (λ outcome. outcome.sent.items
        ≡ (collect size row.now values.items).sent) }
{
    if values.len() < size as usize {
        return Ok(keep(alloc, RowState::Numbers(Items::from_vec(values))));
    }
    let empty = RowState::Numbers(Items::new(alloc));
    send(alloc, empty, 0, &row.k, sum_of(&values))
}

impl Operator for RowOp {
    ghost use Rattle.std.specs.Prelude.{refl};
    ghost use Rattle.std.proofs.lemmas.Map.Lookups.{exact_bytes};
    ghost use Rattle.operators.specs.RowMeaning.{row_meaning, RowSuits};
    ghost use Rattle.operators.specs.RowLaws.{rows_are_exact, states_are_exact, ops_are_exact, row_key_fits, row_key_has_lane, row_fresh_is_good, row_state_stays_good, row_sent_fits, row_keyless_keeps_fresh};

    type Record = Row;

    type Key = Text;

    type State = RowState;

    ghost meaning = { row_meaning };

    ghost Suits = { RowSuits };

    fn key(&self, _alloc: Global, item: &Row) -> Result<Option<Text>, NoMemory> {
        if self.kind().is_keyed() {
            Ok(Some(item.k.copied()?))
        } else {
            Ok(None)
        }
    }

    fn lane(item: &Row) -> u64 {
        item.lane()
    }

    fn ports(&self) -> u32 {
        self.kind().ports()
    }

    fn fresh(&self, alloc: Global) -> Result<RowState, NoMemory> {
        match self {
            RowOp::Count | RowOp::Sum => Ok(RowState::Number(0)),
            RowOp::Window { .. } => Ok(RowState::Numbers(Items::new(alloc))),
            _ => Ok(RowState::Plain),
        }
    }

    fn suits(&self, state: &RowState) -> bool {
        match self {
            RowOp::Count | RowOp::Sum => matches!(state, RowState::Number(_)),
            RowOp::Window { n } => match state {
                RowState::Numbers(values) => values.as_slice().len() < n.n as usize,
                _ => false,
            },
            _ => matches!(state, RowState::Plain),
        }
    }

    fn apply(
        &self,
        alloc: Global,
        state: &RowState,
        item: &Row,
    ) -> Result<Outcome<RowState, Row>, NoMemory> {
        let kept = state.copied()?;
        let k = &item.k;
        let v = item.v;
        match self {
            RowOp::Add { n } => send(alloc, kept, 0, k, v.saturating_add(*n)),
            RowOp::Rekey { k } => send(alloc, kept, 0, &k.text, v),
            RowOp::FilterGe { n } if v < *n => Ok(keep(alloc, kept)),
            RowOp::FilterGe { .. } => send(alloc, kept, 0, k, v),
            RowOp::FilterLt { n } if v < *n => send(alloc, kept, 0, k, v),
            RowOp::FilterLt { .. } => Ok(keep(alloc, kept)),
            RowOp::Split { n } if v < *n => send(alloc, kept, 1, k, v),
            RowOp::Split { .. } => send(alloc, kept, 0, k, v),
            RowOp::Count => tell(alloc, item, kept.number().saturating_add(1)),
            RowOp::Sum => tell(alloc, item, kept.number().saturating_add(v)),
            RowOp::Window { n } => {
                let mut values = kept.into_numbers(alloc);
                values.push(v)?;
                collect(alloc, n.n, item, values)
            }
            RowOp::LoopDown if v > 0 => send(alloc, kept, 1, k, v.saturating_sub(1)),
            RowOp::LoopDown => send(alloc, kept, 0, k, v),
        }
    }

    fn copy(&self) -> Result<RowOp, NoMemory> {
        Ok(match self {
            RowOp::Add { n } => RowOp::Add { n: *n },
            RowOp::Rekey { k } => RowOp::Rekey { k: k.copied()? },
            RowOp::FilterGe { n } => RowOp::FilterGe { n: *n },
            RowOp::FilterLt { n } => RowOp::FilterLt { n: *n },
            RowOp::Split { n } => RowOp::Split { n: *n },
            RowOp::Count => RowOp::Count,
            RowOp::Sum => RowOp::Sum,
            RowOp::Window { n } => RowOp::Window { n: *n },
            RowOp::LoopDown => RowOp::LoopDown,
        })
    }

    ghost same_key = { λ a b. refl };

    ghost key_is_exact = { exact_bytes };

    ghost record_is_exact = { rows_are_exact };

    ghost state_is_exact = { states_are_exact };

    ghost operator_is_exact = { ops_are_exact };

    ghost key_fits = { row_key_fits };

    ghost key_has_lane = { row_key_has_lane };

    ghost fresh_is_good = { row_fresh_is_good };

    ghost state_stays_good = { row_state_stays_good };

    ghost sent_fits = { row_sent_fits };

    ghost keyless_keeps_fresh = { row_keyless_keeps_fresh };
}
