//! Row operators without keys.

ghost use Rattle.std.specs.Prelude.{◌≡◌, IfSome, IfNone, IfOk, true, false};
ghost use Rattle.operators.specs.RowTable.{op_row};

use abs_codec::{NoMemory, Text};
use chained_operators::Stateless;
use operators::{Operator, Outcome, Row, RowOp, RowState};
use std::alloc::Global;

/// A row operator that keeps no state, as the second of a [`Chain`](crate::Chain) must be: any but
/// count, sum and window.
#[derive(Debug, PartialEq, Eq, Drop)]
pub struct KeylessRowOp {
    pub op: RowOp,
    pub ghost keyless: { (op_row op).is_keyed ≡ false },
}

impl KeylessRowOp {
    /// The operator, if it keeps no state.
    pub fn new(op: RowOp) -> Option<KeylessRowOp>
        ensures some { IfSome result (λ keyless. keyless.op ≡ op) }
        ensures none { IfNone result ((op_row op).is_keyed ≡ true) }
    {
        if op.kind().is_keyed() {
            return None;
        }
        Some(KeylessRowOp { op })
    }
}

impl Operator for KeylessRowOp {
    ghost use Rattle.std.specs.Prelude.{refl};
    ghost use Rattle.std.proofs.Props.{props};
    ghost use Rattle.std.proofs.lemmas.Map.Lookups.{exact_bytes};
    ghost use Rattle.operators.specs.Exact.{same_part};
    ghost use Rattle.operators.specs.Operator.{meaning_by};
    ghost use Rattle.operators.specs.RowMeaning.{row_meaning, RowSuits};
    ghost use Rattle.operators.specs.RowLaws.{rows_are_exact, states_are_exact, ops_are_exact, row_key_fits, row_key_has_lane, row_fresh_is_good, row_state_stays_good, row_sent_fits, row_keyless_keeps_fresh};

    type Record = Row;

    type Key = Text;

    type State = RowState;

    ghost meaning = { meaning_by (λ keyless. keyless.op) row_meaning };

    ghost Suits = { λ keyless state. RowSuits keyless.op state };

    fn key(&self, alloc: Global, item: &Row) -> Result<Option<Text>, NoMemory> {
        self.op.key(alloc, item)
    }

    fn lane(item: &Row) -> u64 {
        item.lane()
    }

    fn ports(&self) -> u32 {
        self.op.ports()
    }

    fn fresh(&self, alloc: Global) -> Result<RowState, NoMemory> {
        self.op.fresh(alloc)
    }

    fn suits(&self, state: &RowState) -> bool {
        self.op.suits(state)
    }

    fn apply(
        &self,
        alloc: Global,
        state: &RowState,
        item: &Row,
    ) -> Result<Outcome<RowState, Row>, NoMemory> {
        self.op.apply(alloc, state, item)
    }

    fn copy(&self) -> Result<KeylessRowOp, NoMemory> {
        Ok(KeylessRowOp {
            op: self.op.copy()?,
        })
    }

    ghost same_key = { λ a b. refl };

    ghost key_is_exact = { exact_bytes };

    ghost record_is_exact = { rows_are_exact };

    ghost state_is_exact = { states_are_exact };

    ghost operator_is_exact = { λ x y e. same_part (λ op h. record { op = op; keyless = h })
        (λ op. Prim.hlevel props) x.op y.op x.keyless y.keyless (ops_are_exact x.op y.op e) };

    ghost key_fits = { λ keyless. row_key_fits keyless.op };

    ghost key_has_lane = { λ keyless. row_key_has_lane keyless.op };

    ghost fresh_is_good = { λ keyless. row_fresh_is_good keyless.op };

    ghost state_stays_good = { λ keyless. row_state_stays_good keyless.op };

    ghost sent_fits = { λ keyless. row_sent_fits keyless.op };

    ghost keyless_keeps_fresh = { λ keyless. row_keyless_keeps_fresh keyless.op };
}

impl Stateless for KeylessRowOp {
    ghost use Rattle.operators.specs.RowLaws.{keyless_has_no_key};

    ghost has_no_keys = { λ keyless row. keyless_has_no_key keyless.op row keyless.keyless };
}
