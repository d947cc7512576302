//! What a core of row operators has committed.

ghost use Rattle.std.specs.Prelude.{◌≡◌, ℤ, Some, slice_get, true, map};
ghost use Rattle.operators.specs.declared.row_op.RowOp.TheVariants as RowOp;
ghost use Rattle.engine_lines.specs.Laws.{added};
ghost use Rattle.engine_lines.specs.Lines.{IsLine, CommitsABeginning};
ghost use Rattle.engine.specs.Rows.{row_language};

use crate::calls::Engine;
use commit_sink::Transactions;
use operators::{Row, RowOp};
use snapshot_store::SnapshotStore;
use source_log::Partitions;

impl<S: SnapshotStore, X: Transactions, P: Partitions<Record = Row>> Engine<RowOp, S, X, P> {
    /// A law, with nothing to do: a line of `add n` over devices that were new has committed the
    /// first so many rows of its partition with `n` added to each, saturating. It is none where no
    /// checkpoint was committed, and as many as the source's part of the last committed one spells,
    /// where the store still has it.
    pub fn lines_commit_sums(&self)
        ensures { self.now.is_fresh ≡ true → IsLine self.now.graph → (n : ℤ)
            → slice_get self.now.operators 0 ≡ Some (RowOp.Add n)
            → CommitsABeginning row_language self.now (λ rows. map (added n) rows) }
    {
        // (brings into the proof what every engine keeps)
        let _ = &self.is_fresh;
    }
}
