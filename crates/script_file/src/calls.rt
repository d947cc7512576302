//! The calls that a script names.

ghost use Rattle.std.specs.Prelude.{◌≡◌};

use engine_steps::Step;
use operators::Row;
use std::marker::Model;

/// A call on the core. A row that it appends fits, and a claim is of one record at least. Contracts
/// see it as the call.
#[derive(Drop)]
pub struct FittingCall {
    call: Step<Row>,
}

impl Model for FittingCall {
    ghost use Rattle.abs_codec.specs.Spelling.{Fits};
    ghost use Rattle.engine_steps.specs.Fitting.{StepFits};
    ghost use Rattle.engine_steps.specs.declared.step.Step.{Step};
    ghost use Rattle.operators.specs.RowSpelling.{RowIsSpelled, row_spelling};
    ghost use Rattle.operators.specs.declared.row.Row.{Row};

    ghost Value = { Step Row };

    ghost view = { λ c. c.call };

    ghost invariant = { λ c. StepFits (Fits RowIsSpelled row_spelling) c.call };
}

impl FittingCall {
    ghost use Rattle.std.specs.Prelude.{◌≡◌};
    ghost use Rattle.abs_codec.specs.Spelling.{Fits};
    ghost use Rattle.engine_steps.specs.Fitting.{StepFits};
    ghost use Rattle.operators.specs.RowSpelling.{RowIsSpelled, row_spelling};

    /// This call.
    pub(crate) fn new(call: Step<Row>) -> Self
        requires { StepFits (Fits RowIsSpelled row_spelling) call }
        ensures { result ≡ call }
    {
        FittingCall { call }
    }

    /// The call itself.
    pub fn as_step(&self) -> &Step<Row>
        ensures same { result.now ≡ self.now }
        ensures fits { StepFits (Fits RowIsSpelled row_spelling) result.now }
    {
        &self.call
    }
}
