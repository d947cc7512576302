//! Short names for what clauses say of an operator.

ghost use Rattle.std.specs.Prelude.{ℕ, List};
ghost use Rattle.abs_codec.specs.Spelling.{Fits};
ghost use Rattle.operators.specs.Operator.{IsGoodState};
ghost use Rattle.task_part.specs.declared.part.Part.{Part};
ghost use Rattle.task_part.specs.Spelling.{part_spelling};
ghost use Rattle.engine_model.specs.AllRules.{AllRules};
ghost use Rattle.engine_model.specs.Language.{Language, language};

use operators::Operator;

/// What an operator's meaning and spellings give the clauses of a core. Each operator has it.
pub trait Rules: Operator {
    /// What operators mean, and how records, keys and states are spelled and read.
    ghost lang: { Language Self.Record Self.Key Self.State Self };

    /// The record fits, as one that is appended must.
    ghost RecordFits: { Self.Record → Type 0 };

    ghost KeyFits: { Self.Key → Type 0 };

    /// The state fits, and has the operator's form.
    ghost IsGood: { Self → Self.State → Type 0 };

    /// All that contracts ask for of an operator and its types, as one value.
    ghost all: { AllRules Self.Record Self.Key Self.State Self };

    /// How a task's part is spelled.
    ghost spelling: { Part Self.Record Self.Key Self.State → List ℕ };
}

impl<O: Operator> Rules for O {
    ghost lang = { language O.meaning O.Key.cmp O.Record.spelling O.Record.reading O.Key.reading
        O.State.reading };

    ghost RecordFits = { Fits O.Record.HasSpelling O.Record.spelling };

    ghost KeyFits = { Fits O.Key.HasSpelling O.Key.spelling };

    ghost IsGood = { IsGoodState (Fits O.State.HasSpelling O.State.spelling) O.Suits };

    ghost all = { record {
      lang = language O.meaning O.Key.cmp O.Record.spelling O.Record.reading O.Key.reading
          O.State.reading;
      RecordFits = Fits O.Record.HasSpelling O.Record.spelling;
      KeyFits = Fits O.Key.HasSpelling O.Key.spelling;
      StateFits = Fits O.State.HasSpelling O.State.spelling;
      Suits = O.Suits;
    } };

    ghost spelling = { part_spelling O.Record.spelling O.Key.spelling O.State.spelling };
}
