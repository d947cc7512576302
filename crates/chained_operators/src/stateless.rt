//! Operators that keep no state.

ghost use Rattle.chained_operators.specs.Chains.{HasNoKeys};

use operators::Operator;

/// An operator without keys: it keeps no state from record to record.
pub trait Stateless: Operator {
    /// No record has a key.
    ghost has_no_keys: { HasNoKeys Self.meaning };
}
