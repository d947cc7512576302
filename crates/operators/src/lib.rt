//! Operators: what each makes of a record in the state of the record's key. Proved: the trait's
//! laws for the nine row operators; `apply` is the operator's meaning.
//!
//! An [`Operator`] is a value with a ghost `meaning`: a function of that value, a state and a
//! record, which gives the next state and the records to send, each with its port. Every method is
//! specified by the meaning, and the trait's laws say what a caller relies on: records that fit,
//! and states that fit and have the operator's form, lead to such again, on the operator's own
//! ports; records with one key have one lane; what compares equal is the same value. So a record
//! that is worked off again after a failure, in the state of then, gives the same again.
//!
//! There are nine operators on rows ([`RowOp`]), whose words, numbers, parameters and ports one
//! table has ([`RowKind`]).
#![tactic(auto)]

mod operator;
mod parameters;
mod row;
mod row_op;
mod row_state;
mod row_table;

pub use operator::{Operator, Outcome};
pub use parameters::{KEY_LIMIT, Parameter, ParameterForm, RowKey, WINDOW_LIMIT, WindowSize};
pub use row::Row;
pub use row_op::RowOp;
pub use row_state::RowState;
pub use row_table::RowKind;
