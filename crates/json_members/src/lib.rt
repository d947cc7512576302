//! JSON values and the members of objects. Proved: the value that bytes spell, or that they spell
//! none; whether an object has no members but those named; and the text or the whole number that
//! stands under a name, or that none does.
//!
//! What is answered is the value or None, so that each reader of a format has faults of its own.
#![tactic(auto)]

mod json;
mod members;

pub use json::json_of;
pub use members::{has_only, text_at, whole_at};
