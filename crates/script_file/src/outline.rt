//! The text of a script as JSON, and its three members.

ghost use Rattle.std.specs.Prelude.{◌≡◌};
ghost use Rattle.script_file.specs.Faults.{Gives};
ghost use Rattle.script_file.specs.Json.{value_of, are_arrays, are_texts};
ghost use Rattle.script_file.specs.Outline.{outline_view, outline_at, list_at, lists_at, texts_at, member_at};
ghost use Rattle.serde_json.specs.View.{view, items_view};

use crate::fault::ScriptFault;
use json_members::{has_only, json_of};
use serde_json::Value;
use std::alloc::Global;

const MAX_BYTES: usize = 16_777_216;

/// The members of a script.
#[derive(Drop)]
pub struct Outline<'v> {
    pub job: &'v Value,
    /// A list for each partition.
    pub partitions: &'v [Value],
    /// A text for each step.
    pub steps: &'v [Value],
}

/// The JSON value of a text of at most 16,777,216 bytes.
#[tactic(auto, unfolding(crate::specs::Json::value_of))]
pub fn json_value(alloc: Global, bytes: &[u8]) -> Result<Value, ScriptFault>
    ensures { Gives view result (value_of bytes.now) }
{
    if bytes.len() > MAX_BYTES {
        return Err(ScriptFault::TooLong);
    }
    json_of(alloc, bytes)?.ok_or(ScriptFault::NotJson)
}

fn are_arrays(items: &[Value]) -> bool
    ensures { result ≡ are_arrays (items_view items.now) }
{
    items.iter().all(|item| item.is_array())
}

fn are_texts(items: &[Value]) -> bool
    ensures { result ≡ are_texts (items_view items.now) }
{
    items.iter().all(|item| item.is_string())
}

fn member<'v>(value: &'v Value, name: &str) -> Result<&'v Value, ScriptFault>
    ensures { Gives (λ v. view v.now) result (member_at name.now (view value.now)) }
{
    value.get(name).ok_or(ScriptFault::BadField)
}

fn list<'v>(value: &'v Value, name: &str) -> Result<&'v Vec<Value>, ScriptFault>
    ensures { Gives (λ v. items_view v.now.items) result (list_at name.now (view value.now)) }
{
    member(value, name)?.as_array().ok_or(ScriptFault::BadField)
}

/// The list under this name, each item of which is a list.
fn lists<'v>(value: &'v Value, name: &str) -> Result<&'v [Value], ScriptFault>
    ensures { Gives (λ v. items_view v.now) result (lists_at name.now (view value.now)) }
{
    let items = list(value, name)?;
    if are_arrays(items) {
        Ok(items)
    } else {
        Err(ScriptFault::BadField)
    }
}

/// The list under this name, each item of which is a text.
fn texts<'v>(value: &'v Value, name: &str) -> Result<&'v [Value], ScriptFault>
    ensures { Gives (λ v. items_view v.now) result (texts_at name.now (view value.now)) }
{
    let items = list(value, name)?;
    if are_texts(items) {
        Ok(items)
    } else {
        Err(ScriptFault::BadField)
    }
}

/// The members of a script's value: exactly a job, a list of lists and a list of texts.
#[tactic(auto, unfolding(crate::specs::Outline::outline_at))]
pub fn outline_of(value: &Value) -> Result<Outline<'_>, ScriptFault>
    ensures { Gives outline_view result (outline_at (view value.now)) }
{
    let job = member(value, "job")?;
    let partitions = lists(value, "partitions")?;
    let steps = texts(value, "steps")?;
    if has_only(value, &["job", "partitions", "steps"]) {
        Ok(Outline {
            job,
            partitions,
            steps,
        })
    } else {
        Err(ScriptFault::BadField)
    }
}
