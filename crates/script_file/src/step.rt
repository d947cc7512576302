//! The steps of a script.

ghost use Rattle.std.specs.Prelude.{◌≡◌, ◌<◌, [], IfOk};
ghost use Rattle.abs_codec.specs.Spelling.{Fits};
ghost use Rattle.engine_steps.specs.Fitting.{StepFits};
ghost use Rattle.operators.specs.RowSpelling.{RowIsSpelled, row_spelling};
ghost use Rattle.script_file.specs.declared.step.ScriptStep.TheVariants.{Call};
ghost use Rattle.script_file.specs.Faults.{FindsItem, Gives};
ghost use Rattle.script_file.specs.Cuts.{bad, cut};
ghost use Rattle.script_file.specs.Steps.{number_of_text, signed_of_text, count_of_text, one_number, two_numbers, persisted, claimed, appended, step_with, step_of, step_at};
ghost use Rattle.script_file.specs.Lists.{each_after};
ghost use Rattle.serde_json.specs.View.{view, items_view};

use crate::calls::FittingCall;
use crate::fault::{ItemFault, ScriptFault};
use crate::faulty::fault;
use crate::number::{number, signed_number};
use crate::rows::{FittingRow, fitting_row};
use engine_steps::{DeviceCall, Step};
use fault_plan::When;
use operators::Row;
use serde_json::Value;
use std::alloc::Global;

/// A step of a script.
#[derive(Drop)]
pub enum ScriptStep {
    /// One call on the core.
    Call(FittingCall),
    /// A task claims the record at the head of its input, works it, and finishes.
    Work(u32, u32),
    /// The next call of the device fails, before its work or after it.
    Fault(DeviceCall, When),
}

/// The step that makes this call.
fn step_for(call: Step<Row>) -> ScriptStep
    requires { StepFits (Fits RowIsSpelled row_spelling) call }
    ensures { result ≡ Call call }
{
    ScriptStep::Call(FittingCall::new(call))
}

/// What stands before the first space and after it.
pub(crate) fn cut(text: &str) -> Result<(&str, &str), ItemFault>
    ensures { FindsItem (λ p. (p.0.now, p.1.now)) result (bad (cut text.now)) }
{
    text.split_once(' ').ok_or(ItemFault::Bad)
}

fn number_of(text: &str) -> Result<u32, ItemFault>
    ensures { FindsItem (λ n. n) result (number_of_text text.now) }
{
    number(text).ok_or(ItemFault::Bad)
}

fn signed_number_of(text: &str) -> Result<i64, ItemFault>
    ensures { FindsItem (λ n. n) result (signed_of_text text.now) }
{
    signed_number(text).ok_or(ItemFault::Bad)
}

fn two_numbers(text: &str) -> Result<(u32, u32), ItemFault>
    ensures { FindsItem (λ p. p) result (two_numbers text.now) }
{
    let (first, second) = cut(text)?;
    Ok((number_of(first)?, number_of(second)?))
}

/// A number from 1 to this limit.
fn count_of(text: &str, limit: u32) -> Result<u32, ItemFault>
    ensures found { FindsItem (λ n. n) result (count_of_text text.now limit) }
    ensures some { IfOk result (λ n. 0 < n) }
{
    let count = number_of(text)?;
    if count == 0 || count > limit {
        return Err(ItemFault::Bad);
    }
    Ok(count)
}

/// A task's number, which may be followed by how many entries are worked at most.
#[tactic(auto, unfolding(crate::specs::Steps::persisted))]
fn persisted(text: &str) -> Result<ScriptStep, ItemFault>
    ensures { FindsItem (λ s. s) result (persisted text.now) }
{
    if let Some(task) = number(text) {
        return Ok(step_for(Step::Persist(task)));
    }
    let (task, count) = cut(text)?;
    Ok(step_for(Step::PersistSome(number_of(task)?, count_of(count, 1_000_000)?)))
}

/// A task's number and an input's, which may be followed by how many records are claimed at most.
#[tactic(auto, unfolding(crate::specs::Steps::claimed))]
fn claimed(text: &str) -> Result<ScriptStep, ItemFault>
    ensures { FindsItem (λ s. s) result (claimed text.now) }
{
    let (task, rest) = cut(text)?;
    let task = number_of(task)?;
    if let Some(input) = number(rest) {
        return Ok(step_for(Step::Claim(task, input)));
    }
    let (input, most) = cut(rest)?;
    let input = number_of(input)?;
    Ok(step_for(Step::ClaimSome(task, input, count_of(most, 1_024)?)))
}

#[tactic(auto, unfolding(crate::specs::Steps::appended))]
fn appended(alloc: Global, text: &str) -> Result<(u32, FittingRow), ItemFault>
    ensures { FindsItem (λ p. p) result (appended text.now) }
{
    let (partition, rest) = cut(text)?;
    let partition = number_of(partition)?;
    let (value, key) = cut(rest)?;
    let v = signed_number_of(value)?;
    Ok((partition, fitting_row(alloc, key, v)?))
}

#[tactic(auto, unfolding(crate::specs::Steps::step_with))]
fn step_with(alloc: Global, word: &str, rest: &str) -> Result<ScriptStep, ItemFault>
    ensures { FindsItem (λ s. s) result (step_with word.now rest.now) }
{
    match word {
        "read" => Ok(step_for(Step::Read(number_of(rest)?))),
        "work" => {
            let (task, input) = two_numbers(rest)?;
            Ok(ScriptStep::Work(task, input))
        }
        "claim" => claimed(rest),
        "finish" => Ok(step_for(Step::Finish(number_of(rest)?))),
        "barrier" => {
            let (task, input) = two_numbers(rest)?;
            Ok(step_for(Step::Barrier(task, input)))
        }
        "inject" => Ok(step_for(Step::Inject(number_of(rest)?))),
        "persist" => persisted(rest),
        "commit" => Ok(step_for(Step::Commit(number_of(rest)?))),
        "drain" => Ok(step_for(Step::Drain(number_of(rest)? as u64))),
        "append" => {
            let (partition, row) = appended(alloc, rest)?;
            Ok(step_for(Step::Append(partition, row.into_row())))
        }
        "fault" => {
            let (call, when) = fault(rest)?;
            Ok(ScriptStep::Fault(call, when))
        }
        _ => Err(ItemFault::Bad),
    }
}

/// The step that a text is: words parted by one space, numbers decimal with no leading zeros.
#[tactic(auto, unfolding(crate::specs::Steps::step_of))]
pub fn parse_step(alloc: Global, text: &str) -> Result<ScriptStep, ItemFault>
    ensures { FindsItem (λ s. s) result (step_of text.now) }
{
    match text {
        "trigger" => Ok(step_for(Step::Trigger)),
        "complete" => Ok(step_for(Step::Complete)),
        "settle" => Ok(step_for(Step::Settle)),
        "fail" => Ok(step_for(Step::Fail)),
        "restart" => Ok(step_for(Step::Restart)),
        _ => {
            let (word, rest) = cut(text)?;
            step_with(alloc, word, rest)
        }
    }
}

/// The step of this number in its list.
fn step_at(alloc: Global, number: usize, value: &Value) -> Result<ScriptStep, ScriptFault>
    ensures { Gives (λ s. s) result (step_at number (view value.now)) }
{
    match parse_step(alloc, value.as_str().unwrap_or("")) {
        Ok(step) => Ok(step),
        Err(ItemFault::Bad) => Err(ScriptFault::BadStep(number)),
        Err(ItemFault::Memory) => Err(ScriptFault::Memory),
    }
}

/// The steps of a list of texts, or the first that is none.
pub fn steps(alloc: Global, items: &[Value]) -> Result<Vec<ScriptStep>, ScriptFault>
    ensures { Gives (λ v. v.items) result (each_after step_at [] (items_view items.now)) }
{
    let mut found = Vec::new(alloc);
    for item in items {
        let step = step_at(alloc, found.len(), item)?;
        found.push(step)?;
    }
    Ok(found)
}
