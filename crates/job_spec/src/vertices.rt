//! The vertices of a job file.

ghost use Rattle.std.specs.Prelude.{◌≡◌, IfOk, map, []};
ghost use Rattle.operators.specs.Parameters.{form_of, parameter_view};
ghost use Rattle.job_spec.specs.Job.{kind_view, operator_view, vertex_view, vertices_view};
ghost use Rattle.job_spec.specs.Reading.{Gives, kind_at, operator_at, parameter_at, any_number, row_key, window_size, member_names, vertex_at, vertices_after, optional, number};
ghost use Rattle.serde_json.specs.Find.{get};
ghost use Rattle.serde_json.specs.View.{view, items_view};
ghost use Rattle.std.specs.Prelude.{codes};

use crate::fault::JobFault;
use crate::members::{member, name, number};
use crate::vertex::{Kind, VertexSpec};
use abs_codec::Text;
use indexmap::IndexMap;
use json_members::{has_only, text_at, whole_at};
use operators::{
    KEY_LIMIT, Parameter, ParameterForm, RowKey, RowKind, RowOp, WINDOW_LIMIT, WindowSize,
};
use serde_json::Value;
use std::alloc::Global;

/// An operator's parameter that is any number of 64 bits.
fn any_number(value: &Value) -> Result<i64, JobFault>
    ensures { Gives (λ n. n) result (any_number (view value.now)) }
{
    whole_at(value, "n").ok_or(JobFault::BadField)
}

fn row_key(alloc: Global, value: &Value) -> Result<RowKey, JobFault>
    ensures { Gives (λ key. key.text) result (row_key (view value.now)) }
{
    let key = text_at(value, "k").ok_or(JobFault::BadField)?;
    if key.len() > KEY_LIMIT as usize {
        return Err(JobFault::BadField);
    }
    RowKey::new(Text::from_str(alloc, key)?).ok_or(JobFault::BadField)
}

fn window_size(value: &Value) -> Result<WindowSize, JobFault>
    ensures { Gives (λ size. size.n) result (window_size (view value.now)) }
{
    let n = number(member(value, "n")?, 1, WINDOW_LIMIT)?;
    WindowSize::new(n).ok_or(JobFault::BadField)
}

/// An operator's parameter, which is of this form.
fn parameter(alloc: Global, form: ParameterForm, value: &Value) -> Result<Parameter, JobFault>
    ensures read { Gives parameter_view result (parameter_at form (view value.now)) }
    ensures form { IfOk result (λ parameter. form_of (parameter_view parameter) ≡ form) }
{
    Ok(match form {
        ParameterForm::Nothing => Parameter::Nothing,
        ParameterForm::Number => Parameter::Number(any_number(value)?),
        ParameterForm::Key => Parameter::Key(row_key(alloc, value)?),
        ParameterForm::Size => Parameter::Size(window_size(value)?),
    })
}

#[tactic(auto, unfolding(crate::specs::Reading::operator_at))]
fn operator_of(alloc: Global, word: &str, value: &Value) -> Result<RowOp, JobFault>
    ensures { Gives operator_view result (operator_at word.now (view value.now)) }
{
    let kind = RowKind::named(word).ok_or(JobFault::BadField)?;
    let parameter = parameter(alloc, kind.form(), value)?;
    RowOp::new(kind, parameter).ok_or(JobFault::BadField)
}

#[tactic(auto, unfolding(crate::specs::Reading::kind_at))]
fn kind_of(alloc: Global, word: &str, value: &Value) -> Result<Kind, JobFault>
    ensures { Gives kind_view result (kind_at word.now (view value.now)) }
{
    match word {
        "source" => Ok(Kind::Source),
        "sink" => Ok(Kind::Sink),
        _ => Ok(Kind::Operator(operator_of(alloc, word, value)?)),
    }
}

fn member_names(kind: &Kind) -> &'static [&'static str]
    ensures { map (λ n. n.now) result.now ≡ member_names (kind_view kind.now) }
{
    match kind.form() {
        ParameterForm::Nothing => &["name", "kind", "parallelism"],
        ParameterForm::Number | ParameterForm::Size => &["name", "kind", "parallelism", "n"],
        ParameterForm::Key => &["name", "kind", "parallelism", "k"],
    }
}

fn parallelism(value: &Value) -> Result<u32, JobFault>
    ensures { Gives (λ n. n) result
        (optional (number 1 32) 1 (get (codes "parallelism") (view value.now))) }
{
    match value.get("parallelism") {
        Some(found) => number(found, 1, 32),
        None => Ok(1),
    }
}

#[tactic(auto, unfolding(crate::specs::Reading::vertex_at))]
fn vertex(alloc: Global, value: &Value) -> Result<(String, VertexSpec), JobFault>
    ensures { Gives vertex_view result (vertex_at (view value.now)) }
{
    let name = name(value, "name")?;
    let word = text_at(value, "kind").ok_or(JobFault::BadField)?;
    let kind = kind_of(alloc, word, value)?;
    let parallelism = parallelism(value)?;
    if !has_only(value, member_names(&kind)) {
        return Err(JobFault::BadField);
    }
    Ok((
        String::from_str(alloc, name)?,
        VertexSpec { kind, parallelism },
    ))
}

pub(crate) fn vertices(
    alloc: Global,
    items: &[Value],
) -> Result<IndexMap<String, VertexSpec>, JobFault>
    ensures { Gives (λ m. vertices_view m.entries) result
        (vertices_after [] (items_view items.now)) }
{
    let mut found = IndexMap::new(alloc);
    for item in items {
        let (name, spec) = vertex(alloc, item)?;
        if found.contains_key(&name) {
            return Err(JobFault::DuplicateName);
        }
        found.insert(name, spec)?;
    }
    Ok(found)
}
