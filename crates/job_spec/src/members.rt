//! The members of an object, by their types.

ghost use Rattle.std.specs.Prelude.{◌≡◌, ◌≤◌, IfOk};
ghost use Rattle.std.specs.List.{list_all};
ghost use Rattle.job_spec.specs.Reading.{Gives, is_name_byte, is_name, member_at, name_at, number};
ghost use Rattle.serde_json.specs.View.{view};

use crate::fault::JobFault;
use json_members::text_at;
use serde_json::Value;

pub(crate) fn member<'v>(value: &'v Value, name: &str) -> Result<&'v Value, JobFault>
    ensures { Gives (λ v. view v.now) result (member_at name.now (view value.now)) }
{
    value.get(name).ok_or(JobFault::BadField)
}

pub(crate) fn number(value: &Value, low: u32, high: u32) -> Result<u32, JobFault>
    ensures value { Gives (λ n. n) result (number low high (view value.now)) }
    ensures low { IfOk result (λ n. low ≤ n) }
    ensures high { IfOk result (λ n. n ≤ high) }
{
    let n = value.as_i64().ok_or(JobFault::BadField)?;
    match u32::try_from(n) {
        Ok(n) if low <= n && n <= high => Ok(n),
        _ => Err(JobFault::BadField),
    }
}

fn has_name_bytes(text: &str) -> bool
    ensures { result ≡ list_all is_name_byte text.now }
{
    text.bytes()
        .all(|b| b.is_ascii_alphanumeric() || b == b'_' || b == b'-')
}

#[tactic(auto, unfolding(crate::specs::Reading::is_name))]
fn is_name(text: &str) -> bool
    ensures { result ≡ is_name text.now }
{
    1 <= text.len() && text.len() <= 64 && has_name_bytes(text)
}

#[tactic(auto, unfolding(crate::specs::Reading::name_at))]
pub(crate) fn name<'v>(value: &'v Value, member: &str) -> Result<&'v str, JobFault>
    ensures { Gives (λ s. s.now) result (name_at member.now (view value.now)) }
{
    let name = text_at(value, member).ok_or(JobFault::BadField)?;
    if is_name(name) {
        Ok(name)
    } else {
        Err(JobFault::BadField)
    }
}
