//! The members of an object, by their types.

ghost use Rattle.std.specs.Prelude.{◌≡◌, map, option_map, string_bytes};
ghost use Rattle.std.specs.List.{list_any, list_all};
ghost use Rattle.std.specs.Str.{bytes_eq};
ghost use Rattle.std.specs.BTreeMap.{keys};
ghost use Rattle.json_members.specs.Members.{has_only, text_at, whole_at};
ghost use Rattle.serde_json.specs.View.{view};

use serde_json::{Map, Value};

fn is_one_of(name: &str, names: &[&str]) -> bool
    ensures { result ≡ list_any (λ n. bytes_eq name.now n.now) names.now }
{
    names.iter().any(|n| name == *n)
}

fn have_names(members: &Map<String, Value>, names: &[&str]) -> bool
    ensures { result ≡ list_all (λ k. list_any (λ n. bytes_eq (string_bytes k) n.now) names.now)
        (keys members.now) }
{
    members.keys().all(|name| is_one_of(name.as_str(), names))
}

/// Whether the value is an object whose members all have one of these names.
pub fn has_only(value: &Value, names: &[&str]) -> bool
    ensures { result ≡ has_only (map (λ n. n.now) names.now) (view value.now) }
{
    match value.as_object() {
        Some(members) => have_names(members, names),
        None => false,
    }
}

/// The text under this name.
pub fn text_at<'v>(value: &'v Value, name: &str) -> Option<&'v str>
    ensures { option_map (λ s. s.now) result ≡ text_at name.now (view value.now) }
{
    value.get(name)?.as_str()
}

/// The whole number of 64 bits under this name.
pub fn whole_at(value: &Value, name: &str) -> Option<i64>
    ensures { result ≡ whole_at name.now (view value.now) }
{
    value.get(name)?.as_i64()
}
