// Looks into a JSON value.
ghost use Rattle.std.specs.Prelude.{◌≡◌, codes, Some, None, MatchOption};
ghost use Rattle.serde_json.specs.Find.{get, at, as_array, as_object};
ghost use Rattle.serde_json.specs.View.{view, items_view, members_view};
ghost use Rattle.avro_hop.specs.Accepted as spec;

use serde_json::{Map, Value};

/// The member of this name.
pub fn member<'a>(d: &'a Value, name: &str) -> Option<&'a Value>
    ensures { MatchOption result (get name.now (view d.now) ≡ None)
        (λ v. get name.now (view d.now) ≡ Some (view v.now)) }
{
    d.get(name)
}

/// The item at this place.
pub fn item_at(d: &Value, i: usize) -> Option<&Value>
    ensures { MatchOption result (at i (view d.now) ≡ None)
        (λ v. at i (view d.now) ≡ Some (view v.now)) }
{
    d.get(i)
}

/// Whether the value is this text.
pub fn is_text(d: &Value, text: &str) -> bool
    ensures { result ≡ spec.is_text text.now (view d.now) }
{
    match d.as_str() {
        Some(found) => found == text,
        None => false,
    }
}

/// Whether the member of this name is this text.
pub fn has_text(d: &Value, name: &str, text: &str) -> bool
    ensures { result ≡ spec.has name.now (spec.is_text text.now) (view d.now) }
{
    match member(d, name) {
        Some(found) => is_text(found, text),
        None => false,
    }
}

/// Whether the item at this place is this text.
pub fn has_text_at(d: &Value, i: usize, text: &str) -> bool
    ensures { result ≡ spec.has_at i (spec.is_text text.now) (view d.now) }
{
    match item_at(d, i) {
        Some(found) => is_text(found, text),
        None => false,
    }
}

/// Whether the value is an array of so many items.
#[tactic(auto, using(crate::proofs::Items::lengths))]
pub fn is_array_of(d: &Value, n: usize) -> bool
    ensures { result ≡ spec.is_array_of n (view d.now) }
{
    match items_of(d) {
        Some(items) => items.len() == n,
        None => false,
    }
}

/// The items of an array.
pub fn items_of(d: &Value) -> Option<&Vec<Value>>
    ensures { MatchOption result (as_array (view d.now) ≡ None)
        (λ v. as_array (view d.now) ≡ Some (items_view v.now.items)) }
{
    d.as_array()
}

fn members_of(d: &Value) -> Option<&Map<String, Value>>
    ensures { MatchOption result (as_object (view d.now) ≡ None)
        (λ m. as_object (view d.now) ≡ Some (members_view m.now.entries)) }
{
    d.as_object()
}

/// Whether the value is an object of so many members.
#[tactic(auto, using(crate::proofs::Items::lengths))]
pub fn is_object_of(d: &Value, n: usize) -> bool
    ensures { result ≡ spec.is_object_of n (view d.now) }
{
    match members_of(d) {
        Some(members) => members.len() == n,
        None => false,
    }
}

fn is_named(name: &str, text: &str) -> bool
    ensures { result ≡ spec.is_named text.now name.now }
{
    if name == text {
        return true;
    }
    let bytes = name.as_bytes();
    let start = bytes.len().saturating_sub(text.len() + 1);
    match bytes[start..].split_first() {
        Some((dot, last)) => *dot == b'.' && last == text.as_bytes(),
        None => false,
    }
}

/// Whether the value is this name, with or without a namespace.
pub fn is_name(d: &Value, text: &str) -> bool
    ensures { result ≡ spec.is_name text.now (view d.now) }
{
    match d.as_str() {
        Some(found) => is_named(found, text),
        None => false,
    }
}

/// Whether the member `name` is this name, with or without a namespace.
pub fn has_name(d: &Value, text: &str) -> bool
    ensures { result ≡ spec.has (codes "name") (spec.is_name text.now) (view d.now) }
{
    match member(d, "name") {
        Some(found) => is_name(found, text),
        None => false,
    }
}
