// The types of a client's protocol text.
ghost use Rattle.std.specs.Prelude.{◌≡◌, codes};
ghost use Rattle.serde_json.specs.View.{view, items_view, members_view};
ghost use Rattle.avro_hop.specs.Accepted as spec;
ghost use Rattle.avro_hop.specs.Sought.{is_sought};

use crate::look::{
    has_name, has_text, has_text_at, is_array_of, is_name, is_text, item_at, member,
};
use serde_json::{Map, Value};

fn is_string_type(d: &Value) -> bool
    ensures { result ≡ spec.is_string_type (view d.now) }
{
    is_text(d, "string") || has_text(d, "type", "string")
}

fn has_string_values(d: &Value) -> bool
    ensures { result ≡ spec.has (codes "values") spec.is_string_type (view d.now) }
{
    match member(d, "values") {
        Some(found) => is_string_type(found),
        None => false,
    }
}

fn is_headers_type(d: &Value) -> bool
    ensures { result ≡ spec.is_headers_type (view d.now) }
{
    has_text(d, "type", "map") && has_string_values(d)
}

fn are_symbols(d: &Value) -> bool
    ensures { result ≡ spec.are_symbols (view d.now) }
{
    is_array_of(d, 3)
        && has_text_at(d, 0, "OK")
        && has_text_at(d, 1, "FAILED")
        && has_text_at(d, 2, "UNKNOWN")
}

fn has_symbols(d: &Value) -> bool
    ensures { result ≡ spec.has (codes "symbols") spec.are_symbols (view d.now) }
{
    match member(d, "symbols") {
        Some(found) => are_symbols(found),
        None => false,
    }
}

/// Whether the value declares the enum `Status`.
pub fn is_status(d: &Value) -> bool
    ensures { result ≡ spec.is_status (view d.now) }
{
    has_text(d, "type", "enum") && has_name(d, "Status") && has_symbols(d)
}

fn has_headers_type(d: &Value) -> bool
    ensures { result ≡ spec.has (codes "type") spec.is_headers_type (view d.now) }
{
    match member(d, "type") {
        Some(found) => is_headers_type(found),
        None => false,
    }
}

fn has_headers_field(d: &Value) -> bool
    ensures { result ≡ spec.has_at 0 (spec.is_field (codes "headers") spec.is_headers_type)
        (view d.now) }
{
    match item_at(d, 0) {
        Some(field) => has_text(field, "name", "headers") && has_headers_type(field),
        None => false,
    }
}

fn has_body_field(d: &Value) -> bool
    ensures { result ≡ spec.has_at 1 (spec.is_field (codes "body") (spec.is_text (codes "bytes")))
        (view d.now) }
{
    match item_at(d, 1) {
        Some(field) => has_text(field, "name", "body") && has_text(field, "type", "bytes"),
        None => false,
    }
}

fn has_fields(d: &Value) -> bool
    ensures { result ≡ spec.has (codes "fields") spec.are_fields (view d.now) }
{
    match member(d, "fields") {
        Some(found) => is_array_of(found, 2) && has_headers_field(found) && has_body_field(found),
        None => false,
    }
}

/// Whether the value declares the record `AvroFlumeEvent`.
pub fn is_event(d: &Value) -> bool
    ensures { result ≡ spec.is_event (view d.now) }
{
    has_text(d, "type", "record") && has_name(d, "AvroFlumeEvent") && has_fields(d)
}

/// Whether the value names `Status` or declares it.
pub fn is_status_type(d: &Value) -> bool
    ensures { result ≡ spec.is_status_type (view d.now) }
{
    is_name(d, "Status") || is_status(d)
}

/// Whether the value names `AvroFlumeEvent` or declares it.
pub fn is_event_type(d: &Value) -> bool
    ensures { result ≡ spec.is_event_type (view d.now) }
{
    is_name(d, "AvroFlumeEvent") || is_event(d)
}

/// Whether the value is the type of an array of events.
pub fn is_events_type(d: &Value) -> bool
    ensures { result ≡ spec.is_events_type (view d.now) }
{
    has_text(d, "type", "array")
        && match member(d, "items") {
            Some(found) => is_event_type(found),
            None => false,
        }
}

fn is_named_kind(d: &Value) -> bool
    ensures { result ≡ spec.is_named_kind (view d.now) }
{
    is_text(d, "enum") || is_text(d, "record") || is_text(d, "error") || is_text(d, "fixed")
}

fn has_named_kind(d: &Value) -> bool
    ensures { result ≡ spec.has (codes "type") spec.is_named_kind (view d.now) }
{
    match member(d, "type") {
        Some(kind) => is_named_kind(kind),
        None => false,
    }
}

fn defines(d: &Value, name: &str) -> bool
    ensures { result ≡ spec.defines name.now (view d.now) }
{
    has_named_kind(d) && has_name(d, name)
}

fn is_other(d: &Value) -> bool
    ensures { result ≡ spec.is_other (view d.now) }
{
    (defines(d, "Status") && !is_status(d)) || (defines(d, "AvroFlumeEvent") && !is_event(d))
}

/// A type that is looked for.
#[derive(Clone, Copy)]
pub enum Sought {
    // the enum Status
    Status,
    // the record AvroFlumeEvent
    Event,
    // another type under one of these two names
    Other,
}

fn is_sought(d: &Value, sought: Sought) -> bool
    ensures { result ≡ is_sought sought (view d.now) }
{
    match sought {
        Sought::Status => is_status(d),
        Sought::Event => is_event(d),
        Sought::Other => is_other(d),
    }
}

// Whether types stand under this key of a type.
fn is_nesting(key: &str) -> bool
    ensures { result ≡ spec.is_nesting key.now }
{
    key == "type" || key == "items" || key == "values"
}

// Whether a record's fields stand under this key.
fn is_fields(key: &str) -> bool
    ensures { result ≡ spec.is_fields key.now }
{
    key == "fields"
}

// Whether the type of a field or a parameter stands under this key.
fn is_typing(key: &str) -> bool
    ensures { result ≡ spec.is_typing key.now }
{
    key == "type"
}

/// Whether the type, or one within it, is the one that is looked for.
#[cycle(has_type)]
pub fn has_type(d: &Value, sought: Sought) -> bool
    ensures { result ≡ spec.has_type (is_sought sought) (view d.now) }
{
    match d {
        Value::Null => false,
        Value::Bool(_) => false,
        Value::Number(_) => false,
        Value::String(_) => false,
        Value::Array(items) => has_type_in_items(items, sought),
        Value::Object(members) => is_sought(d, sought) || has_type_in_members(members, sought),
    }
}

#[cycle(has_type)]
fn has_type_in_items(items: &Vec<Value>, sought: Sought) -> bool
    ensures { result ≡ spec.has_type_in_items (is_sought sought) (items_view items.now.items) }
{
    'types: for item in items {
        if has_type(item, sought) {
            return true;
        }
    }
    false
}

#[cycle(has_type)]
fn has_type_in_members(members: &Map<String, Value>, sought: Sought) -> bool
    ensures { result ≡ spec.has_type_in_members (is_sought sought)
        (members_view members.now.entries) }
{
    'types: for (key, member) in members.iter() {
        if (is_nesting(key) && has_type(member, sought))
            || (is_fields(key) && has_field_type(member, sought))
        {
            return true;
        }
    }
    false
}

/// Whether the type of one of these fields or parameters, or one within it, is the one that is looked for.
#[cycle(has_type)]
pub fn has_field_type(d: &Value, sought: Sought) -> bool
    ensures { result ≡ spec.has_field_type (is_sought sought) (view d.now) }
{
    match d {
        Value::Null => false,
        Value::Bool(_) => false,
        Value::Number(_) => false,
        Value::String(_) => false,
        Value::Array(fields) => has_type_in_fields(fields, sought),
        Value::Object(_) => false,
    }
}

#[cycle(has_type)]
fn has_type_in_fields(fields: &Vec<Value>, sought: Sought) -> bool
    ensures { result ≡ spec.has_type_in_fields (is_sought sought) (items_view fields.now.items) }
{
    'fields: for field in fields {
        if has_own_type(field, sought) {
            return true;
        }
    }
    false
}

#[cycle(has_type)]
fn has_own_type(field: &Value, sought: Sought) -> bool
    ensures { result ≡ spec.has_own_type (is_sought sought) (view field.now) }
{
    match field {
        Value::Null => false,
        Value::Bool(_) => false,
        Value::Number(_) => false,
        Value::String(_) => false,
        Value::Array(_) => false,
        Value::Object(members) => has_type_of_field(members, sought),
    }
}

#[cycle(has_type)]
fn has_type_of_field(members: &Map<String, Value>, sought: Sought) -> bool
    ensures { result ≡ spec.has_type_of_field (is_sought sought)
        (members_view members.now.entries) }
{
    'types: for (key, member) in members.iter() {
        if is_typing(key) && has_type(member, sought) {
            return true;
        }
    }
    false
}
