// Which protocol texts of a client are accepted.
ghost use Rattle.std.specs.Prelude.{◌≡◌, codes, IfOk};
ghost use Rattle.serde_json.specs.View.{view};
ghost use Rattle.avro_hop.specs.Accepted as spec;
ghost use Rattle.avro_hop.specs.Sought.{is_sought};

use crate::look::{has_text, is_array_of, is_object_of, item_at, items_of, member};
use crate::types::{
    Sought, has_field_type, has_type, is_event_type, is_events_type, is_status_type,
};
use event_core::NoMemory;
use serde_json::Value;
use std::alloc::Global;

fn has_response(d: &Value) -> bool
    ensures { result ≡ spec.has (codes "response") spec.is_status_type (view d.now) }
{
    match member(d, "response") {
        Some(response) => is_status_type(response),
        None => false,
    }
}

fn has_no_errors(d: &Value) -> bool
    ensures { result ≡ spec.fits (codes "errors") (spec.is_array_of 0) (view d.now) }
{
    match member(d, "errors") {
        Some(errors) => is_array_of(errors, 0),
        None => true,
    }
}

fn is_false(d: &Value) -> bool
    ensures { result ≡ spec.is_false (view d.now) }
{
    match d.as_bool() {
        Some(set) => !set,
        None => false,
    }
}

fn is_answered(d: &Value) -> bool
    ensures { result ≡ spec.fits (codes "one-way") spec.is_false (view d.now) }
{
    match member(d, "one-way") {
        Some(one_way) => is_false(one_way),
        None => true,
    }
}

fn has_event_type(d: &Value) -> bool
    ensures { result ≡ spec.has (codes "type") spec.is_event_type (view d.now) }
{
    match member(d, "type") {
        Some(found) => is_event_type(found),
        None => false,
    }
}

fn has_events_type(d: &Value) -> bool
    ensures { result ≡ spec.has (codes "type") spec.is_events_type (view d.now) }
{
    match member(d, "type") {
        Some(found) => is_events_type(found),
        None => false,
    }
}

fn is_append_request(d: &Value) -> bool
    ensures { result ≡ spec.is_request (codes "event") spec.is_event_type (view d.now) }
{
    is_array_of(d, 1)
        && match item_at(d, 0) {
            Some(parameter) => has_text(parameter, "name", "event") && has_event_type(parameter),
            None => false,
        }
}

fn is_batch_request(d: &Value) -> bool
    ensures { result ≡ spec.is_request (codes "events") spec.is_events_type (view d.now) }
{
    is_array_of(d, 1)
        && match item_at(d, 0) {
            Some(parameter) => has_text(parameter, "name", "events") && has_events_type(parameter),
            None => false,
        }
}

fn has_append_request(d: &Value) -> bool
    ensures { result ≡ spec.has (codes "request") (spec.is_request (codes "event")
        spec.is_event_type) (view d.now) }
{
    match member(d, "request") {
        Some(request) => is_append_request(request),
        None => false,
    }
}

fn has_batch_request(d: &Value) -> bool
    ensures { result ≡ spec.has (codes "request") (spec.is_request (codes "events")
        spec.is_events_type) (view d.now) }
{
    match member(d, "request") {
        Some(request) => is_batch_request(request),
        None => false,
    }
}

fn is_append(d: &Value) -> bool
    ensures { result ≡ spec.is_message (codes "event") spec.is_event_type (view d.now) }
{
    has_append_request(d) && has_response(d) && has_no_errors(d) && is_answered(d)
}

fn is_append_batch(d: &Value) -> bool
    ensures { result ≡ spec.is_message (codes "events") spec.is_events_type (view d.now) }
{
    has_batch_request(d) && has_response(d) && has_no_errors(d) && is_answered(d)
}

fn are_messages(d: &Value) -> bool
    ensures { result ≡ spec.are_messages (view d.now) }
{
    is_object_of(d, 2)
        && match member(d, "append") {
            Some(append) => is_append(append),
            None => false,
        }
        && match member(d, "appendBatch") {
            Some(append_batch) => is_append_batch(append_batch),
            None => false,
        }
}

fn has_messages(d: &Value) -> bool
    ensures { result ≡ spec.has (codes "messages") spec.are_messages (view d.now) }
{
    match member(d, "messages") {
        Some(messages) => are_messages(messages),
        None => false,
    }
}

fn types_are_array(d: &Value) -> bool
    ensures { result ≡ spec.fits (codes "types") spec.is_array (view d.now) }
{
    match member(d, "types") {
        Some(types) => items_of(types).is_some(),
        None => true,
    }
}

fn has_type_at(d: &Value, name: &str, sought: Sought) -> bool
    ensures { result ≡ spec.has name.now (spec.has_type (is_sought sought)) (view d.now) }
{
    match member(d, name) {
        Some(found) => has_type(found, sought),
        None => false,
    }
}

fn has_parameter_type(d: &Value, sought: Sought) -> bool
    ensures { result ≡ spec.has (codes "request") (spec.has_field_type (is_sought sought))
        (view d.now) }
{
    match member(d, "request") {
        Some(request) => has_field_type(request, sought),
        None => false,
    }
}

fn has_in_message(d: &Value, name: &str, sought: Sought) -> bool
    ensures { result ≡ spec.has name.now (spec.has_in_message (is_sought sought)) (view d.now) }
{
    match member(d, name) {
        Some(found) => has_parameter_type(found, sought) || has_type_at(found, "response", sought),
        None => false,
    }
}

fn has_in_messages(d: &Value, sought: Sought) -> bool
    ensures { result ≡ spec.has (codes "messages") (spec.has_in_messages (is_sought sought))
        (view d.now) }
{
    match member(d, "messages") {
        Some(messages) => {
            has_in_message(messages, "append", sought)
                || has_in_message(messages, "appendBatch", sought)
        }
        None => false,
    }
}

// Whether a type that is looked for is written out in the protocol.
fn writes_out(d: &Value, sought: Sought) -> bool
    ensures { result ≡ spec.writes_out (is_sought sought) (view d.now) }
{
    has_type_at(d, "types", sought) || has_in_messages(d, sought)
}

fn is_protocol(d: &Value) -> bool
    ensures { result ≡ spec.is_protocol (view d.now) }
{
    types_are_array(d)
        && has_messages(d)
        && writes_out(d, Sought::Status)
        && writes_out(d, Sought::Event)
        && !writes_out(d, Sought::Other)
}

/// Whether a client's protocol text is accepted.
pub fn accepts(alloc: Global, text: &str) -> Result<bool, NoMemory>
    ensures { IfOk result (λ accepted. accepted ≡ spec.is_accepted text.now) }
{
    match Value::from_str(alloc, text) {
        Ok(d) => Ok(is_protocol(&d)),
        Err(e) => {
            if e.is_memory() {
                return Err(NoMemory);
            }
            Ok(false)
        }
    }
}
