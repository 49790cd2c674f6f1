// Events as texts.
use event_core::Event;
use scenarios::is_text;
use std::alloc::Global;

// What comes after a header.
fn after_header<'a>(text: &'a str, key: &str, value: &str) -> Option<&'a str> {
    text.strip_prefix("[")?
        .strip_prefix(key)?
        .strip_prefix("=")?
        .strip_prefix(value)?
        .strip_prefix("]")
}

/// Whether a text shows an event: each header in brackets, as `[key=value]`, in the order of the keys, and then the body.
pub fn is_shown(alloc: Global, event: &Event, text: &str) -> bool {
    let mut rest = text;
    for (key, value) in event.headers().iter() {
        match after_header(rest, key, value) {
            Some(after) => rest = after,
            None => return false,
        }
    }
    is_text(alloc, event.body(), rest)
}
