// Equal events.
ghost use Rattle.std.specs.Prelude.{◌≡◌};
ghost use Rattle.std.specs.Cmp.Lexicographic.{pointwise};
ghost use Rattle.world_laws.specs.World as Face;

use event_core::{Event, Headers};

// Whether two headers have the same key and the same value.
fn is_same_header(key: &str, value: &str, other_key: &str, other_value: &str) -> bool
    ensures { result ≡ Face.is_same_header (key.now, value.now) (other_key.now, other_value.now) }
{
    key == other_key && value == other_value
}

// Whether the headers are the same, one by one.
fn are_same_headers(a: &Headers, b: &Headers) -> bool
    ensures { result ≡ pointwise Face.is_same_header a.now b.now }
{
    let mut first = a.iter();
    let mut second = b.iter();
    while let Some((key, value)) = first.next() {
        let Some((other_key, other_value)) = second.next() else {
            return false;
        };
        if !is_same_header(key, value, other_key, other_value) {
            return false;
        }
    }
    second.next().is_none()
}

/// Whether the events have the same headers and the same body.
pub(crate) fn is_same_event(a: &Event, b: &Event) -> bool
    ensures { result ≡ Face.is_same_event a.now b.now }
{
    are_same_headers(a.headers(), b.headers()) && a.body() == b.body()
}
