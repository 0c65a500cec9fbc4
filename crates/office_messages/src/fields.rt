//! The values of the fields of a head.
ghost use Rattle.std.specs.Prelude.{◌≡◌, ℕ, List, [], ◌∷◌, ◌++◌, length, map, All};
ghost use Rattle.std.specs.List.{list_any};
ghost use Rattle.httparse.specs.Spans.{IsWithin, IsHeaderWithin, span_bytes, header_bytes};
ghost use Rattle.office_messages.specs.Fields.{asks_to_close, value_if_named, values_named};
ghost use Rattle.office_messages.specs.Heads.{Sees, CallerAt};
ghost use Rattle.office_messages.specs.Stream.{only_value};

use crate::names::{is_same_name, lists};
use httparse::spans::{HeaderSpan, Span};

/// The values of the fields of one name: none, the one, or that there are several.
#[derive(Clone, Copy)]
pub(crate) enum Seen {
    Absent,
    Once(Span),
    Repeated,
}

impl Seen {
    fn with_value(self, value: Span) -> Seen
        ensures { (bytes : List ℕ) (values : List (List ℕ)) → IsWithin (length bytes) value
            → Sees bytes values self → Sees bytes (values ++ span_bytes bytes value ∷ []) result }
    {
        match self {
            Seen::Absent => Seen::Once(value),
            _ => Seen::Repeated,
        }
    }
}

/// Returns the values of the fields with this name, in any ASCII case.
pub(crate) fn find(bytes: &[u8], headers: &[HeaderSpan], name: &[u8]) -> Seen
    requires { All (IsHeaderWithin (length bytes.now)) headers.now }
    ensures { Sees bytes.now (values_named name.now (map (header_bytes bytes.now) headers.now))
        result }
{
    let mut seen = Seen::Absent;
    for header in headers {
        seen = with_header(bytes, *header, name, seen);
    }
    seen
}

// Returns the values seen so far, with this header's if it has the name.
fn with_header(bytes: &[u8], header: HeaderSpan, name: &[u8], seen: Seen) -> Seen
    requires { IsHeaderWithin (length bytes.now) header }
    ensures { (values : List (List ℕ)) → Sees bytes.now values seen
        → Sees bytes.now (values ++ value_if_named name.now (header_bytes bytes.now header))
        result }
{
    if is_same_name(header.name.of(bytes), name) {
        seen.with_value(header.value)
    } else {
        seen
    }
}

/// Returns the one value, if there is exactly one.
pub(crate) fn only_value(seen: Seen) -> Option<Span>
    ensures { (bytes : List ℕ) (values : List (List ℕ)) → Sees bytes values seen
        → CallerAt bytes result (only_value values) }
{
    match seen {
        Seen::Once(value) => Some(value),
        _ => None,
    }
}

/// Returns whether a Connection header lists `close`, in lower or upper case.
pub(crate) fn any_asks_to_close(bytes: &[u8], headers: &[HeaderSpan]) -> bool
    requires { All (IsHeaderWithin (length bytes.now)) headers.now }
    ensures { result ≡ list_any asks_to_close (map (header_bytes bytes.now) headers.now) }
{
    for header in headers {
        if asks_to_close(bytes, *header) {
            return true;
        }
    }
    false
}

// Returns whether the header is Connection and lists `close`.
fn asks_to_close(bytes: &[u8], header: HeaderSpan) -> bool
    requires { IsHeaderWithin (length bytes.now) header }
    ensures { result ≡ asks_to_close (header_bytes bytes.now header) }
{
    is_same_name(header.name.of(bytes), b"connection") && lists(header.value.of(bytes), b"close")
}
