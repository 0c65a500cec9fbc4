//! The head of a message, by the places of its parts.
ghost use Rattle.std.specs.Prelude.{◌≡◌, ℕ, ◌≤◌, List, length, drop};
ghost use Rattle.std.specs.Prelude.{Option, option_copied, IsUtf8, MatchResult};
ghost use Rattle.httparse.specs.Grammar.{RequestHead};
ghost use Rattle.httparse.specs.Spans.{IsRequestAt, IsRequestWithin, span_bytes};
ghost use Rattle.office_messages.specs.Heads.{IsHeadOf, IsBadHead, HeadAt, CallerAt, plain_request};
ghost use Rattle.office_messages.specs.Stream.{RequestAt, max_head};

use crate::fields::{any_asks_to_close, find, only_value};
use crate::form::Form;
use crate::framing::{Fault, FramingFields, framing};
use crate::request::Request;
use httparse::spans::{HeaderSpan, RequestSpans, Span};
use std::str;

/// The parts of a head in the bytes of its connection. They don't move while the body is received.
#[derive(Clone, Copy)]
pub(crate) struct Head {
    pub method: Span,
    pub target: Span,
    pub caller: Option<Span>,
    /// The message is the last of its connection.
    pub closes: bool,
    /// The place of the body, received or not.
    pub body: Span,
}

/// A head that is refused.
#[derive(Clone, Copy)]
pub(crate) struct BadHead {
    pub fault: Fault,
    pub form: Form,
}

/// Returns the parts of the parsed head.
pub(crate) fn head_of(
    bytes: &[u8],
    headers: &[HeaderSpan],
    spans: RequestSpans,
) -> Result<Head, BadHead>
    requires within { IsRequestWithin bytes.now headers.now spans }
    requires at { (h : RequestHead) × IsRequestAt bytes.now headers.now spans h }
    requires small { length bytes.now ≤ max_head }
    ensures { (h : RequestHead) → IsRequestAt bytes.now headers.now spans h
        → MatchResult result (λ x. IsHeadOf bytes.now x h) (λ bad. IsBadHead bad h) }
{
    let headers = &headers[..spans.headers];
    let seen = FramingFields {
        hosts: find(bytes, headers, b"host"),
        codings: find(bytes, headers, b"transfer-encoding"),
        lengths: find(bytes, headers, b"content-length"),
    };
    let start = spans.len;
    match framing(bytes, spans.version, seen) {
        Ok(size) => Ok(Head {
            method: spans.method,
            target: spans.path,
            caller: only_value(find(bytes, headers, b"x-caller")),
            closes: spans.version == 0 || any_asks_to_close(bytes, headers),
            body: Span {
                start,
                end: start + size,
            },
        }),
        Err(fault) => Err(BadHead {
            fault,
            form: Form::of(spans.method.of(bytes)),
        }),
    }
}

impl Head {
    /// Returns the request, once its body is received.
    pub(crate) fn request(self, bytes: &[u8]) -> Request<'_>
        requires at { HeadAt bytes.now self }
        requires whole { self.body.end ≤ length bytes.now }
        ensures { RequestAt (plain_request result) self.closes bytes.now
            (drop self.body.end bytes.now) }
    {
        Request {
            method: text(bytes, self.method),
            target: text(bytes, self.target),
            caller: bytes_at(bytes, self.caller),
            body: self.body.of(bytes),
        }
    }
}

// Returns the text that the span covers.
fn text(bytes: &[u8], span: Span) -> &str
    requires within { (span.start ≤ span.end) × (span.end ≤ length bytes.now) }
    requires text { IsUtf8 (span_bytes bytes.now span) }
    ensures { result.now ≡ span_bytes bytes.now span }
{
    str::from_utf8(span.of(bytes)).unwrap()
}

// Returns the bytes that the span covers, if there is one.
fn bytes_at(bytes: &[u8], span: Option<Span>) -> Option<&[u8]>
    requires { (value : Option (List ℕ)) × CallerAt bytes.now span value }
    ensures { (value : Option (List ℕ)) → CallerAt bytes.now span value
        → option_copied result ≡ value }
{
    match span {
        Some(span) => Some(span.of(bytes)),
        None => None,
    }
}
