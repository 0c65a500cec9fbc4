//! The beginning of the received bytes.
ghost use Rattle.std.specs.Prelude.{◌≡◌, ◌<◌, ◌≤◌, length, take};
ghost use Rattle.office_messages.specs.Heads.{HeadAt};
ghost use Rattle.office_messages.specs.Looks.{Knows, MeansBeginning};
ghost use Rattle.office_messages.specs.HeadEnds.{HasEnd};

use crate::form::Form;
use crate::framing::Fault;
use crate::head::{BadHead, Head, head_of};
use crate::head_end::may_hold_end;
use httparse::Status;
use httparse::spans::{EMPTY_HEADER_SPAN, parse_request};

/// How much is known of the message at the front.
#[derive(Clone, Copy)]
pub(crate) enum Stage {
    /// No head, complete or faulty, ends within this many first bytes.
    Searching(usize),
    /// The head was parsed, and its body isn't received yet.
    Reading(Head),
}

/// The beginning of the bytes.
#[derive(Clone, Copy)]
pub(crate) enum Beginning {
    Whole(Head),
    /// Less than a message.
    More(Stage),
    Faulty(BadHead),
}

/// The most bytes of a head.
pub(crate) const MAX_HEAD: usize = 16_384;

/// The most fields of a head.
pub(crate) const MAX_HEADERS: usize = 32;

const FAULTY_HEAD: Beginning = Beginning::Faulty(BadHead {
    fault: Fault::Head,
    form: Form::Full,
});

/// Returns the beginning of the bytes. A head is parsed once it is complete, and before that each
/// byte of it is looked at once.
pub(crate) fn look(bytes: &[u8], stage: Stage) -> Beginning
    requires { Knows bytes.now stage }
    ensures { MeansBeginning bytes.now result }
{
    match stage {
        Stage::Reading(head) => with_head(bytes, head),
        Stage::Searching(searched) => {
            if may_hold_end(first(bytes, MAX_HEAD), searched) {
                parse(bytes)
            } else {
                without_head(bytes)
            }
        }
    }
}

// Returns the same after the head was parsed: whether its body is received.
fn with_head(bytes: &[u8], head: Head) -> Beginning
    requires { HeadAt bytes.now head }
    ensures { MeansBeginning bytes.now result }
{
    if head.body.end <= bytes.len() {
        Beginning::Whole(head)
    } else {
        Beginning::More(Stage::Reading(head))
    }
}

// Returns the first n bytes, or all if there are fewer.
fn first(bytes: &[u8], n: usize) -> &[u8]
    ensures front { result.now ≡ take n bytes.now }
    ensures short { length result.now ≤ n }
{
    if n < bytes.len() { &bytes[..n] } else { bytes }
}

// Parses the head, which seems complete: after its end httparse waits for no more of it.
fn parse(bytes: &[u8]) -> Beginning
    requires some { 0 < length bytes.now }
    requires ended { HasEnd bytes.now }
    ensures { MeansBeginning bytes.now result }
{
    let mut headers = [EMPTY_HEADER_SPAN; MAX_HEADERS];
    let front = first(bytes, MAX_HEAD);
    match parse_request(front, &mut headers) {
        Ok(Status::Complete(spans)) => match head_of(front, &headers, spans) {
            Ok(head) => with_head(bytes, head),
            Err(bad) => Beginning::Faulty(bad),
        },
        Ok(Status::Partial) => without_head(bytes),
        Err(_) => FAULTY_HEAD,
    }
}

// Returns the same if no head has ended.
fn without_head(bytes: &[u8]) -> Beginning
    requires { ¬ (HasEnd bytes.now) }
    ensures { MeansBeginning bytes.now result }
{
    if bytes.len() < MAX_HEAD {
        Beginning::More(Stage::Searching(bytes.len()))
    } else {
        FAULTY_HEAD
    }
}
