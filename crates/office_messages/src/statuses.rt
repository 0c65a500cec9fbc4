//! The statuses of replies.
ghost use Rattle.std.specs.Prelude.{◌≡◌, ◌≤◌, length};
ghost use Rattle.office_messages.specs.Statuses.{code_of, phrase_of};

use http::StatusCode;

/// The statuses of replies.
#[derive(Clone, Copy)]
pub enum Status {
    Done,
    Created,
    BadRequest,
    Forbidden,
    NotFound,
    MethodNotAllowed,
    Conflict,
    PayloadTooLarge,
    NotImplemented,
    ServiceUnavailable,
}

impl Status {
    /// Returns its number in HTTP.
    pub fn code(self) -> StatusCode
        ensures { result ≡ code_of self }
    {
        match self {
            Status::Done => StatusCode::OK,
            Status::Created => StatusCode::CREATED,
            Status::BadRequest => StatusCode::BAD_REQUEST,
            Status::Forbidden => StatusCode::FORBIDDEN,
            Status::NotFound => StatusCode::NOT_FOUND,
            Status::MethodNotAllowed => StatusCode::METHOD_NOT_ALLOWED,
            Status::Conflict => StatusCode::CONFLICT,
            Status::PayloadTooLarge => StatusCode::PAYLOAD_TOO_LARGE,
            Status::NotImplemented => StatusCode::NOT_IMPLEMENTED,
            Status::ServiceUnavailable => StatusCode::SERVICE_UNAVAILABLE,
        }
    }

    /// Returns its phrase in HTTP.
    #[tactic(auto, using(crate::proofs::StatusLemmas::status_facts))]
    pub(crate) fn phrase(self) -> &'static str
        ensures text { result.now ≡ phrase_of self }
        ensures short { length result.now ≤ 19 }
    {
        match self.code().canonical_reason() {
            Some(phrase) => phrase,
            None => "",
        }
    }
}
