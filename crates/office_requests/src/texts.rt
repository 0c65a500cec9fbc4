// The refusals with fixed texts.
ghost use Rattle.std.specs.Prelude.{◌≡◌};
ghost use Rattle.office_messages.specs.Reply.{plain_reply};
ghost use Rattle.office_requests.specs.Texts.{status_of, error_text, error_reply};

use office_messages::{Reply, Status, fixed_reply};
use office_policy::Denial;

/// The refusals with fixed texts. A body that is too long is answered like a message whose length
/// is too great (`fault_reply`), and out of memory by `unavailable`.
#[derive(Clone, Copy)]
pub enum FixedError {
    Caller,
    Body,
    Denied(Denial),
    Path,
    /// The exam isn't one of the candidate's.
    Exam,
    Draft,
    /// An exam, a period or a room doesn't exist.
    Number,
    Publication,
    Method,
    Loaded,
    NotLoaded,
    DraftTaken,
    BatchDiffers,
    TooMany,
    AlreadyPlaced,
    NotPlaced,
    SameExam,
}

impl FixedError {
    /// Returns its reply. It takes no memory.
    pub fn reply(self) -> Reply
        ensures { plain_reply result ≡ error_reply self }
    {
        fixed_reply(self.status(), self.text())
    }

    fn status(self) -> Status
        ensures { result ≡ status_of self }
    {
        match self {
            FixedError::Caller | FixedError::Body => Status::BadRequest,
            FixedError::Denied(_) => Status::Forbidden,
            FixedError::Path
            | FixedError::Exam
            | FixedError::Draft
            | FixedError::Number
            | FixedError::Publication => Status::NotFound,
            FixedError::Method => Status::MethodNotAllowed,
            _ => Status::Conflict,
        }
    }

    fn text(self) -> &'static [u8]
        ensures { result.now ≡ error_text self }
    {
        match self {
            FixedError::Caller => b"{\"error\":\"caller\"}",
            FixedError::Body => b"{\"error\":\"body\"}",
            FixedError::Denied(Denial::P1) => b"{\"error\":\"forbidden\",\"rule\":\"P1\"}",
            FixedError::Denied(Denial::P2) => b"{\"error\":\"forbidden\",\"rule\":\"P2\"}",
            FixedError::Denied(Denial::P3) => b"{\"error\":\"forbidden\",\"rule\":\"P3\"}",
            FixedError::Denied(Denial::P4) => b"{\"error\":\"forbidden\",\"rule\":\"P4\"}",
            FixedError::Path => b"{\"error\":\"path\"}",
            FixedError::Exam => b"{\"error\":\"exam\"}",
            FixedError::Draft => b"{\"error\":\"draft\"}",
            FixedError::Number => b"{\"error\":\"number\"}",
            FixedError::Publication => b"{\"error\":\"publication\"}",
            FixedError::Method => b"{\"error\":\"method\"}",
            FixedError::Loaded => b"{\"error\":\"loaded\"}",
            FixedError::NotLoaded => b"{\"error\":\"not-loaded\"}",
            FixedError::DraftTaken => b"{\"error\":\"draft-taken\"}",
            FixedError::BatchDiffers => b"{\"error\":\"batch-differs\"}",
            FixedError::TooMany => b"{\"error\":\"too-many\"}",
            FixedError::AlreadyPlaced => b"{\"error\":\"already-placed\"}",
            FixedError::NotPlaced => b"{\"error\":\"not-placed\"}",
            FixedError::SameExam => b"{\"error\":\"same-exam\"}",
        }
    }
}
