// Commands.
use exam_terms::{ExamNo, Place};

/// The value of a request's body.
#[derive(Clone, Copy, Debug, PartialEq, Eq)]
pub enum Body<T> {
    Given(T),
    /// The body isn't JSON of the required form.
    Bad,
    /// The body is longer than 1,048,576 bytes; an instance's text never has this value.
    Long,
}

/// A command: one for each method and path. Numbers are at most 999,999,999; nothing with that
/// number needs to exist. A draft, a batch and an owner have plain numbers.
#[derive(Clone, Copy)]
pub enum Command<'a> {
    /// `GET /me`
    Me,
    /// `GET /me/exam/{n}`
    MyExam(ExamNo),
    /// `GET /me/penalty`
    MyPenalty,
    /// `PUT /instance`
    Load(Body<&'a [u8]>),
    /// `GET /instance`
    Instance,
    /// `PUT /exams/{e}/owner`: the department, at most 999; 0 removes the owner.
    SetOwner(ExamNo, Body<u32>),
    /// `PUT /drafts/{d}`: empty, or a solution.
    NewDraft(u32, Body<&'a [u8]>),
    /// `GET /drafts/{d}`
    Draft(u32),
    /// `GET /drafts/{d}/penalty`
    DraftPenalty(u32),
    /// `GET /drafts/{d}/violations`
    DraftViolations(u32),
    /// `DELETE /drafts/{d}`
    DropDraft(u32),
    /// `GET /drafts/{d}/exams/{e}/places`
    DraftPlaces(u32, ExamNo),
    /// `POST /drafts/{d}/exams/{e}/place`
    Place(u32, ExamNo, Body<Place>),
    /// `POST /drafts/{d}/exams/{e}/move`
    Move(u32, ExamNo, Body<Place>),
    /// `DELETE /drafts/{d}/exams/{e}`
    Clear(u32, ExamNo),
    /// `POST /drafts/{d}/swap/{a}/{b}`
    Swap(u32, ExamNo, ExamNo),
    /// `POST /drafts/{d}/publish`
    Publish(u32),
    /// `GET /publication`
    Publication,
    /// `GET /publication/penalty`
    PublicationPenalty,
    /// `GET /publication/rooms`
    PublicationRooms,
    /// `GET /publication/seats`
    PublicationSeats,
    /// `PUT /batches/{n}`
    Batch(u32, Body<&'a [u8]>),
}
