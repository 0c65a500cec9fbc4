// The command of a method on a page.
ghost use Rattle.std.specs.Prelude.{◌≡◌, IfOk};
ghost use Rattle.exam_terms.specs.Refusing.{else_err};
ghost use Rattle.office_policy.specs.CommandBodies.{HoldsText};
ghost use Rattle.office_requests.specs.Commands.{command_of, command_at};
ghost use Rattle.office_requests.specs.Answering.{ReturnsCommand};
ghost use Rattle.office_requests.specs.declared.requests.Refusal.TheVariants as refusal;

use crate::bodies::{dept_body, place_body, text_body};
use crate::methods::Verb;
use crate::paths::numbers_in;
use crate::requests::Refusal;
use crate::routes::Page;
use exam_terms::ExamNo;
use office_policy::{Body, Command};
use std::alloc::Global;

/// Returns the command of a method on a page. If a number in the path isn't one to nine digits, the
/// path is refused, for each method.
pub(crate) fn command_at<'a>(
    alloc: Global,
    page: Page,
    verb: Verb,
    path: &[u8],
    body: &'a [u8],
) -> Result<Command<'a>, Refusal>
    ensures command { ReturnsCommand (command_at page verb path.now body.now) result }
    ensures text { IfOk result (HoldsText body.entry) }
{
    let numbers = numbers_in(page, path)?;
    command_of(alloc, verb, page, numbers, body)
}

// The table of all commands: the method and the page of each. An instance's text is never too
// long: no body exceeds its limit.
fn command_of<'a>(
    alloc: Global,
    verb: Verb,
    page: Page,
    numbers: (u32, u32, u32),
    body: &'a [u8],
) -> Result<Command<'a>, Refusal>
    ensures command { ReturnsCommand
        (else_err (refusal.Method page) (command_of verb page numbers body.now)) result }
    ensures text { IfOk result (HoldsText body.entry) }
{
    let (first, second, third) = numbers;
    Ok(match (verb, page) {
        (Verb::Get, Page::Me) => Command::Me,
        (Verb::Get, Page::MyExam) => Command::MyExam(ExamNo::new(first)),
        (Verb::Get, Page::MyPenalty) => Command::MyPenalty,
        (Verb::Put, Page::Instance) => Command::Load(Body::Given(body)),
        (Verb::Get, Page::Instance) => Command::Instance,
        (Verb::Put, Page::Owner) => {
            Command::SetOwner(ExamNo::new(first), dept_body(alloc, body)?)
        }
        (Verb::Put, Page::Draft) => Command::NewDraft(first, text_body(body)),
        (Verb::Get, Page::Draft) => Command::Draft(first),
        (Verb::Get, Page::DraftPenalty) => Command::DraftPenalty(first),
        (Verb::Get, Page::DraftViolations) => Command::DraftViolations(first),
        (Verb::Get, Page::DraftPlaces) => Command::DraftPlaces(first, ExamNo::new(second)),
        (Verb::Delete, Page::Draft) => Command::DropDraft(first),
        (Verb::Post, Page::Place) => {
            Command::Place(first, ExamNo::new(second), place_body(alloc, body)?)
        }
        (Verb::Post, Page::Move) => {
            Command::Move(first, ExamNo::new(second), place_body(alloc, body)?)
        }
        (Verb::Delete, Page::Slot) => Command::Clear(first, ExamNo::new(second)),
        (Verb::Post, Page::Swap) => {
            Command::Swap(first, ExamNo::new(second), ExamNo::new(third))
        }
        (Verb::Post, Page::Publish) => Command::Publish(first),
        (Verb::Get, Page::Publication) => Command::Publication,
        (Verb::Get, Page::PublicationPenalty) => Command::PublicationPenalty,
        (Verb::Get, Page::PublicationRooms) => Command::PublicationRooms,
        (Verb::Get, Page::PublicationSeats) => Command::PublicationSeats,
        (Verb::Put, Page::Batch) => Command::Batch(first, text_body(body)),
        _ => return Err(Refusal::Method(page)),
    })
}
