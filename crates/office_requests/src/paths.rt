// The segments of a path.
ghost use Rattle.std.specs.Prelude.{◌≡◌, Some, None, IfOk, IfErr};
ghost use Rattle.office_requests.specs.Paths.{first_segment, rest_after_slash, segment};
ghost use Rattle.office_requests.specs.Paths.{number_in, numbers_of};
ghost use Rattle.office_requests.specs.declared.requests.Refusal.TheVariants as refusal;

use crate::requests::Refusal;
use crate::routes::Page;
use office_policy::read_number;

const SLASH: u8 = b'/';

/// Returns the numbers in a path of the page, in order, and 0 for each of the three that it lacks.
/// The path is refused if one of them isn't one to nine digits.
pub(crate) fn numbers_in(page: Page, path: &[u8]) -> Result<(u32, u32, u32), Refusal>
    ensures ok { IfOk result (λ n. numbers_of page path.now ≡ Some n) }
    ensures err { IfErr result (λ e. e ≡ refusal.Path × (numbers_of page path.now ≡ None)) }
{
    Ok(match page {
        Page::MyExam => (number_in(path, 3)?, 0, 0),
        Page::Owner
        | Page::Draft
        | Page::DraftPenalty
        | Page::DraftViolations
        | Page::Publish
        | Page::Batch => (number_in(path, 2)?, 0, 0),
        Page::DraftPlaces | Page::Place | Page::Move | Page::Slot => {
            (number_in(path, 2)?, number_in(path, 4)?, 0)
        }
        Page::Swap => (
            number_in(path, 2)?,
            number_in(path, 4)?,
            number_in(path, 5)?,
        ),
        _ => (0, 0, 0),
    })
}

/// Returns the number in a segment of the path; segments are counted from 0, and before the path's
/// first slash there is an empty one. The path is refused if the segment isn't a number.
pub(crate) fn number_in(path: &[u8], place: u32) -> Result<u32, Refusal>
    ensures ok { IfOk result (λ n. number_in place path.now ≡ Some n) }
    ensures err { IfErr result (λ e. e ≡ refusal.Path × (number_in place path.now ≡ None)) }
{
    match read_number(segment(path, place)) {
        Some(number) => Ok(number),
        None => Err(Refusal::Path),
    }
}

#[tactic(auto, using(crate::proofs::PathLemmas::segment_later))]
fn segment(path: &[u8], place: u32) -> &[u8]
    ensures { result.now ≡ segment place path.now }
{
    let (first, others) = cut(path);
    if place == 0 {
        return first;
    }
    segment(others, place - 1)
}

// Returns the bytes before the first slash, and those after it.
#[tactic(auto, using(crate::proofs::PathLemmas::slash_facts))]
fn cut(path: &[u8]) -> (&[u8], &[u8])
    ensures first { result.0.now ≡ first_segment path.now }
    ensures rest { result.1.now ≡ rest_after_slash path.now }
{
    for (i, byte) in path.iter().enumerate() {
        if *byte == SLASH {
            return (&path[..i], &path[i + 1..]);
        }
    }
    (path, &path[path.len()..])
}
