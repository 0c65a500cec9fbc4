// The first exam that passes a test.
ghost use Rattle.std.specs.Prelude.{◌≡◌};
ghost use Rattle.exam_places.specs.Firsts.{found_or, is_found};

use exam_model::ExamNo;

/// Returns the exam that was found so far, else this one if it passes.
pub(crate) fn found_or(found: Option<ExamNo>, passes: bool, exam: ExamNo) -> Option<ExamNo>
    ensures { result ≡ found_or found passes exam }
{
    match found {
        Some(first) => Some(first),
        None if passes => Some(exam),
        None => None,
    }
}

/// Returns whether there is such an exam.
pub(crate) fn is_found(found: Option<ExamNo>) -> bool
    ensures { result ≡ is_found found }
{
    match found {
        Some(_) => true,
        None => false,
    }
}
