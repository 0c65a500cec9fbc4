// How many students two exams share.
ghost use Rattle.std.specs.Prelude.{◌≡◌, ◌<◌, ◌≤◌, length, count_by};
ghost use Rattle.exam_terms.specs.declared.limits.TheConstants.{MAX_PAIRS};
ghost use Rattle.exam_model.specs.Enrolments.{IsAscending, has_number};
ghost use Rattle.exam_places.specs.Shares.{shared_of};

use exam_model::{Enrolments, ExamNo, StudentNo};

/// Returns how many students sit both exams.
pub(crate) fn shared_of(enrolments: &Enrolments, exam: ExamNo, other: ExamNo) -> u64
    requires exists { exam < length enrolments.now }
    requires other_exists { other < length enrolments.now }
    ensures shared { result ≡ shared_of enrolments.now exam other }
    ensures small { result ≤ MAX_PAIRS }
{
    enrolments.lemma_order();
    if other < exam {
        count_common(enrolments.students(other), enrolments.students(exam))
    } else {
        count_common(enrolments.students(exam), enrolments.students(other))
    }
}

// Returns how many numbers two ascending lists have in common, in one walk along both.
fn count_common(first: &[StudentNo], second: &[StudentNo]) -> u64
    requires first { IsAscending first.now }
    requires second { IsAscending second.now }
    ensures { result ≡ count_by (λ s. has_number second.now s) first.now }
{
    let mut left = first;
    let mut right = second;
    let mut count = 0;
    'walk: while let Some((student, others)) = left.split_first() {
        let Some((other, rest)) = right.split_first() else {
            return count;
        };
        if student < other {
            left = others;
        } else if other < student {
            right = rest;
        } else {
            left = others;
            right = rest;
            count += 1;
        }
    }
    count
}
