// The candidates who are enrolled in moved exams.
ghost use Rattle.std.specs.Prelude.{◌≡◌, ◌<◌, All, IfOk, length};
ghost use Rattle.exam_changes.specs.Moves.{candidates_of};

use crate::moved_exams::Move;
use exam_model::{Enrolments, StudentNo};
use exam_publish::in_order;
use std::alloc::{AllocError, Global};

/// Returns the candidates who are enrolled in a moved exam, ascending, each once.
pub fn candidates(
    alloc: Global,
    enrolments: &Enrolments,
    moves: &[Move],
) -> Result<Vec<StudentNo>, AllocError>
    requires exist { All (λ m. m.exam < length enrolments.now) moves.now }
    ensures { IfOk result (λ found. found.items ≡ candidates_of enrolments.now moves.now) }
{
    let mut found = Vec::new(alloc);
    'moves: for moved in moves {
        found.extend_from_slice(enrolments.students(moved.exam))?;
    }
    Ok(in_order(found))
}
