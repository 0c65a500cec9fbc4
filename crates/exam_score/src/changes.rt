// The penalty after an edit.
ghost use Rattle.std.specs.Prelude.{◌≡◌, ◌<◌, ◌≤◌, length, map, All, AllPairs, IfOk};
ghost use Rattle.exam_terms.specs.declared.limits.TheConstants.{MAX_PAIRS};
ghost use Rattle.exam_model.specs.Fits.{Fits};
ghost use Rattle.exam_model.specs.Sitters.{pair_of};
ghost use Rattle.exam_score.specs.Changes.{DiffersAtMost};
ghost use Rattle.exam_score.specs.Concerned.{IsSooner};
ghost use Rattle.exam_score.specs.Folds.{IsFoldOf, RepresentsPairs};
ghost use Rattle.exam_score.specs.Track.{track};

use crate::concerned::sitters_of;
use crate::edit_fold::EditFold;
use crate::front::sizes_of;
use crate::parts::Parts;
use exam_model::{Enrolments, ExamNo, Instance, Sitter, Timetable};
use std::alloc::{AllocError, Global};

/// Returns the penalty of the new timetable, by that of the old one. The edited exams may come in
/// any order, with repeats, and may keep their places. `Err`: out of memory.
pub fn difference(
    alloc: Global,
    instance: &Instance,
    enrolments: &Enrolments,
    old: &Timetable,
    new: &Timetable,
    edited: &[ExamNo],
    old_parts: Parts,
) -> Result<Parts, AllocError>
    requires old { Fits instance.now enrolments.now old.now }
    requires new { Fits instance.now enrolments.now new.now }
    requires exist { All (λ e. e < length instance.now.exams) edited.now }
    requires others { DiffersAtMost edited.now old.now new.now }
    requires scored { old_parts ≡ track instance.now enrolments.now old.now }
    ensures { IfOk result (λ parts. parts ≡ track instance.now enrolments.now new.now) }
{
    enrolments.lemma_order();
    let sitters = sitters_of(alloc, enrolments, edited)?;
    let sizes = sizes_of(alloc, enrolments)?;
    let fold = fold_sitters(alloc, instance, old, new, edited, &sitters)?;
    let parts = fold.finish(&sizes, old_parts);
    Ok(parts.unwrap())
}

// The fold over all of these.
fn fold_sitters<'a>(
    alloc: Global,
    instance: &'a Instance,
    old: &'a Timetable,
    new: &'a Timetable,
    edited: &'a [ExamNo],
    sitters: &[Sitter],
) -> Result<EditFold<'a>, AllocError>
    requires few { length sitters.now ≤ MAX_PAIRS }
    requires in_order { AllPairs IsSooner sitters.now }
    ensures represents { IfOk result (λ fold. RepresentsPairs fold (map pair_of sitters.now)) }
    ensures of { IfOk result (λ fold. IsFoldOf fold instance.now old.now new.now edited.now) }
{
    let mut fold = EditFold::new(alloc, instance, old, new, edited)?;
    for sitter in sitters {
        fold.row(sitter.student, sitter.exam)?;
    }
    Ok(fold)
}
