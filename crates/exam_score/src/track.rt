// The whole penalty from scratch.
ghost use Rattle.std.specs.Prelude.{◌≡◌, length, IfOk};
ghost use Rattle.exam_model.specs.Fits.{Fits};
ghost use Rattle.exam_score.specs.Track.{track};

use crate::front::front_load;
use crate::mixed::mixed_durations;
use crate::pairs::pair_parts;
use crate::parts::Parts;
use crate::places::place_penalties;
use exam_model::{Enrolments, Instance, Timetable};
use std::alloc::{AllocError, Global};

/// Returns the penalty of a timetable, which may be partial: only placed exams cost anything. It is
/// faster if the enrolments' conflicts are listed. `Err`: out of memory.
pub fn score(
    alloc: Global,
    instance: &Instance,
    enrolments: &Enrolments,
    timetable: &Timetable,
) -> Result<Parts, AllocError>
    requires { Fits instance.now enrolments.now timetable.now }
    ensures { IfOk result (λ parts. parts ≡ track instance.now enrolments.now timetable.now) }
{
    let pairs = pair_parts(alloc, instance, enrolments, timetable)?;
    let mixed = mixed_durations(alloc, instance, timetable)?;
    let front = front_load(alloc, instance, enrolments, timetable)?;
    let places = place_penalties(instance, timetable);
    Ok(Parts::of(pairs, mixed, front, places))
}
