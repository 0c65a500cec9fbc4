// What different durations in a room and period cost.
ghost use Rattle.std.specs.Prelude.{◌≡◌, ℕ, ◌<◌, ◌+◌, ◌++◌, IfOk, OnOk, if◌then◌else◌, length, slice_index};
ghost use Rattle.exam_terms.specs.declared.limits.TheConstants.{MAX_EXAMS};
ghost use Rattle.exam_model.specs.Fits.{Suits};
ghost use Rattle.exam_score.specs.MixedDurations.{is_at};
ghost use Rattle.exam_reasons.specs.Lists.{all_below, listed};
ghost use Rattle.exam_reasons.specs.Mixed.{AreCounted, exams_below};
ghost use Rattle.exam_reasons.specs.Reasons.{mixed_reason, mixed_reasons};

use crate::durations::durations_at;
use crate::reasons::MixedReason;
use exam_model::{ExamNo, Instance, PeriodNo, Place, RoomNo, Timetable};
use std::alloc::{AllocError, Global};

/// Returns what the durations in each room and period cost, if that is not nothing, by room and
/// then by period. `Err`: out of memory.
pub fn mixed_reasons(
    alloc: Global,
    instance: &Instance,
    timetable: &Timetable,
) -> Result<Vec<MixedReason>, AllocError>
    requires fits { Suits instance.now timetable.now }
    ensures { IfOk result (λ reasons. reasons.items ≡ mixed_reasons instance.now timetable.now) }
{
    let mut reasons = Vec::new(alloc);
    for room in 0..instance.rooms() {
        add_mixed_in(alloc, &mut reasons, instance, timetable, RoomNo::new(room))?;
    }
    Ok(reasons)
}

// Adds those of a room.
fn add_mixed_in(
    alloc: Global,
    reasons: &mut Vec<MixedReason>,
    instance: &Instance,
    timetable: &Timetable,
    room: RoomNo,
) -> Result<(), AllocError>
    requires fits { Suits instance.now timetable.now }
    ensures { OnOk result (reasons.new.items ≡ reasons.old.items
        ++ all_below (length instance.now.periods) (λ period.
        listed (mixed_reason instance.now timetable.now room period))) }
{
    let exams = exams_by_period(alloc, instance, timetable, room)?;
    for period in 0..instance.periods() {
        let period = PeriodNo::new(period);
        let count = exams[period.get() as usize];
        if let Some(reason) = mixed_reason(instance, timetable, room, period, count) {
            reasons.push(reason)?;
        }
    }
    Ok(())
}

// Returns how many exams a room has in each period.
fn exams_by_period(
    alloc: Global,
    instance: &Instance,
    timetable: &Timetable,
    room: RoomNo,
) -> Result<Vec<u32>, AllocError>
    ensures long { IfOk result (λ counts. length counts.items ≡ length instance.now.periods) }
    ensures counts { IfOk result (λ counts.
        AreCounted timetable.now room (length timetable.now) counts.items) }
{
    timetable.lemma_limit();
    let mut counts = vec![in alloc; 0; instance.periods() as usize]?;
    for exam in 0..timetable.exams() {
        count_place(&mut counts, room, timetable.get(ExamNo::new(exam)));
    }
    Ok(counts)
}

// Counts an exam at its period, if it is in the room.
fn count_place(counts: &mut [u32], room: RoomNo, place: Option<Place>)
    requires few { (p : ℕ) → p < length counts.old → slice_index counts.old p < MAX_EXAMS }
    ensures long { length counts.new ≡ length counts.old }
    ensures counted { (p : ℕ) → p < length counts.old → slice_index counts.new p
        ≡ slice_index counts.old p + (if is_at p room place then 1 else 0) }
{
    let Some(place) = place else {
        return;
    };
    if place.room != room {
        return;
    }
    let at = place.period.get() as usize;
    if at >= counts.len() {
        return; // there is no such period
    }
    counts[at] += 1;
}

// Returns what the durations in a room and period cost, if that is not nothing, by the number of
// its exams.
fn mixed_reason(
    instance: &Instance,
    timetable: &Timetable,
    room: RoomNo,
    period: PeriodNo,
    exams: u32,
) -> Option<MixedReason>
    requires fits { Suits instance.now timetable.now }
    requires counted { exams ≡ exams_below timetable.now period room (length timetable.now) }
    ensures { result ≡ mixed_reason instance.now timetable.now room period }
{
    instance.lemma_limits();
    if exams < 2 {
        return None; // as in most rooms and periods
    }
    let durations = durations_at(instance, timetable, &Place { period, room });
    let points = durations.saturating_sub(1) * u64::from(instance.weights().mixed);
    if points == 0 {
        return None;
    }
    Some(MixedReason {
        room,
        period,
        durations,
        points,
    })
}
