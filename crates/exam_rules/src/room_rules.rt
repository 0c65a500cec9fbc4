// The rules on rooms: Capacity and RoomExclusive.
ghost use Rattle.std.specs.Prelude.{◌≡◌, ◌<◌, ℕ, Bool, ◌&&◌, ◌||◌, ◌==◌, not, map, length, All, IfOk, OnOk};
ghost use Rattle.std.specs.List.{list_any};
ghost use Rattle.exam_model.specs.Enrolments.{Enrolled, has_number};
ghost use Rattle.exam_model.specs.Fits.{Suits};
ghost use Rattle.exam_rules.specs.declared.breach.BreachRule.TheVariants.{Capacity, RoomExclusive};
ghost use Rattle.exam_rules.specs.Breach.{is_pair};
ghost use Rattle.exam_rules.specs.Lines.{is_exclusive};
ghost use Rattle.exam_rules.specs.Groups.{AreGroups};
ghost use Rattle.exam_rules.specs.Places.{Fits, in_one_place};
ghost use Rattle.exam_rules.specs.Breaches.{pairs_breaking, is_one_of};
ghost use Rattle.exam_rules.specs.HardRules.{breaks, is_overfull};

use crate::exam_list::ExamList;
use crate::exam_pair::{ExamPair, in_order, pair_if, push_some};
use crate::groups::{by_period, group_of};
use crate::loads::{is_too_small, load_at, loads_of};
use crate::relations::in_one_place;
use crate::site::Site;
use exam_model::{Enrolments, ExamNo, Instance, RoomRule, Timetable};
use std::alloc::{AllocError, Global};

/// Returns the exams whose room and period have more students than the room holds, each with
/// itself.
pub(crate) fn capacity_pairs(
    alloc: Global,
    instance: &Instance,
    enrolments: &Enrolments,
    timetable: &Timetable,
) -> Result<Vec<ExamPair>, AllocError>
    requires { Fits instance.now enrolments.now timetable.now }
    ensures { IfOk result (λ found. found.items
        ≡ pairs_breaking instance.now enrolments.now timetable.now Capacity) }
{
    let loads = loads_of(alloc, instance, enrolments, timetable)?;
    let mut found = Vec::new(alloc);
    'exams: for exam in 0..instance.exams() {
        let exam = ExamNo::new(exam);
        let Some(place) = timetable.get(exam) else {
            continue;
        };
        let overfull = is_too_small(instance, &loads, place);
        push_some(&mut found, pair_if(overfull, exam, exam))?;
    }
    Ok(in_order(found))
}

/// Returns the exams that must have their rooms to themselves, each with every other exam there.
pub(crate) fn exclusive_pairs(
    alloc: Global,
    instance: &Instance,
    timetable: &Timetable,
) -> Result<Vec<ExamPair>, AllocError>
    requires fits { Suits instance.now timetable.now }
    ensures { (E : Enrolled) → IfOk result (λ found. found.items
        ≡ pairs_breaking instance.now E timetable.now RoomExclusive) }
{
    let mut found = Vec::new(alloc);
    let exclusive = exclusive_exams(alloc, instance)?;
    let groups = groups_for(alloc, instance, timetable, &exclusive)?;
    'exams: for exam in &exclusive {
        let Some(place) = timetable.get(*exam) else {
            continue;
        };
        add_intruders(
            &mut found,
            *exam,
            group_of(&groups, place.period),
            timetable,
        )?;
    }
    Ok(in_order(found))
}

// Returns the exams of each period, if there are exams to search them for.
fn groups_for(
    alloc: Global,
    instance: &Instance,
    timetable: &Timetable,
    exams: &[ExamNo],
) -> Result<Vec<ExamList>, AllocError>
    requires { Suits instance.now timetable.now }
    ensures { IfOk result (λ groups. 0 < length exams.now → AreGroups timetable.now
        (length instance.now.periods) (length timetable.now) groups.items) }
{
    if exams.is_empty() {
        return Ok(Vec::new(alloc));
    }
    by_period(alloc, instance, timetable)
}

// Returns the exams that must have their rooms to themselves, each once.
fn exclusive_exams(alloc: Global, instance: &Instance) -> Result<Vec<ExamNo>, AllocError>
    ensures members { IfOk result (λ exams. (e : ℕ) → has_number exams.items e
        ≡ list_any (is_exclusive e) instance.now.room_rules) }
    ensures exist { IfOk result (λ exams. All (λ e. e < length instance.now.exams) exams.items) }
{
    let mut exams = named_exams(alloc, instance.room_rules())?;
    exams.sort_unstable();
    exams.dedup();
    Ok(exams)
}

// Returns the exam of each line.
fn named_exams(alloc: Global, lines: &[RoomRule]) -> Result<Vec<ExamNo>, AllocError>
    ensures { IfOk result (λ exams. exams.items ≡ map (λ line. line.0) lines.now) }
{
    lines.iter().map(|line| line.0).collect(alloc)
}

// Adds the pairs of an exam and the others of its group in its room.
fn add_intruders(
    found: &mut Vec<ExamPair>,
    exam: ExamNo,
    group: &[ExamNo],
    timetable: &Timetable,
) -> Result<(), AllocError>
    requires exists { exam < length timetable.now }
    requires others_exist { All (λ f. f < length timetable.now) group.now }
    ensures { OnOk result ((e f : ℕ) → list_any (is_pair e f) found.new.items
        ≡ (list_any (is_pair e f) found.old.items || (has_number group.now f
        && ((exam == e) && (not (e == f) && in_one_place timetable.now e f))))) }
{
    'others: for other in group {
        let intruder = is_intruder(timetable, exam, *other);
        push_some(found, pair_if(intruder, exam, *other))?;
    }
    Ok(())
}

// Returns whether another exam is in the room and period of an exam.
fn is_intruder(timetable: &Timetable, exam: ExamNo, other: ExamNo) -> bool
    requires exists { exam < length timetable.now }
    requires other_exists { other < length timetable.now }
    ensures { result ≡ (not (exam == other) && in_one_place timetable.now exam other) }
{
    exam != other && in_one_place(timetable, exam, other)
}

/// Returns whether the exam's room is too small for all exams there in its period.
#[tactic(auto, using(crate::proofs::PlaceLemmas::place_exists))]
pub(crate) fn is_overfull(site: &Site, exam: ExamNo) -> bool
    requires fits { Fits site.now.instance.now site.now.enrolments.now site.now.timetable.now }
    requires exists { exam < length site.now.timetable.now }
    ensures { result ≡ is_overfull site.now.instance.now site.now.enrolments.now
        site.now.timetable.now exam }
{
    match site.timetable.get(exam) {
        Some(place) => {
            let room = site.instance.room(place.room);
            u64::from(room.capacity) < load_at(site.enrolments, site.timetable, &place)
        }
        None => false,
    }
}

/// Adds the pairs of an exam and another one there, if either must have the room to itself.
pub(crate) fn push_exclusives(
    found: &mut Vec<ExamPair>,
    exam: ExamNo,
    site: &Site,
) -> Result<(), AllocError>
    requires fits { Fits site.now.instance.now site.now.enrolments.now site.now.timetable.now }
    requires exists { exam < length site.now.timetable.now }
    ensures { OnOk result ((e f : ℕ) → list_any (is_pair e f) found.new.items
        ≡ (list_any (is_pair e f) found.old.items || (is_one_of exam e f
        && breaks site.now.instance.now site.now.enrolments.now site.now.timetable.now
        RoomExclusive e f))) }
{
    'others: for other in 0..site.timetable.exams() {
        let other = ExamNo::new(other);
        let before = intrudes(site, other, exam);
        push_some(found, pair_if(before, other, exam))?;
        let after = intrudes(site, exam, other);
        push_some(found, pair_if(after, exam, other))?;
    }
    Ok(())
}

// Returns whether another exam is in the room and period of one that must have its room to itself.
fn intrudes(site: &Site, exam: ExamNo, other: ExamNo) -> bool
    requires exists { exam < length site.now.timetable.now }
    requires other_exists { other < length site.now.timetable.now }
    ensures { result ≡ breaks site.now.instance.now site.now.enrolments.now site.now.timetable.now
        RoomExclusive exam other }
{
    is_intruder(site.timetable, exam, other) && is_exclusive(site.instance, exam)
}

// Returns whether a line gives the exam its room to itself.
fn is_exclusive(instance: &Instance, exam: ExamNo) -> bool
    ensures { result ≡ list_any (is_exclusive exam) instance.now.room_rules }
{
    instance.room_rules().iter().any(|line| line.0 == exam)
}
