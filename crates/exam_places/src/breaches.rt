// The breaches of an exam that is put at a place, by what it meets there.
ghost use Rattle.std.specs.Prelude.{◌≡◌, ◌+◌, ◌*◌, ◌<◌, ◌≤◌, length, option_map, slice_get, Some};
ghost use Rattle.exam_terms.specs.declared.limits.TheConstants.{MAX_EXAMS, MAX_PAIRS};
ghost use Rattle.exam_model.specs.Enrolments.{size_of};
ghost use Rattle.exam_model.specs.Fits.{PlaceExists};
ghost use Rattle.exam_places.specs.Answers.{place};
ghost use Rattle.exam_rules.specs.Breach.{breach, pair};
ghost use Rattle.exam_rules.specs.HardRules.{is_longer, is_too_small};
ghost use Rattle.exam_places.specs.Breaches.{clash_with, exclusive_breach, keeping_breach, own_breach};
ghost use Rattle.exam_places.specs.Groups.{capacity_rules, early_rules, exclusive_rules};
ghost use Rattle.exam_places.specs.PeriodTable.{period_entry};
ghost use Rattle.exam_places.specs.PlaceTable.{is_keeper, place_entry};
ghost use Rattle.exam_places.specs.Unplaced.{IsUnplaced, first_breach};

use crate::period_table::PeriodEntry;
use crate::place_table::PlaceEntry;
use crate::unplaced_exam::UnplacedExam;
use exam_model::{ExamNo, PeriodNo, Place, RoomNo};
use exam_rules::{Breach, BreachRule};

/// Returns the first breach of the rules on a place's period that come before `Capacity`.
pub(crate) fn early_breach(
    unplaced: &UnplacedExam,
    entry: &PeriodEntry,
    period: PeriodNo,
) -> Option<Breach>
    requires unplaced { IsUnplaced unplaced.now }
    requires exists { period < length unplaced.now.instance.now.periods }
    requires entry { entry.now
        ≡ period_entry unplaced.now (length unplaced.now.instance.now.exams) period }
    ensures { result ≡ first_breach unplaced.now (place period 0) early_rules }
{
    if is_too_long(unplaced, period) {
        return Some(own_breach(BreachRule::Duration, unplaced.exam));
    }
    first_clash(unplaced.exam, entry.first)
}

// Returns whether the exam lasts longer than a period.
fn is_too_long(unplaced: &UnplacedExam, period: PeriodNo) -> bool
    requires unplaced { IsUnplaced unplaced.now }
    requires exists { period < length unplaced.now.instance.now.periods }
    ensures { result ≡ is_longer (slice_get unplaced.now.instance.now.exams unplaced.now.exam)
        (slice_get unplaced.now.instance.now.periods period) }
{
    let length = unplaced.instance.period(period).length;
    length < unplaced.instance.exam(unplaced.exam).minutes
}

// Returns the clash with the first of the other exams, if there is one.
fn first_clash(exam: ExamNo, first: Option<ExamNo>) -> Option<Breach>
    ensures { result ≡ option_map (clash_with exam) first }
{
    match first {
        Some(other) => Some(clash_with(exam, other)),
        None => None,
    }
}

// Returns the breach of a rule by one exam.
fn own_breach(rule: BreachRule, exam: ExamNo) -> Breach
    ensures { result ≡ own_breach rule exam }
{
    Breach {
        rule,
        exam,
        other: exam,
    }
}

// Returns the clash of an exam and another one, the smaller first.
fn clash_with(exam: ExamNo, other: ExamNo) -> Breach
    ensures { result ≡ clash_with exam other }
{
    let rule = BreachRule::Clash;
    if other < exam {
        Breach {
            rule,
            exam: other,
            other: exam,
        }
    } else {
        Breach { rule, exam, other }
    }
}

/// Returns the breach of `Capacity` at a place, if the exam's students come to those who are there.
pub(crate) fn capacity_breach(
    unplaced: &UnplacedExam,
    entry: &PlaceEntry,
    at: &Place,
) -> Option<Breach>
    requires unplaced { IsUnplaced unplaced.now }
    requires exists { PlaceExists unplaced.now.instance.now (Some at.now) }
    requires entry { entry.now
        ≡ place_entry unplaced.now (length unplaced.now.instance.now.exams) at.now }
    ensures { result ≡ first_breach unplaced.now at.now capacity_rules }
{
    unplaced.enrolments.lemma_order();
    if is_too_small(unplaced, entry.students, at.room) {
        Some(own_breach(BreachRule::Capacity, unplaced.exam))
    } else {
        None
    }
}

// Returns whether a room holds fewer students than these and the exam's.
fn is_too_small(unplaced: &UnplacedExam, students: u64, room: RoomNo) -> bool
    requires unplaced { IsUnplaced unplaced.now }
    requires exists { room < length unplaced.now.instance.now.rooms }
    requires few { students ≤ MAX_EXAMS * MAX_PAIRS }
    ensures { result ≡ is_too_small (slice_get unplaced.now.instance.now.rooms room)
        (students + size_of unplaced.now.enrolments.now unplaced.now.exam) }
{
    let capacity = unplaced.instance.room(room).capacity;
    let students = students + u64::from(unplaced.enrolments.size(unplaced.exam));
    u64::from(capacity) < students
}

/// Returns the first breach of `RoomExclusive` at a place. `keeps`: the exam must have its room to
/// itself.
pub(crate) fn exclusive_breach(
    unplaced: &UnplacedExam,
    keeps: bool,
    entry: &PlaceEntry,
    at: &Place,
) -> Option<Breach>
    requires unplaced { IsUnplaced unplaced.now }
    requires exists { PlaceExists unplaced.now.instance.now (Some at.now) }
    requires keeps { keeps ≡ is_keeper unplaced.now.instance.now unplaced.now.exam }
    requires entry { entry.now
        ≡ place_entry unplaced.now (length unplaced.now.instance.now.exams) at.now }
    ensures { result ≡ first_breach unplaced.now at.now exclusive_rules }
{
    exclusive_of(unplaced.exam, keeps, entry.first, entry.keeper)
}

// Returns the first pair of an exam that keeps its room and another one there: the first keeper and
// the exam, if the keeper's number is smaller or the exam keeps no room; else the exam and the first
// other one, if the exam keeps its room.
fn exclusive_of(
    exam: ExamNo,
    keeps: bool,
    first: Option<ExamNo>,
    keeper: Option<ExamNo>,
) -> Option<Breach>
    ensures { result ≡ exclusive_breach exam keeps first keeper }
{
    let Some(keeper) = keeper else {
        return keeping_breach(exam, keeps, first);
    };
    if keeper < exam || !keeps {
        Some(exclusive_pair(keeper, exam))
    } else {
        keeping_breach(exam, keeps, first)
    }
}

// Returns the exam's own first pair, if it keeps its room.
fn keeping_breach(exam: ExamNo, keeps: bool, first: Option<ExamNo>) -> Option<Breach>
    ensures { result ≡ keeping_breach exam keeps first }
{
    let Some(other) = first else {
        return None;
    };
    if keeps {
        Some(exclusive_pair(exam, other))
    } else {
        None
    }
}

// Returns the breach of `RoomExclusive` by an exam that keeps its room, and another one there.
fn exclusive_pair(exam: ExamNo, other: ExamNo) -> Breach
    ensures { result ≡ breach BreachRule.RoomExclusive (pair exam other) }
{
    Breach {
        rule: BreachRule::RoomExclusive,
        exam,
        other,
    }
}
