// The rules that depend only on the exams' periods: Duration and Clash.
ghost use Rattle.std.specs.Prelude.{◌≡◌, ◌<◌, ℕ, Bool, true, ◌&&◌, ◌||◌, ◌==◌, nat_lt, length, map, All, IfOk, OnOk};
ghost use Rattle.std.specs.List.{list_any};
ghost use Rattle.exam_model.specs.Conflicts.{conflicts_of};
ghost use Rattle.exam_model.specs.Enrolments.{Enrolled};
ghost use Rattle.exam_model.specs.Instance.{Session};
ghost use Rattle.exam_rules.specs.declared.breach.BreachRule.TheVariants.{Duration, Clash};
ghost use Rattle.exam_rules.specs.Breach.{is_pair};
ghost use Rattle.exam_model.specs.Enrolments.{has, has_number};
ghost use Rattle.exam_model.specs.Fits.{Suits};
ghost use Rattle.exam_model.specs.Timetable.{period_number};
ghost use Rattle.exam_rules.specs.Marks.{marks_of, Has};
ghost use Rattle.exam_rules.specs.Places.{Fits, in_one_period, share_student};
ghost use Rattle.exam_rules.specs.Breaches.{pairs_breaking, is_one_of};
ghost use Rattle.exam_rules.specs.HardRules.{breaks, is_too_long};

use crate::exam_pair::{ExamPair, in_order, pair_if, push_some};
use crate::groups::by_period;
use crate::marks::{Marks, has};
use crate::relations::{in_one_period, share_student};
use crate::site::Site;
use exam_model::{Conflict, Enrolments, ExamNo, Instance, StudentNo, Timetable};
use std::alloc::{AllocError, Global};

/// Returns the exams that last longer than their periods, each with itself.
pub(crate) fn duration_pairs(
    alloc: Global,
    instance: &Instance,
    timetable: &Timetable,
) -> Result<Vec<ExamPair>, AllocError>
    requires fits { Suits instance.now timetable.now }
    ensures { (E : Enrolled) → IfOk result (λ found. found.items
        ≡ pairs_breaking instance.now E timetable.now Duration) }
{
    let mut found = Vec::new(alloc);
    'exams: for exam in 0..instance.exams() {
        let exam = ExamNo::new(exam);
        let too_long = is_too_long(instance, timetable, exam);
        push_some(&mut found, pair_if(too_long, exam, exam))?;
    }
    Ok(in_order(found))
}

/// Returns whether the exam lasts longer than its period.
#[tactic(auto, using(crate::proofs::PlaceLemmas::place_exists))]
pub(crate) fn is_too_long(instance: &Instance, timetable: &Timetable, exam: ExamNo) -> bool
    requires exists { exam < length timetable.now }
    requires fits { Suits instance.now timetable.now }
    ensures { result ≡ is_too_long instance.now timetable.now exam }
{
    match timetable.get(exam) {
        Some(place) => instance.period(place.period).length < instance.exam(exam).minutes,
        None => false,
    }
}

/// Returns the exams that share a student and are in one period, the smaller of them first.
pub(crate) fn clash_pairs(
    alloc: Global,
    instance: &Instance,
    enrolments: &Enrolments,
    timetable: &Timetable,
) -> Result<Vec<ExamPair>, AllocError>
    requires fits { Fits instance.now enrolments.now timetable.now }
    ensures { IfOk result (λ found. found.items
        ≡ pairs_breaking instance.now enrolments.now timetable.now Clash) }
{
    match enrolments.conflicts() {
        Some(conflicts) => listed_clashes(alloc, timetable, conflicts),
        None => grouped_clashes(alloc, instance, enrolments, timetable),
    }
}

// Returns the same by the pairs of exams that share students.
fn listed_clashes(
    alloc: Global,
    timetable: &Timetable,
    conflicts: &[Conflict],
) -> Result<Vec<ExamPair>, AllocError>
    requires exist { All (λ c. (c.exam < length timetable.now) × (c.other < length timetable.now))
        conflicts.now }
    ensures { (I : Session) (E : Enrolled) → Fits I E timetable.now
        → conflicts.now ≡ conflicts_of E → IfOk result (λ found. found.items
        ≡ pairs_breaking I E timetable.now Clash) }
{
    let mut found = Vec::new(alloc);
    let periods = timetable.periods(alloc)?;
    'conflicts: for conflict in conflicts {
        let clash = is_listed_clash(timetable, &periods, conflict);
        push_some(&mut found, pair_if(clash, conflict.exam, conflict.other))?;
    }
    Ok(in_order(found))
}

// Returns whether the exams of a conflict are in one period. Places are read only if the numbers of
// their periods are equal, as for few conflicts.
fn is_listed_clash(timetable: &Timetable, periods: &[u32], conflict: &Conflict) -> bool
    requires exists { conflict.now.exam < length timetable.now }
    requires other_exists { conflict.now.other < length timetable.now }
    requires periods { periods.now ≡ map period_number timetable.now }
    ensures { result ≡ in_one_period timetable.now conflict.now.exam conflict.now.other }
{
    let (exam, other) = (conflict.exam, conflict.other);
    let maybe = periods[exam.get() as usize] == periods[other.get() as usize];
    maybe && in_one_period(timetable, exam, other)
}

// Returns the same by the students of the exams of each period.
fn grouped_clashes(
    alloc: Global,
    instance: &Instance,
    enrolments: &Enrolments,
    timetable: &Timetable,
) -> Result<Vec<ExamPair>, AllocError>
    requires fits { Fits instance.now enrolments.now timetable.now }
    ensures { IfOk result (λ found. found.items
        ≡ pairs_breaking instance.now enrolments.now timetable.now Clash) }
{
    let groups = by_period(alloc, instance, timetable)?;
    let mut found = Vec::new(alloc);
    let mut marks = Marks::new(alloc, enrolments.pairs())?;
    'groups: for group in &groups {
        add_group(&mut found, &mut marks, group.as_slice(), enrolments)?;
    }
    Ok(in_order(found))
}

// Adds the clashes within a group.
fn add_group(
    found: &mut Vec<ExamPair>,
    marks: &mut Marks,
    group: &[ExamNo],
    enrolments: &Enrolments,
) -> Result<(), AllocError>
    requires exist { All (λ e. e < length enrolments.now) group.now }
    ensures { OnOk result ((e f : ℕ) → list_any (is_pair e f) found.new.items
        ≡ (list_any (is_pair e f) found.old.items || ((has_number group.now e
        && has_number group.now f) && (nat_lt e f && share_student enrolments.now e f)))) }
{
    mark(marks, group, enrolments);
    'exams: for exam in group {
        add_clashes(found, marks, *exam, group, enrolments)?;
    }
    unmark(marks, group, enrolments);
    Ok(())
}

// Marks the exams of a group for their students.
fn mark(marks: &mut Marks, group: &[ExamNo], enrolments: &Enrolments)
    requires exist { All (λ e. e < length enrolments.now) group.now }
    ensures { (e s : ℕ) → has_number group.now e ≡ true → has enrolments.now s e ≡ true
        → Has (marks_of marks.new s) e }
{
    'exams: for exam in group {
        marks.add(enrolments.students(*exam), *exam);
    }
}

// Returns the marked exams of an exam's students.
#[tactic(auto, using(exam_lists::proofs::Counts::count_by_any))]
fn near_of(marks: &Marks, enrolments: &Enrolments, exam: ExamNo) -> u64
    requires exists { exam < length enrolments.now }
    ensures { (f : ℕ) → ((s : ℕ) → has enrolments.now s f ≡ true → Has (marks_of marks.now s) f)
        → share_student enrolments.now exam f ≡ true → Has result f }
{
    marks.of(enrolments.students(exam))
}

// Adds an exam's clashes with greater exams of its group, which is marked.
fn add_clashes(
    found: &mut Vec<ExamPair>,
    marks: &Marks,
    exam: ExamNo,
    group: &[ExamNo],
    enrolments: &Enrolments,
) -> Result<(), AllocError>
    requires exists { exam < length enrolments.now }
    requires own { has_number group.now exam ≡ true }
    requires others_exist { All (λ f. f < length enrolments.now) group.now }
    requires marked { (f s : ℕ) → has_number group.now f ≡ true → has enrolments.now s f ≡ true
        → Has (marks_of marks.now s) f }
    ensures { OnOk result ((e f : ℕ) → list_any (is_pair e f) found.new.items
        ≡ (list_any (is_pair e f) found.old.items || (has_number group.now f
        && ((exam == e) && (nat_lt e f && share_student enrolments.now e f))))) }
{
    let near = near_of(marks, enrolments, exam);
    'others: for other in group {
        let clash = is_clash(near, marks, enrolments, exam, *other);
        push_some(found, pair_if(clash, exam, *other))?;
    }
    Ok(())
}

// Returns whether two marked exams share a student, the smaller of them first; they share none if
// the other one isn't near.
fn is_clash(near: u64, marks: &Marks, enrolments: &Enrolments, exam: ExamNo, other: ExamNo) -> bool
    requires exists { exam < length enrolments.now }
    requires other_exists { other < length enrolments.now }
    requires near { share_student enrolments.now exam other ≡ true → Has near other }
    requires marked { (s : ℕ) → has enrolments.now s exam ≡ true
        → Has (marks_of marks.now s) exam }
    requires other_marked { (s : ℕ) → has enrolments.now s other ≡ true
        → Has (marks_of marks.now s) other }
    ensures { result ≡ (nat_lt exam other && share_student enrolments.now exam other) }
{
    exam < other && has(near, other) && share_marked(marks, enrolments, exam, other)
}

// Returns whether two marked exams share a student: one of the students of the smaller sits the
// other.
#[tactic(auto, using(crate::proofs::SharingLemmas::share_turned))]
fn share_marked(marks: &Marks, enrolments: &Enrolments, exam: ExamNo, other: ExamNo) -> bool
    requires exists { exam < length enrolments.now }
    requires other_exists { other < length enrolments.now }
    requires marked { (s : ℕ) → has enrolments.now s exam ≡ true
        → Has (marks_of marks.now s) exam }
    requires other_marked { (s : ℕ) → has enrolments.now s other ≡ true
        → Has (marks_of marks.now s) other }
    ensures { result ≡ share_student enrolments.now exam other }
{
    if enrolments.size(other) < enrolments.size(exam) {
        return one_sits(marks, enrolments, other, exam);
    }
    one_sits(marks, enrolments, exam, other)
}

// Returns whether one of an exam's students sits another one, which is marked: only students with
// its mark are searched for in its list.
fn one_sits(marks: &Marks, enrolments: &Enrolments, exam: ExamNo, other: ExamNo) -> bool
    requires exists { exam < length enrolments.now }
    requires other_exists { other < length enrolments.now }
    requires marked { (s : ℕ) → has enrolments.now s other ≡ true
        → Has (marks_of marks.now s) other }
    ensures { result ≡ share_student enrolments.now exam other }
{
    'sitters: for student in enrolments.students(exam) {
        if sits(marks, enrolments, *student, other) {
            return true;
        }
    }
    false
}

#[inline(always)]
fn sits(marks: &Marks, enrolments: &Enrolments, student: StudentNo, exam: ExamNo) -> bool
    requires exists { exam < length enrolments.now }
    requires marked { has enrolments.now student exam ≡ true
        → Has (marks_of marks.now student) exam }
    ensures { result ≡ has enrolments.now student exam }
{
    has(marks.of_student(student), exam) && enrolments.has(student, exam)
}

// Deletes the marks of a group.
fn unmark(marks: &mut Marks, group: &[ExamNo], enrolments: &Enrolments)
    requires exist { All (λ e. e < length enrolments.now) group.now }
    ensures { (e s : ℕ) → has_number group.now e ≡ true → has enrolments.now s e ≡ true
        → marks_of marks.new s ≡ 0 }
{
    'exams: for exam in group {
        marks.clear(enrolments.students(*exam));
    }
}

/// Adds an exam's clashes, with smaller exams and with greater ones.
pub(crate) fn push_clashes(
    found: &mut Vec<ExamPair>,
    exam: ExamNo,
    site: &Site,
) -> Result<(), AllocError>
    requires fits { Fits site.now.instance.now site.now.enrolments.now site.now.timetable.now }
    requires exists { exam < length site.now.timetable.now }
    ensures { OnOk result ((e f : ℕ) → list_any (is_pair e f) found.new.items
        ≡ (list_any (is_pair e f) found.old.items || (is_one_of exam e f
        && breaks site.now.instance.now site.now.enrolments.now site.now.timetable.now
        Clash e f))) }
{
    'others: for other in 0..site.timetable.exams() {
        let other = ExamNo::new(other);
        let before = clashes(site, other, exam);
        push_some(found, pair_if(before, other, exam))?;
        let after = clashes(site, exam, other);
        push_some(found, pair_if(after, exam, other))?;
    }
    Ok(())
}

// Returns whether two exams share a student and are in one period, the smaller of them first.
fn clashes(site: &Site, exam: ExamNo, other: ExamNo) -> bool
    requires fits { Fits site.now.instance.now site.now.enrolments.now site.now.timetable.now }
    requires exists { exam < length site.now.timetable.now }
    requires other_exists { other < length site.now.timetable.now }
    ensures { result ≡ breaks site.now.instance.now site.now.enrolments.now site.now.timetable.now
        Clash exam other }
{
    exam < other
        && in_one_period(site.timetable, exam, other)
        && share_student(site.enrolments, exam, other)
}
