// The rules of lines on two exams: After, Coincidence and Exclusion.
ghost use Rattle.std.specs.Prelude.{◌≡◌, ℕ, Bool, ◌&&◌, ◌==◌, not, ◌||◌, nat_lt, length, IfOk, OnOk};
ghost use Rattle.std.specs.List.{list_any};
ghost use Rattle.exam_model.specs.Instance.{PeriodRuleExists};
ghost use Rattle.exam_model.specs.Enrolments.{Enrolled};
ghost use Rattle.exam_rules.specs.declared.breach.BreachRule.TheVariants.{After, Coincidence, Exclusion};
ghost use Rattle.exam_rules.specs.Breach.{is_pair, is_some_pair};
ghost use Rattle.exam_rules.specs.Lines.{is_after, is_coincidence, is_exclusion, line_names};
ghost use Rattle.exam_rules.specs.Places.{Fits, in_one_period, in_two_periods, is_not_after, share_student};
ghost use Rattle.exam_rules.specs.Breaches.{pairs_breaking, is_one_of};
ghost use Rattle.exam_rules.specs.HardRules.{breaks};

use crate::exam_pair::{ExamPair, in_order, pair_if, push_some};
use crate::relations::{are_strangers_apart, in_one_period, is_not_after};
use crate::site::Site;
use exam_model::{Enrolments, ExamNo, Instance, PeriodRule, Timetable};
use std::alloc::{AllocError, Global};

/// Returns the broken `After` lines: the first exam's period isn't greater than the second's.
pub(crate) fn after_pairs(
    alloc: Global,
    instance: &Instance,
    timetable: &Timetable,
) -> Result<Vec<ExamPair>, AllocError>
    requires { length timetable.now ≡ length instance.now.exams }
    ensures { (E : Enrolled) → IfOk result (λ found. found.items
        ≡ pairs_breaking instance.now E timetable.now After) }
{
    let mut found = Vec::new(alloc);
    'lines: for line in instance.period_rules() {
        push_some(&mut found, broken_after(line, timetable))?;
    }
    Ok(in_order(found))
}

// Returns the pair of exams, if the line is an `After` and they break it.
fn broken_after(line: &PeriodRule, timetable: &Timetable) -> Option<ExamPair>
    requires exists { PeriodRuleExists (length timetable.now) line.now }
    ensures { (e f : ℕ) → is_some_pair e f result
        ≡ (is_after e f line.now && (not (e == f) && is_not_after timetable.now e f)) }
{
    match line {
        PeriodRule::After(later, earlier) if later != earlier => {
            pair_if(is_not_after(timetable, *later, *earlier), *later, *earlier)
        }
        _ => None,
    }
}

/// Returns the broken `Coincidence` lines: the exams share no student and their periods differ.
pub(crate) fn coincidence_pairs(
    alloc: Global,
    instance: &Instance,
    enrolments: &Enrolments,
    timetable: &Timetable,
) -> Result<Vec<ExamPair>, AllocError>
    requires { Fits instance.now enrolments.now timetable.now }
    ensures { IfOk result (λ found. found.items
        ≡ pairs_breaking instance.now enrolments.now timetable.now Coincidence) }
{
    let mut found = Vec::new(alloc);
    'lines: for line in instance.period_rules() {
        push_some(&mut found, broken_coincidence(line, enrolments, timetable))?;
    }
    Ok(in_order(found))
}

// Returns the pair of exams, if the line is a `Coincidence` and they break it.
fn broken_coincidence(
    line: &PeriodRule,
    enrolments: &Enrolments,
    timetable: &Timetable,
) -> Option<ExamPair>
    requires exists { PeriodRuleExists (length timetable.now) line.now }
    requires fits { length enrolments.now ≡ length timetable.now }
    ensures { (e f : ℕ) → is_some_pair e f result ≡ (is_coincidence e f line.now
        && (nat_lt e f && (not (share_student enrolments.now e f)
        && in_two_periods timetable.now e f))) }
{
    match line {
        PeriodRule::Coincidence(a, b) if a < b => {
            pair_if(are_strangers_apart(enrolments, timetable, *a, *b), *a, *b)
        }
        PeriodRule::Coincidence(a, b) if b < a => {
            pair_if(are_strangers_apart(enrolments, timetable, *b, *a), *b, *a)
        }
        _ => None,
    }
}

/// Returns the broken `Exclusion` lines: the exams are in one period.
pub(crate) fn exclusion_pairs(
    alloc: Global,
    instance: &Instance,
    timetable: &Timetable,
) -> Result<Vec<ExamPair>, AllocError>
    requires { length timetable.now ≡ length instance.now.exams }
    ensures { (E : Enrolled) → IfOk result (λ found. found.items
        ≡ pairs_breaking instance.now E timetable.now Exclusion) }
{
    let mut found = Vec::new(alloc);
    'lines: for line in instance.period_rules() {
        push_some(&mut found, broken_exclusion(line, timetable))?;
    }
    Ok(in_order(found))
}

// Returns the pair of exams, if the line is an `Exclusion` and they break it.
fn broken_exclusion(line: &PeriodRule, timetable: &Timetable) -> Option<ExamPair>
    requires exists { PeriodRuleExists (length timetable.now) line.now }
    ensures { (e f : ℕ) → is_some_pair e f result
        ≡ (is_exclusion e f line.now && (nat_lt e f && in_one_period timetable.now e f)) }
{
    match line {
        PeriodRule::Exclusion(a, b) if a < b => pair_if(in_one_period(timetable, *a, *b), *a, *b),
        PeriodRule::Exclusion(a, b) if b < a => pair_if(in_one_period(timetable, *b, *a), *b, *a),
        _ => None,
    }
}

/// Adds the broken `After` lines that name the exam.
pub(crate) fn push_afters(
    found: &mut Vec<ExamPair>,
    exam: ExamNo,
    site: &Site,
) -> Result<(), AllocError>
    requires fits { Fits site.now.instance.now site.now.enrolments.now site.now.timetable.now }
    ensures { OnOk result ((e f : ℕ) → list_any (is_pair e f) found.new.items
        ≡ (list_any (is_pair e f) found.old.items || (is_one_of exam e f
        && breaks site.now.instance.now site.now.enrolments.now site.now.timetable.now
        After e f))) }
{
    'lines: for line in site.instance.period_rules() {
        if !names(line, exam) {
            continue;
        }
        push_some(found, broken_after(line, site.timetable))?;
    }
    Ok(())
}

fn names(line: &PeriodRule, exam: ExamNo) -> bool
    ensures { result ≡ line_names line.now exam }
{
    let (first, second) = match line {
        PeriodRule::After(a, b) => (*a, *b),
        PeriodRule::Coincidence(a, b) => (*a, *b),
        PeriodRule::Exclusion(a, b) => (*a, *b),
    };
    exam == first || exam == second
}

/// Adds the broken `Coincidence` lines that name the exam.
pub(crate) fn push_coincidences(
    found: &mut Vec<ExamPair>,
    exam: ExamNo,
    site: &Site,
) -> Result<(), AllocError>
    requires fits { Fits site.now.instance.now site.now.enrolments.now site.now.timetable.now }
    ensures { OnOk result ((e f : ℕ) → list_any (is_pair e f) found.new.items
        ≡ (list_any (is_pair e f) found.old.items || (is_one_of exam e f
        && breaks site.now.instance.now site.now.enrolments.now site.now.timetable.now
        Coincidence e f))) }
{
    'lines: for line in site.instance.period_rules() {
        if !names(line, exam) {
            continue;
        }
        push_some(
            found,
            broken_coincidence(line, site.enrolments, site.timetable),
        )?;
    }
    Ok(())
}

/// Adds the broken `Exclusion` lines that name the exam.
pub(crate) fn push_exclusions(
    found: &mut Vec<ExamPair>,
    exam: ExamNo,
    site: &Site,
) -> Result<(), AllocError>
    requires fits { Fits site.now.instance.now site.now.enrolments.now site.now.timetable.now }
    ensures { OnOk result ((e f : ℕ) → list_any (is_pair e f) found.new.items
        ≡ (list_any (is_pair e f) found.old.items || (is_one_of exam e f
        && breaks site.now.instance.now site.now.enrolments.now site.now.timetable.now
        Exclusion e f))) }
{
    'lines: for line in site.instance.period_rules() {
        if !names(line, exam) {
            continue;
        }
        push_some(found, broken_exclusion(line, site.timetable))?;
    }
    Ok(())
}
