// Front load: the largest exams are to come early.
ghost use Rattle.std.specs.Prelude.{◌≡◌, ◌≤◌, ◌<◌, ◌+◌, ◌*◌, ℕ, length, count_by, nat_lt, nat_le, IfOk, IfSome, Option};
ghost use Rattle.exam_terms.specs.declared.limits.TheConstants.{MAX_AMOUNT, MAX_EXAMS};
ghost use Rattle.exam_model.specs.Fits.{Suits};
ghost use Rattle.exam_model.specs.Sums.{count_below};
ghost use Rattle.exam_model.specs.Enrolments.{size_of};
ghost use Rattle.exam_score.specs.Front.{AreSizes, AreTies, IsBar, is_larger_by, front_by};
ghost use Rattle.exam_score.specs.FrontLoad.{front_part, is_late};

use exam_model::{Enrolments, ExamNo, Instance, Place, Timetable};
use std::alloc::{AllocError, Global};

// The size of the last of the n largest exams: larger ones are among these, smaller ones aren't.
#[derive(Clone, Copy)]
pub(crate) struct Bar {
    size: u32,
    // How many exams are larger.
    above: u32,
}

// Returns the weight for each of the largest exams in one of the last periods.
#[tactic(auto, using(crate::proofs::FrontLemmas::front_facts))]
pub(crate) fn front_load(
    alloc: Global,
    instance: &Instance,
    enrolments: &Enrolments,
    timetable: &Timetable,
) -> Result<u64, AllocError>
    requires fits { Suits instance.now timetable.now }
    requires exams { length enrolments.now ≡ length instance.now.exams }
    ensures part { IfOk result (λ n. n ≡ front_part instance.now enrolments.now timetable.now) }
    ensures small { IfOk result (λ n. n ≤ MAX_EXAMS * MAX_AMOUNT) }
{
    let sizes = sizes_of(alloc, enrolments)?;
    let bar = bar_of(alloc, &sizes, instance.weights().front_exams)?;
    let mut total = 0;
    let mut ties = 0;
    for exam in 0..enrolments.exams() {
        let exam = ExamNo::new(exam);
        total += share_by(instance, &sizes, bar, ties, exam, timetable.get(exam));
        ties += tie(&sizes, bar, exam);
    }
    Ok(total)
}

/// Returns the share of one exam in the front load, if it has this place, by the number of each
/// exam's students.
pub fn front_share(instance: &Instance, sizes: &[u32], exam: ExamNo, place: Option<Place>) -> u64
    requires few { length sizes.now ≤ MAX_EXAMS }
    requires exists { exam < length sizes.now }
    ensures share { result ≡ front_by instance.now sizes.now place exam }
    ensures small { result ≤ MAX_AMOUNT }
{
    share_by(instance, sizes, None, 0, exam, place)
}

// Returns the same by a bar and the number of exams of its size before this one, which saves
// counting the larger exams if they are known.
fn share_by(
    instance: &Instance,
    sizes: &[u32],
    bar: Option<Bar>,
    ties: u32,
    exam: ExamNo,
    place: Option<Place>,
) -> u64
    requires few { length sizes.now ≤ MAX_EXAMS }
    requires exists { exam < length sizes.now }
    requires bar { IfSome bar (IsBar sizes.now instance.now.weights.front_exams) }
    requires ties { AreTies sizes.now bar ties exam }
    ensures share { result ≡ front_by instance.now sizes.now place exam }
    ensures small { result ≤ MAX_AMOUNT }
{
    let weights = instance.weights();
    let most = weights.front_exams;
    if is_late(instance, place) && is_largest_by(sizes, bar, ties, exam.get(), most) {
        u64::from(weights.front)
    } else {
        0
    }
}

// Returns whether the place is in one of the last periods.
fn is_late(instance: &Instance, place: Option<Place>) -> bool
    ensures { result ≡ is_late instance.now place }
{
    match place {
        Some(place) => {
            let after = u64::from(place.period.get()) + u64::from(instance.weights().front_periods);
            u64::from(instance.periods()) <= after
        }
        None => false,
    }
}

// Returns 1 if the exam is of the bar's size, else 0.
fn tie(sizes: &[u32], bar: Option<Bar>, exam: ExamNo) -> u32
    requires exists { exam < length sizes.now }
    ensures more { (ties : ℕ) → AreTies sizes.now bar ties exam
        → AreTies sizes.now bar (ties + result) (exam + 1) }
    ensures small { result ≤ 1 }
{
    match bar {
        Some(bar) => u32::from(sizes[exam.get() as usize] == bar.size),
        None => 0,
    }
}

// Returns the bar of the n largest exams, if there is one.
fn bar_of(alloc: Global, sizes: &[u32], most: u32) -> Result<Option<Bar>, AllocError>
    requires few { length sizes.now ≤ MAX_EXAMS }
    ensures { IfOk result (λ bar. IfSome bar (IsBar sizes.now most)) }
{
    let mut reordered = sizes.to_vec(alloc)?;
    let at = sizes.len().saturating_sub(most as usize);
    if at >= sizes.len() {
        return Ok(None);
    }
    let (_, bar, _) = reordered.select_nth_unstable(at);
    Ok(if_bar(sizes, *bar, most))
}

// Returns a bar of this size, if it is one.
fn if_bar(sizes: &[u32], size: u32, most: u32) -> Option<Bar>
    requires few { length sizes.now ≤ MAX_EXAMS }
    ensures { IfSome result (IsBar sizes.now most) }
{
    let above = count_larger(sizes, size);
    let reached = count_not_smaller(sizes, size);
    if above <= most && most <= reached {
        Some(Bar { size, above })
    } else {
        None
    }
}

// Returns whether fewer than n exams come before this one. They are counted only if no bar is
// known.
fn is_largest_by(sizes: &[u32], bar: Option<Bar>, ties: u32, exam: u32, most: u32) -> bool
    requires few { length sizes.now ≤ MAX_EXAMS }
    requires exists { exam < length sizes.now }
    requires bar { IfSome bar (IsBar sizes.now most) }
    requires ties { AreTies sizes.now bar ties exam }
    ensures { result
        ≡ nat_lt (count_below (length sizes.now) (λ f. is_larger_by sizes.now f exam)) most }
{
    let Some(bar) = bar else {
        return is_largest(sizes, exam, most);
    };
    let size = sizes[exam as usize];
    if bar.size < size {
        return true;
    }
    if size < bar.size {
        return false;
    }
    bar.above + ties < most
}

// Returns whether fewer than n exams come before this one: the greater first, and then the smaller
// number.
fn is_largest(sizes: &[u32], exam: u32, most: u32) -> bool
    requires few { length sizes.now ≤ MAX_EXAMS }
    requires exists { exam < length sizes.now }
    ensures { result
        ≡ nat_lt (count_below (length sizes.now) (λ f. is_larger_by sizes.now f exam)) most }
{
    let size = sizes[exam as usize];
    let (before, after) = sizes.split_at(exam as usize);
    count_not_smaller(before, size) + count_larger(after, size) < most
}

fn count_not_smaller(sizes: &[u32], size: u32) -> u32
    requires few { length sizes.now ≤ MAX_EXAMS }
    ensures count { result ≡ count_by (λ x. nat_le size x) sizes.now }
    ensures small { result ≤ length sizes.now }
{
    let mut count = 0;
    for other in sizes {
        count += u32::from(size <= *other);
    }
    count
}

fn count_larger(sizes: &[u32], size: u32) -> u32
    requires few { length sizes.now ≤ MAX_EXAMS }
    ensures count { result ≡ count_by (λ x. nat_lt size x) sizes.now }
    ensures small { result ≤ length sizes.now }
{
    let mut count = 0;
    for other in sizes {
        count += u32::from(size < *other);
    }
    count
}

/// Returns the number of each exam's students.
pub fn sizes_of(alloc: Global, enrolments: &Enrolments) -> Result<Vec<u32>, AllocError>
    ensures { IfOk result (λ sizes. AreSizes enrolments.now sizes.items) }
{
    let mut sizes = Vec::with_capacity(alloc, enrolments.exams() as usize)?;
    for exam in 0..enrolments.exams() {
        sizes.push(enrolments.size(ExamNo::new(exam)))?;
    }
    Ok(sizes)
}
