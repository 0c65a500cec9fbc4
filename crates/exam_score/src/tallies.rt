// The number of exams of each student in each period.
ghost use Rattle.std.specs.Prelude.{◌≡◌, ℕ, ◌+◌, ◌-◌, ◌*◌, ◌≤◌, ◌<◌, ◌↔◌, ◌⊎◌, IsTrue, length, slice_index, slice_index_or, slice_set, sum_by, All, AllPairs, IfOk, OnOk};
ghost use Rattle.exam_terms.specs.declared.limits.TheConstants.{MAX_PAIRS};
ghost use Rattle.exam_model.specs.Enrolments.{size_of};
ghost use Rattle.exam_score.specs.Rows.{row_at};
ghost use Rattle.exam_score.specs.Tallies.{tally_sum, AreCounted};
ghost use Rattle.exam_score.specs.TallyLinks.{bucket_of_student, AreCrowded, AreFiled, AreLinked, Grows, Extends};
ghost use Rattle.exam_score.specs.declared.rows.Row.{Row};

use crate::sittings::PlacedExam;
use exam_model::{Enrolments, PeriodNo, StudentNo};
use std::alloc::{AllocError, Global};

// How many larger numbers of buckets to try if too many students share a bucket. Student numbers
// have nine digits, so two of them share a bucket under at most two of that many numbers in a row.
const MORE: u32 = 31;

// The buckets are not crowded if there are at most this many steps back along them.
const FEW_STEPS: u64 = 30_000_000;

// A number of exams of one student in one period.
#[derive(Clone, Copy)]
pub(crate) struct Tally {
    pub student: StudentNo,
    pub period: PeriodNo,
    pub exams: u32,
    // One more than the index of the previous tally in its bucket; 0 for the first.
    pub before: u32,
}

// The tallies, and how many steps back along their buckets there are.
#[derive(Drop)]
struct Filing {
    tallies: Vec<Tally>,
    steps: u64,
}

// How many tallies each bucket has, and how many steps back along the buckets there are.
#[derive(Drop)]
struct Crowd {
    sizes: Vec<u32>,
    steps: u64,
}

// Returns the tallies of all students of the sittings, the periods ascending.
pub(crate) fn tallies_of(
    alloc: Global,
    enrolments: &Enrolments,
    sittings: &[PlacedExam],
) -> Result<Vec<Tally>, AllocError>
    requires exist { All (λ x. x.exam < length enrolments.now) sittings.now }
    requires few { sum_by (λ x. size_of enrolments.now x.exam) sittings.now ≤ MAX_PAIRS }
    requires ascending { AllPairs (λ x y. x.period ≤ y.period) sittings.now }
    ensures counted { IfOk result (λ tallies.
        AreCounted enrolments.now sittings.now tallies.items) }
    ensures linked { IfOk result (λ tallies. AreLinked tallies.items) }
{
    let buckets = buckets_for(enrolments.pairs());
    let mut best = file_all(alloc, enrolments, sittings, buckets)?;
    for more in 0..MORE {
        if best.steps > FEW_STEPS {
            let other = file_all(alloc, enrolments, sittings, buckets + 1 + more)?;
            if other.steps < best.steps {
                best = other;
            }
        }
    }
    Ok(best.tallies)
}

// Returns the number of buckets, about one for four pairs: a prime, so that numbers with a common
// step spread over all of them.
fn buckets_for(pairs: u32) -> u32
    ensures some { 0 < result }
    ensures few { result ≤ 65521 }
{
    match pairs {
        0..=10_000 => 2_039,
        10_001..=40_000 => 8_191,
        40_001..=160_000 => 32_749,
        _ => 65_521,
    }
}

// Returns the tallies, filed in this many buckets.
fn file_all(
    alloc: Global,
    enrolments: &Enrolments,
    sittings: &[PlacedExam],
    buckets: u32,
) -> Result<Filing, AllocError>
    requires some { 0 < buckets }
    requires exist { All (λ x. x.exam < length enrolments.now) sittings.now }
    requires few { sum_by (λ x. size_of enrolments.now x.exam) sittings.now ≤ MAX_PAIRS }
    requires ascending { AllPairs (λ x y. x.period ≤ y.period) sittings.now }
    ensures counted { IfOk result (λ filing.
        AreCounted enrolments.now sittings.now filing.tallies.items) }
    ensures linked { IfOk result (λ filing. AreLinked filing.tallies.items) }
{
    let mut tallies = Vec::with_capacity(alloc, enrolments.pairs() as usize)?;
    let mut last = no_tallies(alloc, buckets as usize)?;
    let sizes = no_tallies(alloc, buckets as usize)?;
    let mut crowd = Crowd { sizes, steps: 0 };
    let mut start = 0;
    for sitting in sittings {
        start = start_of(&tallies, sitting.period, start);
        let students = enrolments.students(sitting.exam);
        count_students(
            &mut tallies,
            &mut last,
            &mut crowd,
            students,
            sitting.period,
            start,
            buckets,
        )?;
    }
    let steps = crowd.steps;
    Ok(Filing { tallies, steps })
}

// Returns the last tallies of buckets that have none.
fn no_tallies(alloc: Global, buckets: usize) -> Result<Vec<u32>, AllocError>
    ensures long { IfOk result (λ last. length last.items ≡ buckets) }
    ensures zero { IfOk result (λ last. (bucket : ℕ) → bucket < length last.items
        → slice_index last.items bucket ≡ 0) }
{
    vec![in alloc; 0; buckets]
}

// Returns the start of a period's tallies: the old start if the last tally is of this period, else
// the end.
fn start_of(tallies: &[Tally], period: PeriodNo, start: usize) -> usize
    ensures { (result ≡ start) ⊎ (result ≡ length tallies.now) }
{
    match tallies.last() {
        Some(tally) if tally.period == period => start,
        _ => tallies.len(),
    }
}

// Counts an exam for each of its students. The tallies of its period start at an index.
fn count_students(
    tallies: &mut Vec<Tally>,
    last: &mut Vec<u32>,
    crowd: &mut Crowd,
    students: &[StudentNo],
    period: PeriodNo,
    start: usize,
    buckets: u32,
) -> Result<(), AllocError>
    requires some { 0 < buckets }
    requires filed { AreFiled tallies.old.items last.old.items buckets }
    requires crowded { AreCrowded crowd.old.sizes.items crowd.old.steps buckets
        (length tallies.old.items) }
    requires few { length tallies.old.items + length students.now ≤ MAX_PAIRS }
    requires not_later { All (λ x. x.period ≤ period) tallies.old.items }
    ensures counted { OnOk result ((f : Row → ℕ) → sum_by (tally_sum f) tallies.new.items
        ≡ sum_by (tally_sum f) tallies.old.items
        + sum_by (λ s. f (row_at period s)) students.now) }
    ensures filed { OnOk result (AreFiled tallies.new.items last.new.items buckets) }
    ensures crowded { OnOk result (AreCrowded crowd.new.sizes.items crowd.new.steps buckets
        (length tallies.new.items)) }
    ensures grown { OnOk result
        (Grows tallies.old.items tallies.new.items period (length students.now)) }
{
    for student in students {
        count_one(tallies, last, crowd, *student, period, start, buckets)?;
    }
    Ok(())
}

// Counts an exam for one student.
fn count_one(
    tallies: &mut Vec<Tally>,
    last: &mut Vec<u32>,
    crowd: &mut Crowd,
    student: StudentNo,
    period: PeriodNo,
    start: usize,
    buckets: u32,
) -> Result<(), AllocError>
    requires some { 0 < buckets }
    requires filed { AreFiled tallies.old.items last.old.items buckets }
    requires crowded { AreCrowded crowd.old.sizes.items crowd.old.steps buckets
        (length tallies.old.items) }
    requires few { length tallies.old.items < MAX_PAIRS }
    requires not_later { All (λ x. x.period ≤ period) tallies.old.items }
    ensures counted { OnOk result ((f : Row → ℕ) → sum_by (tally_sum f) tallies.new.items
        ≡ sum_by (tally_sum f) tallies.old.items + f (row_at period student)) }
    ensures filed { OnOk result (AreFiled tallies.new.items last.new.items buckets) }
    ensures crowded { OnOk result (AreCrowded crowd.new.sizes.items crowd.new.steps buckets
        (length tallies.new.items)) }
    ensures grown { OnOk result (Grows tallies.old.items tallies.new.items period 1) }
{
    let bucket = bucket_of_student(student, buckets);
    let before = last[bucket];
    if extends(tallies, before, start, student, period) {
        let at = before as usize - 1;
        let tally = tallies[at];
        let exams = tally.exams + 1;
        tallies[at] = Tally { exams, ..tally };
        return Ok(());
    }
    tallies.push(Tally {
        student,
        period,
        exams: 1,
        before,
    })?;
    last[bucket] = tallies.len() as u32;
    note(crowd, bucket);
    Ok(())
}

// Counts a new tally in this bucket, and the steps from it to those before it.
fn note(crowd: &mut Crowd, bucket: usize)
    requires exists { bucket < length crowd.old.sizes.items }
    requires few { slice_index crowd.old.sizes.items bucket < MAX_PAIRS }
    requires few_steps { crowd.old.steps ≤ MAX_PAIRS * MAX_PAIRS }
    ensures sizes { crowd.new.sizes.items ≡ slice_set crowd.old.sizes.items bucket
        (slice_index crowd.old.sizes.items bucket + 1) }
    ensures steps { crowd.new.steps
        ≡ crowd.old.steps + slice_index crowd.old.sizes.items bucket }
{
    let size = crowd.sizes[bucket];
    crowd.steps += u64::from(size);
    crowd.sizes[bucket] = size + 1;
}

fn bucket_of_student(student: StudentNo, buckets: u32) -> usize
    requires some { 0 < buckets }
    ensures bucket { result ≡ bucket_of_student buckets student }
    ensures exists { result < buckets }
{
    (student.get() % buckets) as usize
}

// Returns whether the tally before this index is of that student and period, and not full. Only
// tallies from the start on are looked at.
fn extends(
    tallies: &[Tally],
    before: u32,
    start: usize,
    student: StudentNo,
    period: PeriodNo,
) -> bool
    requires within { before ≤ length tallies.now }
    ensures { IsTrue result
        ↔ ((start < before) × Extends tallies.now before student period) }
{
    if before as usize <= start {
        return false;
    }
    let tally = tallies[before as usize - 1];
    tally.student == student && tally.period == period && tally.exams < u32::MAX
}
