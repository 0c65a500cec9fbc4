// The pairs of exams that share students, counted once for all timetables of a session.
ghost use Rattle.std.specs.Prelude.{◌≡◌, ℕ, [], ◌++◌, ◌<◌, ◌≤◌, All, OnOk, IfOk, IfSome, IsTrue, count_by, length, map, slice_index, sum_by, take};
ghost use Rattle.exam_terms.specs.declared.limits.TheConstants.{MAX_PAIRS};
ghost use Rattle.exam_model.specs.Conflicts.{AreShared, AreZeros, conflicts_of, conflicts_with};
ghost use Rattle.exam_model.specs.Enrolments.{AreEnrolments, Enrolled};
ghost use Rattle.exam_model.specs.Links.{AreLinked, is_link, pair_at};
ghost use Rattle.exam_model.specs.Pairs.{pairs_of};

use crate::links::Links;
use crate::roll::Roll;
use exam_terms::{ExamNo, StudentNo};
use std::alloc::{AllocError, Global};

// If counting has read more links than this for each enrolment, conflicts are not listed: that
// could take longer than it saves.
const MOST_STEPS: u64 = 16;

/// Two exams that share students, the smaller first, and how many students they share.
#[derive(Clone, Copy, Debug, PartialEq, Eq)]
pub struct Conflict {
    pub exam: ExamNo,
    pub other: ExamNo,
    pub students: u32,
}

// Returns the conflicts of exams with these students, by the greater exam and then by the smaller
// one. `None`: students have so many exams that counting takes long.
pub(crate) fn conflicts_of(
    alloc: Global,
    rolls: &[Roll],
    pairs: u32,
) -> Result<Option<Vec<Conflict>>, AllocError>
    requires kept { AreEnrolments rolls.now }
    ensures { IfOk result (λ list. IfSome list (λ found. found.items ≡ conflicts_of rolls.now)) }
{
    let mut found = Vec::new(alloc);
    let mut links = Links::new(alloc, pairs)?;
    let mut counts = vec![in alloc; 0; rolls.len()]?;
    if add_all(&mut found, &mut links, &mut counts, rolls)? {
        Ok(Some(found))
    } else {
        Ok(None)
    }
}

// Adds all conflicts, unless counting takes long: then it returns false.
fn add_all(
    found: &mut Vec<Conflict>,
    links: &mut Links,
    counts: &mut [u32],
    rolls: &[Roll],
) -> Result<bool, AllocError>
    requires kept { AreEnrolments rolls.now }
    requires empty { found.old.items ≡ [] }
    requires no_links { links.old.list.items ≡ [] }
    requires linked { AreLinked links.old.list.items links.old.last.items }
    requires zero { AreZeros counts.old }
    requires count { length counts.old ≡ length rolls.now }
    ensures { IfOk result (λ done. IsTrue done → found.new.items ≡ conflicts_of rolls.now) }
{
    let mut steps = 0u64;
    for other in 0..rolls.len() {
        let exam = ExamNo::new(other as u32);
        let Some(more) = count_shared(counts, rolls, links, other, steps) else {
            return Ok(false);
        };
        steps = more;
        take_conflicts(found, counts, exam)?;
        links.add(rolls[other].as_slice(), exam)?;
    }
    Ok(true)
}

// Counts from 0 how many students each smaller exam shares with this one. Returns how many links
// were read by then. `None`: too many.
fn count_shared(
    counts: &mut [u32],
    rolls: &[Roll],
    links: &Links,
    other: usize,
    steps: u64,
) -> Option<u64>
    requires kept { AreEnrolments rolls.now }
    requires exists { other < length rolls.now }
    requires linked { AreLinked links.now.list.items links.now.last.items }
    requires pairs { map pair_at links.now.list.items ≡ pairs_of (take other rolls.now) }
    requires zero { AreZeros counts.old }
    requires count { length counts.old ≡ length rolls.now }
    ensures { IfSome result (λ steps. AreShared rolls.now other counts.new) }
{
    let read = count_all(counts, links, rolls[other].as_slice(), steps)?;
    Some(read)
}

// Counts each exam of these students, from 0. Returns how many links were read by then. `None`: too
// many.
fn count_all(counts: &mut [u32], links: &Links, students: &[StudentNo], steps: u64) -> Option<u64>
    requires zero { AreZeros counts.old }
    requires linked { AreLinked links.now.list.items links.now.last.items }
    requires exist { All (λ x. x.sitter.exam < length counts.old) links.now.list.items }
    requires once { (s e : ℕ) → e < length counts.old
        → count_by (is_link s e) links.now.list.items ≤ 1 }
    requires few_students { length students.now ≤ MAX_PAIRS }
    ensures { IfSome result (λ steps. (e : ℕ) → e < length counts.old → slice_index counts.new e
        ≡ sum_by (λ s. count_by (is_link s e) links.now.list.items) students.now) }
{
    let most = MOST_STEPS.saturating_mul(links.list.len() as u64);
    let mut steps = steps;
    for student in students {
        let more = links.count_exams(counts, *student);
        steps = steps.saturating_add(u64::from(more));
        if steps > most {
            return None;
        }
    }
    Some(steps)
}

// Adds the conflicts of an exam with smaller ones, and sets the counts back to 0.
fn take_conflicts(
    found: &mut Vec<Conflict>,
    counts: &mut [u32],
    other: ExamNo,
) -> Result<(), AllocError>
    requires count { other ≤ length counts.old }
    ensures found { (E : Enrolled) → AreShared E other counts.old → OnOk result (found.new.items
        ≡ found.old.items ++ conflicts_with E other other) }
    ensures zero { (E : Enrolled) → AreShared E other counts.old
        → OnOk result (AreZeros counts.new) }
{
    for exam in 0..other.get() {
        let students = counts[exam as usize];
        if students != 0 {
            counts[exam as usize] = 0;
            let exam = ExamNo::new(exam);
            found.push(Conflict {
                exam,
                other,
                students,
            })?;
        }
    }
    Ok(())
}
