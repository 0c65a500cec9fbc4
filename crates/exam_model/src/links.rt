// The enrolments in earlier exams, by slots of students: a student's exams are found without a
// search.
ghost use Rattle.std.specs.Prelude.{◌≡◌, ℕ, [], ◌∷◌, ◌+◌, ◌++◌, ◌<◌, ◌≤◌, All, IfOk, OnOk, count_by, length, map, slice_index, if◌then◌else◌};
ghost use Rattle.exam_terms.specs.declared.limits.TheConstants.{MAX_PAIRS};
ghost use Rattle.exam_model.specs.Links.{AreLinked, is_link, pair_at, slot_of};
ghost use Rattle.exam_model.specs.Pairs.{pairs_at};
ghost use Rattle.exam_model.specs.Sitters.{is_sitter};

use crate::sitter::Sitter;
use exam_terms::{ExamNo, StudentNo};
use std::alloc::{AllocError, Global};

// A student's enrolment in an exam, and the one before it in its slot.
#[derive(Clone, Copy)]
pub(crate) struct Link {
    pub sitter: Sitter,
    // One more than the index of the previous link in the slot; 0 for the first.
    pub before: u32,
}

// Enrolments, and for each slot one more than the index of its last link, or 0.
#[derive(Drop)]
pub(crate) struct Links {
    pub list: Vec<Link>,
    pub last: Vec<u32>,
}

impl Links {
    // Returns no links, with a slot for about two of this many enrolments: an odd number of slots,
    // so that numbers with a common step spread over them.
    pub(crate) fn new(alloc: Global, pairs: u32) -> Result<Links, AllocError>
        ensures none { IfOk result (λ made. made.list.items ≡ []) }
        ensures linked { IfOk result (λ made. AreLinked made.list.items made.last.items) }
    {
        let slots = pairs as usize / 4 * 2 + 1;
        let list = Vec::with_capacity(alloc, pairs as usize)?;
        let last = vec![in alloc; 0; slots]?;
        Ok(Links { list, last })
    }

    // Counts each exam of a student, and returns how many links it read.
    pub(crate) fn count_exams(&self, counts: &mut [u32], student: StudentNo) -> u32
        requires linked { AreLinked self.now.list.items self.now.last.items }
        requires exist { All (λ x. x.sitter.exam < length counts.old) self.now.list.items }
        requires once { (e : ℕ) → e < length counts.old
            → count_by (is_link student e) self.now.list.items ≤ 1 }
        requires room { (e : ℕ) → e < length counts.old
            → slice_index counts.old e < MAX_PAIRS }
        ensures { (e : ℕ) → e < length counts.old → slice_index counts.new e
            ≡ slice_index counts.old e + count_by (is_link student e) self.now.list.items }
    {
        let last = self.last[slot_of(&self.last, student)];
        let mut next = last;
        let mut steps = 0;
        while next != 0 {
            let link = self.list[next as usize - 1];
            count_if_own(counts, link.sitter, student);
            steps += 1;
            next = link.before;
        }
        steps
    }

    // Adds the enrolments of these students in one exam.
    pub(crate) fn add(&mut self, students: &[StudentNo], exam: ExamNo) -> Result<(), AllocError>
        requires linked { AreLinked self.old.list.items self.old.last.items }
        requires few { length self.old.list.items + length students.now ≤ MAX_PAIRS }
        ensures linked { OnOk result (AreLinked self.new.list.items self.new.last.items) }
        ensures pairs { OnOk result (map pair_at self.new.list.items
            ≡ map pair_at self.old.list.items ++ pairs_at exam students.now) }
    {
        for student in students {
            self.add_one(*student, exam)?;
        }
        Ok(())
    }

    fn add_one(&mut self, student: StudentNo, exam: ExamNo) -> Result<(), AllocError>
        requires linked { AreLinked self.old.list.items self.old.last.items }
        requires few { length self.old.list.items < MAX_PAIRS }
        ensures linked { OnOk result (AreLinked self.new.list.items self.new.last.items) }
        ensures pairs { OnOk result (map pair_at self.new.list.items
            ≡ map pair_at self.old.list.items ++ pairs_at exam (student ∷ [])) }
    {
        let slot = slot_of(&self.last, student);
        let before = self.last[slot];
        let sitter = Sitter { student, exam };
        self.list.push(Link { sitter, before })?;
        self.last[slot] = self.list.len() as u32;
        Ok(())
    }
}

// Counts a sitter's exam if they are this student.
fn count_if_own(counts: &mut [u32], sitter: Sitter, student: StudentNo)
    requires exists { sitter.exam < length counts.old }
    requires room { slice_index counts.old sitter.exam ≤ MAX_PAIRS }
    ensures { (e : ℕ) → e < length counts.old → slice_index counts.new e
        ≡ slice_index counts.old e + (if is_sitter student e sitter then 1 else 0) }
{
    if sitter.student == student {
        let exam = sitter.exam.get() as usize;
        counts[exam] += 1;
    }
}

fn slot_of(last: &[u32], student: StudentNo) -> usize
    requires some { 0 < length last.now }
    ensures slot { result ≡ slot_of (length last.now) student }
    ensures exists { result < length last.now }
{
    student.get() as usize % last.len()
}
