// Marks for students, which rule out most pairs of exams of a period without reading their lists.
ghost use Rattle.std.specs.Prelude.{◌≡◌, ℕ, true, ◌%◌, ◌<◌, ◌==◌, length, replicate, IfOk};
ghost use Rattle.std.specs.Int.{bit_at};
ghost use Rattle.exam_model.specs.Enrolments.{has_number};
ghost use Rattle.exam_rules.specs.Marks.{marks_of, slot_of, Has};

use exam_model::{ExamNo, StudentNo};
use std::alloc::{AllocError, Global};
use std::marker::Model;

// 64 bits mark exams, and a slot is shared by many students: so a mark may also be another exam's
// or another student's, but none is missing.
#[derive(Drop)]
pub(crate) struct Marks {
    slots: Vec<u64>,
}

impl Model for Marks {
    ghost use Rattle.std.specs.Prelude.{◌<◌, ℕ, List, length};

    ghost Value = { List ℕ };

    ghost view = { λ a. a.slots.items };

    ghost invariant = { λ a. 0 < length a.slots.items };
}

impl Marks {
    /// Returns no marks, for the students of this many enrolments.
    pub(crate) fn new(alloc: Global, pairs: u32) -> Result<Marks, AllocError>
        ensures { IfOk result (λ marks. marks ≡ replicate (length marks) 0) }
    {
        let slots = vec![in alloc; 0u64; slots_for(pairs)]?;
        Ok(Marks { slots })
    }

    pub(crate) fn add(&mut self, students: &[StudentNo], exam: ExamNo)
        ensures marked { (s : ℕ) → has_number students.now s ≡ true
            → Has (marks_of self.new s) exam }
        ensures kept { (s e : ℕ) → Has (marks_of self.old s) e → Has (marks_of self.new s) e }
    {
        let bit = 1u64 << (exam.get() % 64);
        'students: for student in students {
            let slot = slot_in(&self.slots, *student);
            let marks = self.slots[slot] | bit;
            self.slots[slot] = marks;
        }
    }

    /// Returns the exams that are marked for one of these students.
    pub(crate) fn of(&self, students: &[StudentNo]) -> u64
        ensures { (s e : ℕ) → has_number students.now s ≡ true
            → Has (marks_of self.now s) e → Has result e }
    {
        let mut all = 0u64;
        'students: for student in students {
            let slot = slot_in(&self.slots, *student);
            all |= self.slots[slot];
        }
        all
    }

    /// Returns the exams that are marked for a student, or for another one of the same slot.
    #[inline(always)]
    pub(crate) fn of_student(&self, student: StudentNo) -> u64
        ensures { result ≡ marks_of self.now student }
    {
        self.slots[slot_in(&self.slots, student)]
    }

    /// Deletes all marks of these students, so that the next period begins with few.
    pub(crate) fn clear(&mut self, students: &[StudentNo])
        ensures cleared { (s : ℕ) → has_number students.now s ≡ true → marks_of self.new s ≡ 0 }
        ensures kept { (s : ℕ) → marks_of self.old s ≡ 0 → marks_of self.new s ≡ 0 }
    {
        'students: for student in students {
            let slot = slot_in(&self.slots, *student);
            self.slots[slot] = 0;
        }
    }
}

// Returns a power of two, with one slot for at most four enrolments up to 131,072 of them: so few
// students of one period share a slot, and a small session takes little memory.
fn slots_for(pairs: u32) -> usize
    ensures { 0 < result }
{
    match pairs {
        0..=8_192 => 2_048,
        8_193..=16_384 => 4_096,
        16_385..=32_768 => 8_192,
        32_769..=65_536 => 16_384,
        65_537..=131_072 => 32_768,
        _ => 65_536,
    }
}

// Returns the slot of a student, by the last bits of their number.
#[inline(always)]
fn slot_in(slots: &[u64], student: StudentNo) -> usize
    requires some { 0 < length slots.now }
    ensures slot { result ≡ slot_of (length slots.now) student }
    ensures exists { result < length slots.now }
{
    student.get() as usize & (slots.len() - 1)
}

/// Returns whether the exam is among the marked ones.
pub(crate) fn has(marks: u64, exam: ExamNo) -> bool
    ensures { result ≡ (bit_at marks (exam % 64) == 1) }
{
    (marks >> (exam.get() % 64)) & 1 == 1
}
