// Which student sits which exam: contracts see each exam's students, ascending.
ghost use Rattle.std.specs.Prelude.{◌≡◌, ◌<◌, ◌≤◌, [], not, length, slice_set, IfOk, IfErr, IfSome, OnOk, OnErr};
ghost use Rattle.exam_terms.specs.declared.limits.TheConstants.{MAX_EXAMS};
ghost use Rattle.exam_model.specs.Changes.{with_pair, without_pair};
ghost use Rattle.exam_model.specs.Conflicts.{conflicts_of};
ghost use Rattle.exam_model.specs.Enrolments.{Enrolled, AreEnrolments, IsAscending, Adds, Removes, RefusesPair, RefusesAll, students, has, size_of, shared_students, pair_count, no_pairs};

use crate::conflicts::{Conflict, conflicts_of};
use crate::fault::ModelFault;
use crate::roll::Roll;
use exam_terms::limits::MAX_PAIRS;
use exam_terms::{ExamNo, StudentNo};
use std::alloc::{AllocError, Global};
use std::marker::Model;

/// A set of pairs of a student and an exam, at most 200,000, for 1 to 2,000 exams.
#[derive(Debug, Drop)]
pub struct Enrolments {
    rolls: Vec<Roll>,
    pairs: u32,
    // `None`: not listed since the last change.
    conflicts: Option<Vec<Conflict>>,
}

impl Model for Enrolments {
    ghost Value = { Enrolled };

    ghost view = { λ a. a.rolls.items };

    ghost invariant = { λ a. (AreEnrolments a.rolls.items × (a.pairs ≡ pair_count a.rolls.items))
        × IfSome a.conflicts (λ list. list.items ≡ conflicts_of a.rolls.items) };
}

impl Enrolments {
    /// Returns the empty set of pairs, for this many exams. `Err` is only `NoMemory`.
    pub fn new(alloc: Global, exams: u32) -> Result<Enrolments, ModelFault>
        requires at_least { 1 ≤ exams }
        requires at_most { exams ≤ MAX_EXAMS }
        ensures empty { IfOk result (λ made. made ≡ no_pairs exams) }
        ensures kept { IfOk result AreEnrolments }
        ensures memory { IfErr result (λ fault. fault ≡ ModelFault.NoMemory) }
    {
        let mut rolls: Vec<Roll> = Vec::new(alloc);
        'rolls: for _ in 0..exams {
            rolls
                .push(Roll::new(alloc))
                .map_err(|_| ModelFault::NoMemory)?;
        }
        Ok(Enrolments {
            rolls,
            pairs: 0,
            conflicts: None,
        })
    }

    /// Returns a copy with the same pairs, whose conflicts are not listed.
    pub fn copy(&self, alloc: Global) -> Result<Enrolments, AllocError>
        ensures same { IfOk result (λ made. made ≡ self.now) }
        ensures kept { IfOk result AreEnrolments }
    {
        let mut copies: Vec<Roll> = Vec::new(alloc);
        'rolls: for roll in &self.rolls {
            copies.push(roll.copy(alloc)?)?;
        }
        Ok(Enrolments {
            rolls: copies,
            pairs: self.pairs,
            conflicts: None,
        })
    }

    /// Returns how many exams there are, as passed to `new`.
    pub fn exams(&self) -> u32
        ensures count { result ≡ length self.now }
        ensures kept { AreEnrolments self.now }
    {
        self.rolls.len() as u32
    }

    /// Returns how many pairs there are.
    pub fn pairs(&self) -> u32
        ensures count { result ≡ pair_count self.now }
        ensures kept { AreEnrolments self.now }
    {
        self.pairs // counted by `add`
    }

    /// States what holds of all enrolments, for a proof: the students of each exam ascend, and there
    /// are at most 200,000 pairs. It does nothing.
    pub fn lemma_order(&self)
        ensures { AreEnrolments self.now }
    {
        let _ = &self.rolls; // its invariant
    }

    /// Returns the students of an exam, ascending.
    pub fn students(&self, exam: ExamNo) -> &[StudentNo]
        requires exists { exam < length self.now }
        ensures all { result.now ≡ students self.now exam }
        ensures ascending { IsAscending result.now }
    {
        self.rolls[exam.get() as usize].as_slice()
    }

    /// Returns whether the student sits the exam.
    pub fn has(&self, student: StudentNo, exam: ExamNo) -> bool
        requires exists { exam < length self.now }
        ensures { result ≡ has self.now student exam }
    {
        self.rolls[exam.get() as usize].has(student)
    }

    /// Returns how many students sit the exam.
    #[tactic(auto, using(crate::proofs::EnrolmentLemmas::size_facts))]
    pub fn size(&self, exam: ExamNo) -> u32
        requires exists { exam < length self.now }
        ensures size { result ≡ size_of self.now exam }
        ensures within { result ≤ pair_count self.now }
    {
        self.lemma_order();
        self.students(exam).len() as u32
    }

    /// Returns how many students sit both exams.
    #[tactic(auto, using(crate::proofs::EnrolmentLemmas::size_facts))]
    pub fn shared(&self, exam: ExamNo, other: ExamNo) -> u32
        requires exists { exam < length self.now }
        requires other_exists { other < length self.now }
        ensures shared { result ≡ shared_students self.now exam other }
        ensures within { result ≤ size_of self.now exam }
    {
        self.lemma_order();
        let second = &self.rolls[other.get() as usize];
        let both = self
            .students(exam)
            .iter()
            .filter(|student| second.has(**student))
            .count();
        both as u32
    }

    /// Lists the conflicts of the exams, if they aren't listed and students don't have so many
    /// exams that this takes long: then timetables are judged faster, until the next change. `Err`:
    /// out of memory.
    pub fn list_conflicts(&mut self, alloc: Global) -> Result<(), AllocError>
        ensures same { self.new ≡ self.old }
        ensures kept { AreEnrolments self.new }
    {
        if self.conflicts.is_none() {
            self.conflicts = conflicts_of(alloc, &self.rolls, self.pairs)?;
        }
        Ok(())
    }

    /// Returns the pairs of exams that share students, by the greater exam and then by the smaller
    /// one, if they are listed.
    pub fn conflicts(&self) -> Option<&[Conflict]>
        ensures { IfSome result (λ list. list.now ≡ conflicts_of self.now) }
    {
        match &self.conflicts {
            Some(list) => Some(list),
            None => None,
        }
    }

    /// Adds a pair, and returns whether it is new. `NoSuch`: there is no such exam; then `Range`:
    /// the pair is new and there are 200,000; then `NoMemory`. Adding moves all greater students of
    /// the exam, so it is fast if they come in ascending order.
    pub fn add(&mut self, student: StudentNo, exam: ExamNo) -> Result<bool, ModelFault>
        ensures fresh { IfOk result (λ fresh. fresh ≡ not (has self.old student exam)) }
        ensures exists { OnOk result (exam < length self.old) }
        ensures ok { OnOk result (Adds self.old self.new student exam) }
        ensures pair { OnOk result (self.new ≡ with_pair self.old student exam) }
        ensures err { OnErr result (self.new ≡ self.old) }
        ensures kept { AreEnrolments self.new }
        ensures refused { IfErr result (RefusesPair self.old student exam) }
    {
        student.lemma_limit();
        self.conflicts = None;
        let full = self.pairs >= MAX_PAIRS;
        let Some(roll) = self.rolls.get_mut(exam.get() as usize) else {
            return Err(ModelFault::NoSuch);
        };
        if full && !roll.has(student) {
            return Err(ModelFault::Range);
        }
        let fresh = roll.add(student)?;
        if fresh {
            self.pairs += 1;
        }
        Ok(fresh)
    }

    /// Removes a pair, and returns whether it was there. Removing moves the exam's greater
    /// students.
    pub fn remove(&mut self, student: StudentNo, exam: ExamNo) -> bool
        requires exists { exam < length self.old }
        ensures removed { result ≡ has self.old student exam }
        ensures left { Removes self.old self.new student exam }
        ensures pair { self.new ≡ without_pair self.old student exam }
        ensures kept { AreEnrolments self.new }
    {
        self.conflicts = None;
        let removed = self.rolls[exam.get() as usize].remove(student);
        if removed {
            self.pairs -= 1;
        }
        removed
    }

    /// Puts ascending students into an exam that has none. `Range`: there would be more than
    /// 200,000 pairs; then `NoMemory`.
    pub fn enrol(&mut self, sitters: &[StudentNo], exam: ExamNo) -> Result<(), ModelFault>
        requires exists { exam < length self.old }
        requires empty { students self.old exam ≡ [] }
        requires ascending { IsAscending sitters.now }
        ensures ok { OnOk result (self.new ≡ slice_set self.old exam sitters.now) }
        ensures err { OnErr result (self.new ≡ self.old) }
        ensures kept { AreEnrolments self.new }
        ensures refused { IfErr result (RefusesAll self.old sitters.now) }
    {
        let count = sitters.len();
        if count > (MAX_PAIRS - self.pairs) as usize {
            return Err(ModelFault::Range);
        }
        self.conflicts = None;
        self.rolls[exam.get() as usize].fill(sitters)?;
        self.pairs += count as u32;
        Ok(())
    }
}
