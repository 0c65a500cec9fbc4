// The students of one exam, ascending: contracts see the list of their numbers.
ghost use Rattle.std.specs.Prelude.{◌≡◌, ℕ, List, [], IfOk, IfErr, OnOk, OnErr, not};
ghost use Rattle.exam_model.specs.Enrolments.{AreNumbers, IsAscending, has_number};
ghost use Rattle.exam_model.specs.StudentLists.{IsAt, IsGap, Enters, Leaves};

use exam_terms::StudentNo;
use std::alloc::{AllocError, Global};
use std::marker::Model;

#[derive(Debug, Drop)]
pub(crate) struct Roll {
    students: Vec<StudentNo>,
}

impl Model for Roll {
    ghost Value = { List ℕ };

    ghost view = { λ a. a.students.items };

    ghost invariant = { λ a. IsAscending a.students.items };
}

impl Roll {
    pub(crate) fn new(alloc: Global) -> Roll
        ensures { result ≡ [] }
    {
        Roll {
            students: Vec::new(alloc),
        }
    }

    pub(crate) fn copy(&self, alloc: Global) -> Result<Roll, AllocError>
        ensures same { IfOk result (λ made. made ≡ self.now) }
    {
        let students = self.students.to_vec(alloc)?;
        Ok(Roll { students })
    }

    pub(crate) fn as_slice(&self) -> &[StudentNo]
        ensures all { result.now ≡ self.now }
        ensures ascending { IsAscending self.now }
    {
        &self.students
    }

    // Puts ascending students into an empty roll.
    pub(crate) fn fill(&mut self, students: &[StudentNo]) -> Result<(), AllocError>
        requires empty { self.old ≡ [] }
        requires ascending { IsAscending students.now }
        ensures ok { OnOk result (self.new ≡ students.now) }
        ensures numbers { AreNumbers students.now }
        ensures err { OnErr result (self.new ≡ self.old) }
    {
        numbers_identify(students);
        self.students.extend_from_slice(students)
    }

    #[tactic(auto, using(crate::proofs::RollLemmas::roll_facts))]
    pub(crate) fn has(&self, student: StudentNo) -> bool
        ensures { result ≡ has_number self.now student }
    {
        self.search(student).is_ok()
    }

    // Adds a student, and returns whether they are new.
    #[tactic(auto, using(crate::proofs::RollLemmas::roll_facts))]
    pub(crate) fn add(&mut self, student: StudentNo) -> Result<bool, AllocError>
        ensures fresh { IfOk result (λ fresh. fresh ≡ not (has_number self.old student)) }
        ensures ok { OnOk result (Enters self.old self.new student) }
        ensures err { OnErr result (self.new ≡ self.old) }
    {
        match self.search(student) {
            Ok(_) => return Ok(false),
            Err(at) => self.students.insert(at, student)?,
        }
        Ok(true)
    }

    // Removes a student, and returns whether they were there.
    #[tactic(auto, using(crate::proofs::RollLemmas::roll_facts))]
    pub(crate) fn remove(&mut self, student: StudentNo) -> bool
        ensures removed { result ≡ has_number self.old student }
        ensures left { Leaves self.old self.new student }
    {
        match self.search(student) {
            Ok(at) => {
                self.students.remove(at);
                true
            }
            Err(_) => false,
        }
    }

    // Returns the index of the student, or the index where they would go.
    fn search(&self, student: StudentNo) -> Result<usize, usize>
        ensures found { IfOk result (IsAt self.now student) }
        ensures absent { IfErr result (IsGap self.now student) }
    {
        self.students.binary_search(&student)
    }
}

// Reads the numbers for their limit, and does nothing.
fn numbers_identify(students: &[StudentNo])
    ensures { AreNumbers students.now }
{
    for student in students {
        student.lemma_limit();
    }
}
