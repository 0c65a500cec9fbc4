// The penalty after an edit, by the students whom it concerns: contracts see the fold's state.
ghost use Rattle.std.specs.Prelude.{◌≡◌, ◌<◌, ◌≤◌, ◌*◌, ◌↔◌, IsTrue, [], ◌∷◌, ◌++◌, List, length, Some, IfOk, IfSome, IfNone, OnOk, OnErr};
ghost use Rattle.exam_terms.specs.declared.limits.TheConstants.{MAX_AMOUNT, MAX_PAIRS};
ghost use Rattle.exam_model.specs.Enrolments.{Enrolled};
ghost use Rattle.exam_model.specs.Pairs.{Pair};
ghost use Rattle.exam_score.specs.Exchanges.{CannotExchange, IsExchanged, IsOfEdit, new_amounts, edit_share, old_amounts};
ghost use Rattle.exam_score.specs.Touched.{is_touched};
ghost use Rattle.exam_score.specs.Folds.{CanFollow, RepresentsPairs};
ghost use Rattle.exam_score.specs.Penalty.{personal_total};
ghost use Rattle.exam_score.specs.Track.{track};

use crate::edited_exams::{edited_front, edited_places};
use crate::parts::Parts;
use crate::personal_parts::PersonalParts;
use crate::sat_exams::personal_at;
use crate::touched::{EditedPlaces, touched_mixed};
use exam_model::{ExamNo, Instance, StudentNo, Timetable};
use std::alloc::{AllocError, Global};
use std::marker::Model;

/// The change of a penalty by an edit, from the pairs of the students who sit an edited exam: the
/// pairs are added one by one, by student and then by exam, and only one student's are kept.
#[derive(Drop)]
pub struct EditFold<'a> {
    alloc: Global,
    instance: &'a Instance,
    earlier: &'a Timetable,
    later: &'a Timetable,
    edited: &'a [ExamNo],
    count: u32,
    before: PersonalParts,
    after: PersonalParts,
    // The open student, and their exams so far.
    student: Option<StudentNo>,
    exams: Vec<ExamNo>,
}

impl<'a> Model for EditFold<'a> {
    ghost use Rattle.exam_score.specs.Folds.{Folded, pairs_sat};

    ghost Value = { Folded };

    ghost use Rattle.exam_score.specs.Folds.{IsBounded};

    ghost view = { λ f. record {
      instance = f.instance.now;
      earlier = f.earlier.now;
      later = f.later.now;
      edited = f.edited.now;
      count = f.count;
      before = f.before;
      after = f.after;
      current = pairs_sat f.student f.exams.items;
    } };

    ghost invariant = { λ f. IsBounded f.count f.before f.after f.student f.exams.items };
}

impl<'a> EditFold<'a> {
    /// Returns the fold of no pairs, for an edit that turns `old` into `new`.
    pub fn new(
        alloc: Global,
        instance: &'a Instance,
        old: &'a Timetable,
        new: &'a Timetable,
        edited: &'a [ExamNo],
    ) -> Result<EditFold<'a>, AllocError>
        ensures made { IfOk result (λ fold. fold ≡ record {
          instance = instance.now;
          earlier = old.now;
          later = new.now;
          edited = edited.now;
          count = 0;
          before = record { row = 0; day = 0; spread = 0; night = 0 };
          after = record { row = 0; day = 0; spread = 0; night = 0 };
          current = [];
        }) }
        // It represents no pairs.
        ensures represents { IfOk result (λ fold. RepresentsPairs fold []) }
    {
        let exams = Vec::with_capacity(alloc, instance.exams() as usize)?;
        Ok(EditFold {
            alloc,
            instance,
            earlier: old,
            later: new,
            edited,
            count: 0,
            before: PersonalParts::of(0, 0, 0, 0),
            after: PersonalParts::of(0, 0, 0, 0),
            student: None,
            exams,
        })
    }

    /// Adds one pair. On `Err`, memory ran out and the fold is unchanged.
    pub fn row(&mut self, student: StudentNo, exam: ExamNo) -> Result<(), AllocError>
        requires few { self.old.count < MAX_PAIRS }
        requires follows { CanFollow self.old (record { exam = exam; student = student }) }
        // The fold represents the pairs that it represented, with this one appended.
        ensures ok { (pairs : List Pair) → RepresentsPairs self.old pairs
            → OnOk result (RepresentsPairs self.new
            (pairs ++ record { exam = exam; student = student } ∷ [])) }
        ensures same { (self.new.instance ≡ self.old.instance)
            × (self.new.earlier ≡ self.old.earlier) × (self.new.later ≡ self.old.later)
            × (self.new.edited ≡ self.old.edited) }
        ensures err { OnErr result (self.new ≡ self.old) }
    {
        if is_open(self.student, student) {
            self.exams.push(exam)?;
            self.count += 1;
            return Ok(());
        }
        let mut exams = Vec::new(self.alloc);
        exams.push(exam)?;
        let before = personal_at(self.instance, self.earlier, self.edited, &self.exams);
        let after = personal_at(self.instance, self.later, self.edited, &self.exams);
        self.before = self.before.plus(before);
        self.after = self.after.plus(after);
        self.student = Some(student);
        self.exams = exams;
        self.count += 1;
        Ok(())
    }

    /// Returns the new penalty by the old one, if the fold took exactly the pairs of all students
    /// with an edited exam. `sizes` has the number of each exam's students. It takes no memory.
    /// `None`: a part would be negative, or the total would reach 2^62.
    pub fn finish(self, sizes: &[u32], old_parts: Parts) -> Option<Parts>
        requires sizes { length sizes.now ≡ length self.instance.exams }
        // If the fold took exactly the pairs of the students who sit an edited exam, this is the
        // penalty of the new timetable.
        ensures scored { (E : Enrolled) (pairs : List Pair) → RepresentsPairs self.entry pairs
            → IsOfEdit self.entry E pairs sizes.now old_parts
            → result ≡ Some (track self.entry.instance E self.entry.later) }
        // Each part is the old one, with the old amounts replaced by the new ones.
        ensures made { IfSome result (IsExchanged old_parts
            (old_amounts self.entry sizes.now) (new_amounts self.entry sizes.now)) }
        // No such penalty has a total below 2^62.
        ensures none { IfNone result (CannotExchange old_parts
            (old_amounts self.entry sizes.now) (new_amounts self.entry sizes.now)) }
    {
        self.instance.lemma_limits();
        let touched = EditedPlaces {
            edited: self.edited,
            earlier: self.earlier,
            later: self.later,
        };
        let before = personal_at(self.instance, self.earlier, self.edited, &self.exams);
        let before = self.before.plus(before);
        let after = personal_at(self.instance, self.later, self.edited, &self.exams);
        let after = self.after.plus(after);
        let goes = edit_share(self.instance, self.earlier, &touched, sizes, before);
        let comes = edit_share(self.instance, self.later, &touched, sizes, after);
        old_parts.exchange(goes, comes)
    }
}

// Returns the share of the edit's students, places and exams in the penalty of one timetable.
fn edit_share(
    instance: &Instance,
    timetable: &Timetable,
    touched: &EditedPlaces,
    sizes: &[u32],
    students: PersonalParts,
) -> Parts
    requires sizes { length sizes.now ≡ length instance.now.exams }
    requires small { personal_total students ≤ 4 * (MAX_PAIRS * MAX_PAIRS * MAX_AMOUNT) }
    ensures { result ≡ edit_share instance.now timetable.now touched.now.edited.now
        (is_touched touched.now.edited.now touched.now.earlier.now touched.now.later.now)
        sizes.now students }
{
    let mixed = touched_mixed(instance, timetable, touched);
    let front = edited_front(instance, sizes, timetable, touched.edited);
    let places = edited_places(instance, timetable, touched.edited);
    Parts::of(students, mixed, front, places)
}

fn is_open(current: Option<StudentNo>, student: StudentNo) -> bool
    ensures { IsTrue result ↔ (current ≡ Some student) }
{
    match current {
        Some(own) => own == student,
        None => false,
    }
}
