// An edit of a timetable, as a value.
ghost use Rattle.std.specs.Prelude.{◌≡◌, IfErr, IfOk, Ok, OnErr, OnOk};
ghost use Rattle.exam_draft.specs.Edits.{edit_result};
ghost use Rattle.exam_draft.specs.Judged.{Refuses, edited_exams};

use crate::draft::Draft;
use crate::fault::EditFault;
use exam_model::{ExamNo, Place};
use std::alloc::{AllocError, Global};

/// An edit of a draft.
#[derive(Clone, Copy, Debug, PartialEq, Eq)]
pub enum Edit {
    /// An unplaced exam gets a place.
    Place(ExamNo, Place),
    /// A placed exam gets another place.
    Move(ExamNo, Place),
    /// Two placed exams exchange their places, period and room.
    Swap(ExamNo, ExamNo),
    /// A placed exam loses its place.
    Clear(ExamNo),
}

impl Edit {
    /// Returns the exams that get or lose a place.
    pub fn exams(&self, alloc: Global) -> Result<Vec<ExamNo>, AllocError>
        ensures { IfOk result (λ exams. exams.items ≡ edited_exams self.now) }
    {
        let exams = match *self {
            Edit::Place(exam, _) | Edit::Move(exam, _) | Edit::Clear(exam) => vec![in alloc; exam]?,
            Edit::Swap(one, other) => vec![in alloc; one, other]?,
        };
        Ok(exams)
    }
}

impl<'a> Draft<'a> {
    /// Makes the edit, or returns why it is refused.
    pub fn apply(&mut self, alloc: Global, edit: Edit) -> Result<(), EditFault>
        ensures ok { OnOk result (edit_result self.old.instance self.old.enrolments
            self.old.timetable edit ≡ Ok self.new.timetable) }
        // The first refusal that applies, or out of memory instead.
        ensures refused { IfErr result (Refuses (edit_result self.old.instance self.old.enrolments
            self.old.timetable edit)) }
        ensures same { self.new ≡ record self.old { timetable = self.new.timetable } }
        ensures err { OnErr result (self.new ≡ self.old) }
    {
        let next = self.edited_timetable(alloc, edit)?;
        let exams = edit.exams(alloc)?;
        self.accept(alloc, next, &exams)?;
        Ok(())
    }
}
