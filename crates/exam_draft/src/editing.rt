// The edits of a draft: each is judged first, and a refused edit changes nothing.
ghost use Rattle.std.specs.Prelude.{◌≡◌, Ok, IfErr, OnOk, OnErr};
ghost use Rattle.exam_draft.specs.Edits.{after_place, after_move, after_swap, after_clear};
ghost use Rattle.exam_draft.specs.Judged.{Refuses};

use crate::draft::Draft;
use crate::edit::Edit;
use crate::fault::EditFault;
use exam_model::{ExamNo, Place};
use std::alloc::Global;

impl<'a> Draft<'a> {
    /// Places an unplaced exam. `Err` is `NoSuch`, `AlreadyPlaced`, `Broken` or `NoMemory`.
    pub fn place(&mut self, alloc: Global, exam: ExamNo, place: Place) -> Result<(), EditFault>
        ensures ok { OnOk result (after_place self.old.instance self.old.enrolments
            self.old.timetable exam place ≡ Ok self.new.timetable) }
        // The first refusal that applies, or out of memory instead.
        ensures refused { IfErr result (Refuses (after_place self.old.instance
            self.old.enrolments self.old.timetable exam place)) }
        ensures same { self.new ≡ record self.old { timetable = self.new.timetable } }
        ensures err { OnErr result (self.new ≡ self.old) }
    {
        self.apply(alloc, Edit::Place(exam, place))
    }

    /// Moves a placed exam; the new place may be the old one. `Err` is `NoSuch`, `NotPlaced`,
    /// `Broken` or `NoMemory`.
    pub fn move_to(&mut self, alloc: Global, exam: ExamNo, to: Place) -> Result<(), EditFault>
        ensures ok { OnOk result (after_move self.old.instance self.old.enrolments
            self.old.timetable exam to ≡ Ok self.new.timetable) }
        // The first refusal that applies, or out of memory instead.
        ensures refused { IfErr result (Refuses (after_move self.old.instance
            self.old.enrolments self.old.timetable exam to)) }
        ensures same { self.new ≡ record self.old { timetable = self.new.timetable } }
        ensures err { OnErr result (self.new ≡ self.old) }
    {
        self.apply(alloc, Edit::Move(exam, to))
    }

    /// Exchanges the places of two exams, period and room. `Err` is `NoSuch`, `NotPlaced`,
    /// `SameExam`, `Broken` or `NoMemory`.
    pub fn swap(&mut self, alloc: Global, one: ExamNo, other: ExamNo) -> Result<(), EditFault>
        ensures ok { OnOk result (after_swap self.old.instance self.old.enrolments
            self.old.timetable one other ≡ Ok self.new.timetable) }
        // The first refusal that applies, or out of memory instead.
        ensures refused { IfErr result (Refuses (after_swap self.old.instance
            self.old.enrolments self.old.timetable one other)) }
        ensures same { self.new ≡ record self.old { timetable = self.new.timetable } }
        ensures err { OnErr result (self.new ≡ self.old) }
    {
        self.apply(alloc, Edit::Swap(one, other))
    }

    /// Removes an exam's place, even if rules are broken. `Err` is `NoSuch`, `NotPlaced` or
    /// `NoMemory`.
    pub fn clear(&mut self, alloc: Global, exam: ExamNo) -> Result<(), EditFault>
        ensures ok { OnOk result (after_clear self.old.instance self.old.timetable exam
            ≡ Ok self.new.timetable) }
        // The first refusal that applies, or out of memory instead.
        ensures refused { IfErr result (Refuses (after_clear self.old.instance
            self.old.timetable exam)) }
        ensures same { self.new ≡ record self.old { timetable = self.new.timetable } }
        ensures err { OnErr result (self.new ≡ self.old) }
    {
        self.apply(alloc, Edit::Clear(exam))
    }
}
