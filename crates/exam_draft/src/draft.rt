// A draft: contracts see the instance, the enrolments and the timetable.
ghost use Rattle.std.specs.Prelude.{◌≡◌, ◌<◌, length, All, Ok, IfOk, IfErr, OnOk, OnErr};
ghost use Rattle.exam_model.specs.Timetable.{empty_timetable};
ghost use Rattle.exam_model.specs.Fits.{Fits};
ghost use Rattle.exam_score.specs.Changes.{DiffersAtMost};
ghost use Rattle.exam_score.specs.Track.{track};
ghost use Rattle.exam_draft.specs.Edits.{edit_result};
ghost use Rattle.exam_draft.specs.Judged.{edited_exams, IsEditedAt, Refuses};

use crate::edit::Edit;
use crate::fault::EditFault;
use crate::judging::judge;
use exam_model::{Enrolments, ExamNo, Instance, Timetable};
use exam_score::{Parts, difference, score};
use std::alloc::{AllocError, Global};
use std::marker::Model;

/// A timetable in progress, with its penalty. It may be partial, and may break rules: an edit is
/// refused only for a breach that names an edited exam.
#[derive(Drop)]
pub struct Draft<'a> {
    instance: &'a Instance,
    enrolments: &'a Enrolments,
    timetable: Timetable,
    parts: Parts,
}

impl<'a> Model for Draft<'a> {
    ghost use Rattle.exam_draft.specs.Drafts.{DraftState};

    ghost Value = { DraftState };

    ghost use Rattle.exam_draft.specs.Drafts.{IsScored};

    ghost view = { λ a. record {
      instance = a.instance.now;
      enrolments = a.enrolments.now;
      timetable = a.timetable;
    } };

    ghost invariant = { λ a. IsScored a.instance.now a.enrolments.now a.timetable a.parts };
}

impl<'a> Draft<'a> {
    /// Returns the draft in which no exam is placed. `Err`: out of memory.
    pub fn new(
        alloc: Global,
        instance: &'a Instance,
        enrolments: &'a Enrolments,
    ) -> Result<Draft<'a>, AllocError>
        requires exams { length enrolments.now ≡ length instance.now.exams }
        ensures { IfOk result (λ made. made ≡ record {
          instance = instance.now;
          enrolments = enrolments.now;
          timetable = empty_timetable (length instance.now.exams);
        }) }
    {
        let timetable = Timetable::new(alloc, instance.exams())?;
        let parts = score(alloc, instance, enrolments, &timetable)?;
        Ok(Draft::resume(instance, enrolments, timetable, parts))
    }

    /// Returns the draft of a timetable whose penalty is known; it may break rules.
    pub fn resume(
        instance: &'a Instance,
        enrolments: &'a Enrolments,
        timetable: Timetable,
        parts: Parts,
    ) -> Draft<'a>
        requires fits { Fits instance.now enrolments.now timetable }
        requires scored { parts ≡ track instance.now enrolments.now timetable }
        ensures { result ≡ record {
          instance = instance.now;
          enrolments = enrolments.now;
          timetable = timetable;
        } }
    {
        Draft {
            instance,
            enrolments,
            timetable,
            parts,
        }
    }

    /// Returns the current timetable.
    pub fn timetable(&self) -> &Timetable
        ensures timetable { result.now ≡ self.now.timetable }
        ensures fits { Fits self.now.instance self.now.enrolments self.now.timetable }
    {
        &self.timetable
    }

    /// Returns its penalty.
    pub fn parts(&self) -> Parts
        ensures { result ≡ track self.now.instance self.now.enrolments self.now.timetable }
    {
        self.parts
    }

    /// Returns the timetable and its penalty.
    pub fn into_parts(self) -> (Timetable, Parts)
        ensures timetable { result.0 ≡ self.entry.timetable }
        ensures parts { result.1
            ≡ track self.entry.instance self.entry.enrolments self.entry.timetable }
        ensures fits { Fits self.entry.instance self.entry.enrolments self.entry.timetable }
    {
        (self.timetable, self.parts)
    }

    /// Returns the same timetable with other enrolments, scored again. `Err`: out of memory; it has
    /// the unchanged draft.
    pub fn enrol(self, alloc: Global, enrolments: &'a Enrolments) -> Result<Draft<'a>, Draft<'a>>
        requires exams { length enrolments.now ≡ length self.instance.exams }
        ensures ok { IfOk result (λ new. new
            ≡ record self.entry { enrolments = enrolments.now }) }
        ensures err { IfErr result (λ old. old ≡ self.entry) }
    {
        match score(alloc, self.instance, enrolments, &self.timetable) {
            Ok(parts) => Ok(Draft {
                enrolments,
                parts,
                ..self
            }),
            Err(_) => Err(self),
        }
    }

    // Returns the edited timetable, or why the edit is refused.
    pub(crate) fn edited_timetable(&self, alloc: Global, edit: Edit) -> Result<Timetable, EditFault>
        ensures ok { IfOk result (λ next. edit_result self.now.instance self.now.enrolments
            self.now.timetable edit ≡ Ok next) }
        ensures refused { IfErr result (Refuses (edit_result self.now.instance self.now.enrolments
            self.now.timetable edit)) }
        ensures kept { IfOk result (IsEditedAt self.now.instance self.now.enrolments
            self.now.timetable (edited_exams edit)) }
    {
        judge(alloc, self.instance, self.enrolments, &self.timetable, edit)
    }

    // Replaces the timetable and its penalty.
    pub(crate) fn accept(
        &mut self,
        alloc: Global,
        next: Timetable,
        edited: &[ExamNo],
    ) -> Result<(), AllocError>
        requires fits { Fits self.old.instance self.old.enrolments next }
        requires exist { All (λ e. e < length self.old.instance.exams) edited.now }
        requires others { DiffersAtMost edited.now self.old.timetable next }
        ensures ok { OnOk result (self.new ≡ record self.old { timetable = next }) }
        ensures err { OnErr result (self.new ≡ self.old) }
    {
        let parts = self.parts();
        let parts = difference(
            alloc,
            self.instance,
            self.enrolments,
            &self.timetable,
            &next,
            edited,
            parts,
        )?;
        *self = Draft::resume(self.instance, self.enrolments, next, parts);
        Ok(())
    }
}
