// What the office shows of its session and its drafts.
ghost use Rattle.std.specs.Prelude.{◌≡◌, IfErr, IfOk, IsTrue, length};
ghost use Rattle.sqlite.specs.Held.{state};
ghost use Rattle.sqlite.specs.State.{HasCleanDisk};
ghost use Rattle.office_model.specs.Office.{OfficeState};
ghost use Rattle.office_model.specs.Commands.{session_shown};
ghost use Rattle.office_model.specs.DraftCommands.{draft_shown};
ghost use Rattle.office_model.specs.Step.{draft_places_shown};
ghost use Rattle.office_records.specs.Representation.{RepresentsOffice};
ghost use Rattle.office_store.specs.Judging.{draft_judged, plain_list};
ghost use Rattle.office_store.specs.Leaving.{LeavesUnchanged};
ghost use Rattle.office_store.specs.OfficeRows.{pair_values};
ghost use Rattle.office_store.specs.Pricing.{penalty_shown};
ghost use Rattle.office_store.specs.Running.{CommandOutcome, CommandRan};

use crate::memory::few_breaches;
use crate::office::Office;
use exam_draft::EditFault;
use exam_model::{Enrolments, ExamNo, Instance, Timetable};
use exam_places::{PlaceRow, places_if_scored};
use exam_rules::{Breach, breaches};
use exam_score::Parts;
use office_model::{Refusal, StoreFault};
use sqlite::Alter;
use std::alloc::Global;

impl<S: Alter> Office<S> {
    /// Returns the session with its live enrolments, from memory. The file has the same session
    /// while it can be read; an `Ok` of `draft`, `owner` or `check_open` confirms that it can.
    /// `NotLoaded`: there is no session yet.
    pub fn session(&self) -> Result<(&Instance, &Enrolments), StoreFault>
        // While the store is open, these are the session and its present enrolments.
        ensures shown { HasCleanDisk (state S.Store self.now)
            → IsTrue (state S.Store self.now).is_open → (office : OfficeState)
            → RepresentsOffice (state S.Store self.now).now office
            → CommandOutcome (session_shown office) office (λ new. new ≡ office)
            (pair_values result) }
        ensures fault { IfErr result (λ e. e ≡ StoreFault.NotLoaded) }
        ensures exams { IfOk result (λ pair. length pair.1.now ≡ length pair.0.now.exams) }
    {
        match &self.memory.kept {
            Some((instance, enrolments)) => Ok((instance, enrolments)),
            None => Err(StoreFault::NotLoaded),
        }
    }

    /// Returns a draft's timetable with its penalty. `NotLoaded`, then `NoDraft`: no draft has this
    /// number.
    pub fn draft(&mut self, alloc: Global, number: u32) -> Result<(Timetable, Parts), StoreFault>
        ensures runs { CommandRan S.Store (draft_shown number) self.old self.new result }
        // While it is open, the database is unchanged. On `Ok` memory and the file agree.
        ensures leaves { LeavesUnchanged S.Store self.old self.new result }
    {
        self.check_open()?;
        if self.memory.kept.is_none() {
            return Err(StoreFault::NotLoaded);
        }
        let Some(draft) = self.memory.draft(number) else {
            return Err(StoreFault::NoDraft);
        };
        let timetable = draft.timetable.copy(alloc)?;
        Ok((timetable, draft.parts))
    }

    /// Returns the penalty of a draft. `NotLoaded`, then `NoDraft`: no draft has this number.
    pub fn penalty(&mut self, number: u32) -> Result<Parts, StoreFault>
        ensures runs { CommandRan S.Store (penalty_shown number) self.old self.new result }
        // While it is open, the database is unchanged. On `Ok` memory and the file agree.
        ensures leaves { LeavesUnchanged S.Store self.old self.new result }
    {
        self.check_open()?;
        if self.memory.kept.is_none() {
            return Err(StoreFault::NotLoaded);
        }
        let Some(draft) = self.memory.draft(number) else {
            return Err(StoreFault::NoDraft);
        };
        Ok(draft.parts)
    }

    /// Returns all breaches of a draft, in their order. They are kept in memory until the draft or the
    /// enrolments change, unless they are many. `NotLoaded`, then `NoDraft`: no draft has this number.
    pub fn breaches(&mut self, alloc: Global, number: u32) -> Result<Vec<Breach>, StoreFault>
        ensures runs { CommandRan S.Store (draft_judged number)
            self.old self.new (plain_list result) }
        // While it is open, the database is unchanged. On `Ok` memory and the file agree.
        ensures leaves { LeavesUnchanged S.Store self.old self.new result }
    {
        self.check_open()?;
        let memory = &self.memory;
        let Some((instance, enrolments)) = &memory.kept else {
            return Err(StoreFault::NotLoaded);
        };
        let Some(draft) = memory.draft(number) else {
            return Err(StoreFault::NoDraft);
        };
        if let Some(found) = memory.judged(number) {
            let copy = Vec::from_slice(alloc, found)?;
            return Ok(copy);
        }
        let breaches = breaches(alloc, instance, enrolments, &draft.timetable)?;
        let few = few_breaches(alloc, &breaches);
        self.memory.keep_breaches(number, few);
        Ok(breaches)
    }

    /// Returns every place for an exam of a draft, with what the edit that puts the exam there
    /// answers. `NotLoaded`, then `NoDraft`: no draft has this number, then `Refused`: there is no
    /// such exam.
    pub fn places(
        &mut self,
        alloc: Global,
        number: u32,
        exam: ExamNo,
    ) -> Result<Vec<PlaceRow>, StoreFault>
        ensures runs { CommandRan S.Store (draft_places_shown number exam)
            self.old self.new (plain_list result) }
        // While it is open, the database is unchanged. On `Ok` memory and the file agree.
        ensures leaves { LeavesUnchanged S.Store self.old self.new result }
    {
        self.check_open()?;
        let memory = &self.memory;
        let Some((instance, enrolments)) = &memory.kept else {
            return Err(StoreFault::NotLoaded);
        };
        let Some(draft) = memory.draft(number) else {
            return Err(StoreFault::NoDraft);
        };
        if exam.get() >= instance.exams() {
            return Err(StoreFault::Refused(Refusal::Edit(EditFault::NoSuch)));
        }
        let (timetable, parts) = (&draft.timetable, draft.parts);
        let rows = places_if_scored(alloc, instance, enrolments, timetable, parts, exam)?;
        Ok(rows)
    }
}
