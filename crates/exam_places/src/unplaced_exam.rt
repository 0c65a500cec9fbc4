// An exam, a timetable that doesn't place it, and what each of its periods breaks.
ghost use Rattle.std.specs.Prelude.{◌≡◌, ◌<◌, length, Some, IfOk};
ghost use Rattle.exam_model.specs.Fits.{Fits, PlaceExists};
ghost use Rattle.exam_places.specs.Answers.{place};
ghost use Rattle.exam_places.specs.Groups.{late_rules};
ghost use Rattle.exam_places.specs.Unplaced.{IsUnplaced, first_breach, with_place};

use exam_model::{Enrolments, ExamNo, Instance, PeriodNo, Place, RoomNo, Timetable};
use exam_rules::{Breach, BreachRule, first_breach_among};
use std::alloc::{AllocError, Global};

/// An exam, and a timetable that doesn't place it.
#[derive(Clone, Copy)]
pub(crate) struct UnplacedExam<'a> {
    pub instance: &'a Instance,
    pub enrolments: &'a Enrolments,
    pub timetable: &'a Timetable,
    pub exam: ExamNo,
}

impl<'a> UnplacedExam<'a> {
    /// Returns the first breach of the rules of lines, which depend on a place's period only.
    pub(crate) fn late_breach(
        &self,
        alloc: Global,
        period: PeriodNo,
    ) -> Result<Option<Breach>, AllocError>
        requires unplaced { IsUnplaced self.now }
        requires period { period < length self.now.instance.now.periods }
        ensures { IfOk result (λ found. found ≡ first_breach self.now (place period 0) late_rules) }
    {
        self.instance.lemma_limits();
        let room = RoomNo::new(0);
        let rules = [
            BreachRule::After,
            BreachRule::Coincidence,
            BreachRule::Exclusion,
        ];
        self.breach_among(alloc, Place { period, room }, &rules)
    }

    // Returns the first breach of some rules at a place, in the order of this list.
    fn breach_among(
        &self,
        alloc: Global,
        at: Place,
        rules: &[BreachRule],
    ) -> Result<Option<Breach>, AllocError>
        requires unplaced { IsUnplaced self.now }
        requires exists { PlaceExists self.now.instance.now (Some at) }
        ensures { IfOk result (λ found. found ≡ first_breach self.now at rules.now) }
    {
        let next = self.placed(alloc, at)?;
        let exams = [self.exam];
        let found = first_breach_among(
            alloc,
            self.instance,
            self.enrolments,
            &next,
            &exams,
            rules,
        )?;
        Ok(found)
    }

    // Returns the timetable with the exam at a place.
    fn placed(&self, alloc: Global, at: Place) -> Result<Timetable, AllocError>
        requires unplaced { IsUnplaced self.now }
        requires exists { PlaceExists self.now.instance.now (Some at) }
        ensures made { IfOk result (λ made. made ≡ with_place self.now at) }
        ensures fits { IfOk result (Fits self.now.instance.now self.now.enrolments.now) }
    {
        let mut made = self.timetable.copy(alloc)?;
        made.set(self.exam, at);
        Ok(made)
    }
}
