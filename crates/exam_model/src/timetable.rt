// A timetable: contracts see a list with each exam's place, if it has one.
ghost use Rattle.std.specs.Prelude.{◌≡◌, ◌<◌, ◌≤◌, ℕ, length, map, Some, None, IfOk, IfNone, IfSome, IsSome, slice_set};
ghost use Rattle.exam_terms.specs.declared.limits.TheConstants.{MAX_EXAMS};
ghost use Rattle.exam_model.specs.Timetable.{Placing, period_number, place_of, empty_timetable, HasExams, IsFirstUnplaced};

use exam_terms::{ExamNo, Place};
use std::alloc::{AllocError, Global};
use std::marker::Model;

/// The number of the period of an exam without a place: a timetable that fits a session has no such
/// period.
pub const NO_PERIOD: u32 = u32::MAX;

/// The place of each of 1 to 2,000 exams, if it has one.
#[derive(Debug, Drop)]
pub struct Timetable {
    places: Vec<Option<Place>>,
}

impl Model for Timetable {
    ghost Value = { Placing };

    ghost view = { λ a. a.places.items };

    ghost invariant = { λ a. HasExams a.places.items };
}

impl Timetable {
    /// Returns the timetable of this many exams, none of which is placed.
    pub fn new(alloc: Global, exams: u32) -> Result<Timetable, AllocError>
        requires at_least { 1 ≤ exams }
        requires at_most { exams ≤ MAX_EXAMS }
        ensures { IfOk result (λ made. made ≡ empty_timetable exams) }
    {
        let places = vec![in alloc; None; exams as usize]?;
        Ok(Timetable { places })
    }

    pub fn copy(&self, alloc: Global) -> Result<Timetable, AllocError>
        ensures same { IfOk result (λ made. made ≡ self.now) }
        ensures kept { IfOk result HasExams }
    {
        let places = self.places.to_vec(alloc)?;
        Ok(Timetable { places })
    }

    /// Returns how many exams there are, placed or not.
    pub fn exams(&self) -> u32
        ensures count { result ≡ length self.now }
        ensures kept { HasExams self.now }
    {
        self.places.len() as u32
    }

    /// States the limit of each timetable, for a proof: it has 1 to 2,000 exams. It does nothing.
    pub fn lemma_limit(&self)
        ensures { HasExams self.now }
    {
        let _ = &self.places; // its invariant
    }

    /// Returns the exam's place, if it has one.
    pub fn get(&self, exam: ExamNo) -> Option<Place>
        requires exists { exam < length self.now }
        ensures { result ≡ place_of self.now exam }
    {
        self.places[exam.get() as usize]
    }

    /// Returns the number of each exam's period, or `NO_PERIOD`: faster to read many times than the
    /// places. `Err`: out of memory.
    pub fn periods(&self, alloc: Global) -> Result<Vec<u32>, AllocError>
        ensures { IfOk result (λ periods. periods.items ≡ map period_number self.now) }
    {
        self.places
            .iter()
            .map(|place| period_number(*place))
            .collect(alloc)
    }

    /// Places the exam, whether or not it had a place.
    pub fn set(&mut self, exam: ExamNo, place: Place)
        requires exists { exam < length self.old }
        ensures { self.new ≡ slice_set self.old exam (Some place) }
    {
        let at = exam.get() as usize;
        self.places[at] = Some(place);
    }

    /// Removes the exam's place, if it has one.
    pub fn clear(&mut self, exam: ExamNo)
        requires exists { exam < length self.old }
        ensures { self.new ≡ slice_set self.old exam None }
    {
        let cleared = exam.get() as usize;
        self.places[cleared] = None;
    }

    /// Returns the smallest exam without a place; `None` if each exam has one.
    pub fn complete(&self) -> Option<ExamNo>
        ensures none { IfNone result ((e : ℕ) → e < length self.now
            → IsSome (place_of self.now e)) }
        ensures first { IfSome result (IsFirstUnplaced self.now) }
    {
        let first = self.places.iter().position(|place| place.is_none())?;
        Some(ExamNo::new(first as u32))
    }
}

fn period_number(place: Option<Place>) -> u32
    ensures { result ≡ period_number place }
{
    match place {
        Some(place) => place.period.get(),
        None => NO_PERIOD,
    }
}
