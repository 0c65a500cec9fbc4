// An instance: contracts see an examination session by its parts.
ghost use Rattle.std.specs.Prelude.{◌≡◌, ◌<◌, ◌*◌, length, slice_get, Some, IfOk, IfErr};
ghost use Rattle.exam_model.specs.Fits.{slot_of};
ghost use Rattle.exam_model.specs.Instance.{Session, session, IsInstance, RefusesSession};

use crate::fault::ModelFault;
use crate::limits::{in_limits, numbers_exist};
use crate::parts::{Exam, Period, Room, Weights};
use crate::rules::{PeriodRule, RoomRule};
use exam_terms::{ExamNo, PeriodNo, Place, RoomNo};
use std::alloc::Global;
use std::marker::Model;

/// Exams, periods, rooms, rules and weights. Exams, periods and rooms are numbered from 0.
/// Every limit holds, and every exam that a rule names exists.
#[derive(Debug, Drop)]
pub struct Instance {
    exams: Vec<Exam>,
    periods: Vec<Period>,
    rooms: Vec<Room>,
    period_rules: Vec<PeriodRule>,
    room_rules: Vec<RoomRule>,
    weights: Weights,
}

impl Model for Instance {
    ghost Value = { Session };

    ghost view = { λ a. session a.exams.items a.periods.items a.rooms.items
        a.period_rules.items a.room_rules.items a.weights };

    ghost invariant = { λ a. IsInstance (session a.exams.items a.periods.items a.rooms.items
        a.period_rules.items a.room_rules.items a.weights) };
}

impl Instance {
    /// Returns the instance of these lists, which are copied. `Range`: a limit doesn't hold; then
    /// `NoSuch`: a rule names an exam that doesn't exist; then `NoMemory`.
    pub fn new(
        alloc: Global,
        exams: &[Exam],
        periods: &[Period],
        rooms: &[Room],
        period_rules: &[PeriodRule],
        room_rules: &[RoomRule],
        weights: Weights,
    ) -> Result<Instance, ModelFault>
        ensures made { IfOk result (λ made. made ≡ session exams.now periods.now rooms.now
            period_rules.now room_rules.now weights) }
        ensures kept { IfOk result IsInstance }
        ensures refused { IfErr result (RefusesSession (session exams.now periods.now rooms.now
            period_rules.now room_rules.now weights)) }
    {
        if !in_limits(exams, periods, rooms, period_rules, room_rules, &weights) {
            return Err(ModelFault::Range);
        }
        if !numbers_exist(exams.len(), period_rules, room_rules) {
            return Err(ModelFault::NoSuch);
        }
        Ok(Instance {
            exams: exams.to_vec(alloc)?,
            periods: periods.to_vec(alloc)?,
            rooms: rooms.to_vec(alloc)?,
            period_rules: period_rules.to_vec(alloc)?,
            room_rules: room_rules.to_vec(alloc)?,
            weights,
        })
    }

    /// Returns the instance of these lists. Their limits are already checked, and their rules name
    /// only exams that exist.
    pub fn of(
        exams: Vec<Exam>,
        periods: Vec<Period>,
        rooms: Vec<Room>,
        period_rules: Vec<PeriodRule>,
        room_rules: Vec<RoomRule>,
        weights: Weights,
    ) -> Instance
        requires kept { IsInstance (session exams.items periods.items rooms.items
            period_rules.items room_rules.items weights) }
        ensures made { result ≡ session exams.items periods.items rooms.items
            period_rules.items room_rules.items weights }
    {
        Instance {
            exams,
            periods,
            rooms,
            period_rules,
            room_rules,
            weights,
        }
    }

    /// Returns the exam with that number, as it was passed.
    pub fn exam(&self, exam: ExamNo) -> Exam
        requires exists { exam < length self.now.exams }
        ensures { slice_get self.now.exams exam ≡ Some result }
    {
        self.exams[exam.get() as usize]
    }

    /// Returns the period with that number, as it was passed.
    pub fn period(&self, period: PeriodNo) -> Period
        requires exists { period < length self.now.periods }
        ensures { slice_get self.now.periods period ≡ Some result }
    {
        self.periods[period.get() as usize]
    }

    /// Returns the room with that number, as it was passed.
    pub fn room(&self, room: RoomNo) -> Room
        requires exists { room < length self.now.rooms }
        ensures { slice_get self.now.rooms room ≡ Some result }
    {
        self.rooms[room.get() as usize]
    }

    /// Returns how many exams there are, 1 to 2,000.
    pub fn exams(&self) -> u32
        ensures count { result ≡ length self.now.exams }
        ensures kept { IsInstance self.now }
    {
        self.exams.len() as u32
    }

    /// Returns how many periods there are, 1 to 200.
    pub fn periods(&self) -> u32
        ensures count { result ≡ length self.now.periods }
        ensures kept { IsInstance self.now }
    {
        self.periods.len() as u32
    }

    /// Returns how many rooms there are, 1 to 200.
    pub fn rooms(&self) -> u32
        ensures count { result ≡ length self.now.rooms }
        ensures kept { IsInstance self.now }
    {
        self.rooms.len() as u32
    }

    /// Returns the index of a place in a table with a row of rooms for each period.
    pub fn slot_of(&self, place: Place) -> usize
        requires period { place.period < length self.now.periods }
        requires room { place.room < length self.now.rooms }
        ensures slot { result ≡ slot_of (length self.now.rooms) place }
        ensures within { result < length self.now.periods * length self.now.rooms }
    {
        self.lemma_limits();
        let period = place.period.get() as usize;
        let room = place.room.get() as usize;
        period * self.rooms() as usize + room
    }

    /// Returns the rules on periods in the order in which they were passed; at most 5,000.
    pub fn period_rules(&self) -> &[PeriodRule]
        ensures rules { result.now ≡ self.now.period_rules }
        ensures kept { IsInstance self.now }
    {
        &self.period_rules
    }

    /// Returns the rules on rooms in the order in which they were passed; at most 5,000.
    pub fn room_rules(&self) -> &[RoomRule]
        ensures rules { result.now ≡ self.now.room_rules }
        ensures kept { IsInstance self.now }
    {
        &self.room_rules
    }

    /// Returns the weights of the institution, each 0 to 100,000.
    pub fn weights(&self) -> Weights
        ensures weights { result ≡ self.now.weights }
        ensures kept { IsInstance self.now }
    {
        self.weights
    }

    /// States what holds of each instance, for a proof: its numbers are within their limits, and its
    /// rules name exams that exist. It does nothing.
    pub fn lemma_limits(&self)
        ensures { IsInstance self.now }
    {
        let _ = &self.exams; // its invariant
    }
}
