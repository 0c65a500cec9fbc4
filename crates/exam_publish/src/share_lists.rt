// The shares of a publication: contracts see them as their lists.
ghost use Rattle.std.specs.Prelude.{◌≡◌, ◌<◌, ◌≤◌, ◌^◌, IfSome, IfNone};
ghost use Rattle.exam_publish.specs.AddUp.{AddUpTo, added_up};
ghost use Rattle.exam_score.specs.Penalty.{Penalty, total_of};

use crate::sums::{room_sums, student_sums, sum_of};
use exam_model::StudentNo;
use exam_score::{Parts, PersonalParts};
use std::marker::Model;

/// A room's share: its penalty over all exams that are in it, and separately its mixed durations
/// over all periods.
#[derive(Clone, Copy, Debug, PartialEq, Eq)]
pub struct RoomShare {
    pub penalty: u64,
    pub mixed: u64,
}

/// The shares of a publication's penalty.
#[derive(Drop)]
pub struct Shares {
    students: Vec<(StudentNo, PersonalParts)>,
    exams: Vec<u64>,
    periods: Vec<u64>,
    rooms: Vec<RoomShare>,
}

impl Model for Shares {
    ghost use Rattle.exam_publish.specs.Shares.{Sharing};

    ghost Value = { Sharing };

    ghost view = { λ a. record {
      students = a.students.items;
      exams = a.exams.items;
      periods = a.periods.items;
      rooms = a.rooms.items;
    } };
}

impl Shares {
    /// Returns the shares of these lists.
    pub fn of(
        students: Vec<(StudentNo, PersonalParts)>,
        exams: Vec<u64>,
        periods: Vec<u64>,
        rooms: Vec<RoomShare>,
    ) -> Shares
        ensures { result ≡ record {
          students = students.items;
          exams = exams.items;
          periods = periods.items;
          rooms = rooms.items;
        } }
    {
        Shares {
            students,
            exams,
            periods,
            rooms,
        }
    }

    /// Returns the sum of all shares, part by part, as a penalty; `None` if it reaches 2^62.
    pub fn parts(&self) -> Option<Parts>
        ensures some { IfSome result (λ parts. parts ≡ added_up self.now) }
        ensures within { IfSome result (λ parts. total_of parts < 2 ^ 62) }
        ensures none { IfNone result (2 ^ 62 ≤ total_of (added_up self.now)) }

        // The shares of a timetable add up to its penalty.
        ensures penalty { (penalty : Penalty) → AddUpTo penalty self.now
            → IfSome result (λ parts. parts ≡ penalty) }
    {
        let students = student_sums(&self.students)?;
        let front = sum_of(&self.exams)?;
        let period = sum_of(&self.periods)?;
        let rooms = room_sums(&self.rooms)?;
        Parts::new(
            students.row,
            students.day,
            students.spread,
            students.night,
            rooms.mixed,
            front,
            period,
            rooms.penalty,
        )
    }

    /// Returns the share of each candidate with a seat: the cost of their exams; candidates
    /// ascending.
    pub fn students(&self) -> &[(StudentNo, PersonalParts)]
        ensures { result.now ≡ self.now.students }
    {
        &self.students
    }

    /// Returns the share of each exam in the front load, by its number.
    pub fn exams(&self) -> &[u64]
        ensures { result.now ≡ self.now.exams }
    {
        &self.exams
    }

    /// Returns the cost of each period over all exams in it, by its number.
    pub fn periods(&self) -> &[u64]
        ensures { result.now ≡ self.now.periods }
    {
        &self.periods
    }

    /// Returns the share of each room, by its number.
    pub fn rooms(&self) -> &[RoomShare]
        ensures { result.now ≡ self.now.rooms }
    {
        &self.rooms
    }
}
