// The numbers of a penalty: contracts see them as a record.
ghost use Rattle.std.specs.Prelude.{◌≡◌, ◌+◌, ◌^◌, ◌<◌, ◌≤◌, Some, None, IfSome, IfNone};
ghost use Rattle.exam_score.specs.Exchanges.{CannotExchange, IsExchanged};
ghost use Rattle.exam_score.specs.Penalty.{Penalty, pairs_in, total_of, with_pairs};

use crate::personal_parts::PersonalParts;
use crate::places::PlaceSums;
use std::marker::Model;

// Totals are below this number.
pub(crate) const TOTAL_LIMIT: u64 = 1 << 62;

/// The eight parts of a timetable's penalty: seven by ITC 2007 (soft constraints), and our own over
/// night. The total is below 2^62.
#[derive(Clone, Copy, Debug, PartialEq, Eq)]
pub struct Parts {
    pairs: PersonalParts,
    mixed: u64,
    front: u64,
    period: u64,
    room: u64,
}

impl Model for Parts {
    ghost Value = { Penalty };

    ghost view = { λ a. with_pairs a.pairs a.mixed a.front a.period a.room };

    ghost invariant = { λ a. total_of (with_pairs a.pairs a.mixed a.front a.period a.room)
        < 2 ^ 62 };

    ghost inverse = { λ p. record {
      pairs = pairs_in p;
      mixed = p.mixed;
      front = p.front;
      period = p.period;
      room = p.room;
    } };
}

impl Parts {
    /// Returns the parts with these numbers, unless their total reaches 2^62.
    pub fn new(
        row: u64,
        day: u64,
        spread: u64,
        night: u64,
        mixed: u64,
        front: u64,
        period: u64,
        room: u64,
    ) -> Option<Parts>
        ensures made { IfSome result (λ parts. parts ≡ record {
          row = row;
          day = day;
          spread = spread;
          night = night;
          mixed = mixed;
          front = front;
          period = period;
          room = room;
        }) }
        ensures within { IfSome result (λ parts. total_of parts < 2 ^ 62) }
        ensures beyond { IfNone result
            (2 ^ 62 ≤ row + day + spread + night + mixed + front + period + room) }
    {
        let pairs = PersonalParts::new(row, day, spread, night)?;
        // A sum beyond u64 becomes the greatest u64, which is beyond the limit too.
        let exams = pairs.total().saturating_add(mixed).saturating_add(front);
        let total = exams.saturating_add(period).saturating_add(room);
        if total < TOTAL_LIMIT {
            Some(Parts {
                pairs,
                mixed,
                front,
                period,
                room,
            })
        } else {
            None
        }
    }

    // Returns the same, if the total is known to be within the limit.
    pub(crate) fn of(pairs: PersonalParts, mixed: u64, front: u64, places: PlaceSums) -> Parts
        requires { total_of (with_pairs pairs mixed front places.periods places.rooms) < 2 ^ 62 }
        ensures { result ≡ with_pairs pairs mixed front places.periods places.rooms }
    {
        Parts {
            pairs,
            mixed,
            front,
            period: places.periods,
            room: places.rooms,
        }
    }

    // Replaces the old amounts by the new ones. `None`: a part would be negative, or the total
    // would reach the limit.
    pub(crate) fn exchange(self, goes: Parts, comes: Parts) -> Option<Parts>
        ensures made { IfSome result (IsExchanged self goes comes) }
        ensures none { IfNone result (CannotExchange self goes comes) }
    {
        let (pairs, less, more) = (self.pairs, goes.pairs, comes.pairs);
        Parts::new(
            exchanged_amount(pairs.row(), less.row(), more.row())?,
            exchanged_amount(pairs.day(), less.day(), more.day())?,
            exchanged_amount(pairs.spread(), less.spread(), more.spread())?,
            exchanged_amount(pairs.night(), less.night(), more.night())?,
            exchanged_amount(self.mixed, goes.mixed, comes.mixed)?,
            exchanged_amount(self.front, goes.front, comes.front)?,
            exchanged_amount(self.period, goes.period, comes.period)?,
            exchanged_amount(self.room, goes.room, comes.room)?,
        )
    }

    /// Returns the part for exams in a row.
    pub fn row(&self) -> u64
        ensures { result ≡ self.now.row }
    {
        self.pairs.row()
    }

    /// Returns the part for exams in a day.
    pub fn day(&self) -> u64
        ensures { result ≡ self.now.day }
    {
        self.pairs.day()
    }

    /// Returns the part for exams within the period spread.
    pub fn spread(&self) -> u64
        ensures { result ≡ self.now.spread }
    {
        self.pairs.spread()
    }

    /// Returns the part for exams over night.
    pub fn night(&self) -> u64
        ensures { result ≡ self.now.night }
    {
        self.pairs.night()
    }

    /// Returns the part for mixed durations.
    pub fn mixed(&self) -> u64
        ensures { result ≡ self.now.mixed }
    {
        self.mixed
    }

    /// Returns the part for front load.
    pub fn front(&self) -> u64
        ensures { result ≡ self.now.front }
    {
        self.front
    }

    /// Returns the part for the exams' periods.
    pub fn period(&self) -> u64
        ensures { result ≡ self.now.period }
    {
        self.period
    }

    /// Returns the part for the exams' rooms.
    pub fn room(&self) -> u64
        ensures { result ≡ self.now.room }
    {
        self.room
    }

    /// Returns the sum of all eight parts.
    pub fn total(&self) -> u64
        ensures total { result ≡ total_of self.now }
        ensures within { result < 2 ^ 62 }
    {
        let pairs = self.pairs.total();
        let exams = self.mixed + self.front;
        pairs + exams + self.period + self.room
    }
}

fn exchanged_amount(old: u64, goes: u64, comes: u64) -> Option<u64>
    requires small { old + comes < 2 ^ 63 }
    ensures some { IfSome result (λ new. new + goes ≡ old + comes) }
    ensures none { IfNone result (old + comes < goes) }
{
    (old + comes).checked_sub(goes)
}
