// The numbers of a personal penalty: contracts see them as a record.
ghost use Rattle.std.specs.Prelude.{◌≡◌, ◌+◌, ◌^◌, ◌<◌, ◌≤◌, Some, None, IfSome, IfNone};
ghost use Rattle.exam_score.specs.Penalty.{PersonalPenalty, personal_total, penalty_sum};

use crate::parts::TOTAL_LIMIT;
use std::marker::Model;

/// The cost of the pairs of one candidate's exams. The total is below 2^62.
#[derive(Clone, Copy, Debug, PartialEq, Eq)]
pub struct PersonalParts {
    row: u64,
    day: u64,
    spread: u64,
    night: u64,
}

impl Model for PersonalParts {
    ghost Value = { PersonalPenalty };

    ghost view = { λ a. record {
      row = a.row;
      day = a.day;
      spread = a.spread;
      night = a.night;
    } };

    ghost invariant = { λ a. a.row + a.day + a.spread + a.night < 2 ^ 62 };

    ghost inverse = { λ p. record {
      row = p.row;
      day = p.day;
      spread = p.spread;
      night = p.night;
    } };
}

impl PersonalParts {
    /// Returns the parts with these numbers, unless their total reaches 2^62.
    pub fn new(row: u64, day: u64, spread: u64, night: u64) -> Option<PersonalParts>
        ensures made { IfSome result (λ parts. parts ≡ record {
          row = row;
          day = day;
          spread = spread;
          night = night;
        }) }
        ensures within { IfSome result (λ parts. personal_total parts < 2 ^ 62) }
        ensures beyond { IfNone result (2 ^ 62 ≤ row + day + spread + night) }
    {
        let total = row
            .checked_add(day)?
            .checked_add(spread)?
            .checked_add(night)?;
        if total < TOTAL_LIMIT {
            Some(PersonalParts {
                row,
                day,
                spread,
                night,
            })
        } else {
            None
        }
    }

    // Returns the same, if the numbers are known to be small.
    pub(crate) fn of(row: u64, day: u64, spread: u64, night: u64) -> PersonalParts
        requires { row + day + spread + night < 2 ^ 62 }
        ensures { result ≡ record { row = row; day = day; spread = spread; night = night } }
    {
        PersonalParts {
            row,
            day,
            spread,
            night,
        }
    }

    // Returns the sum of both, which is known to be small.
    pub(crate) fn plus(self, more: PersonalParts) -> PersonalParts
        requires { personal_total self + personal_total more < 2 ^ 62 }
        ensures { result ≡ penalty_sum self more }
    {
        PersonalParts {
            row: self.row + more.row,
            day: self.day + more.day,
            spread: self.spread + more.spread,
            night: self.night + more.night,
        }
    }

    /// Returns the part for exams in a row.
    pub fn row(&self) -> u64
        ensures { result ≡ self.now.row }
    {
        self.row
    }

    /// Returns the part for exams in a day.
    pub fn day(&self) -> u64
        ensures { result ≡ self.now.day }
    {
        self.day
    }

    /// Returns the part for exams within the period spread.
    pub fn spread(&self) -> u64
        ensures { result ≡ self.now.spread }
    {
        self.spread
    }

    /// Returns the part for exams over night.
    pub fn night(&self) -> u64
        ensures { result ≡ self.now.night }
    {
        self.night
    }

    /// Returns the sum of all four parts.
    pub fn total(&self) -> u64
        ensures total { result ≡ personal_total self.now }
        ensures within { result < 2 ^ 62 }
    {
        let is_same_day = self.row + self.day;
        is_same_day + self.spread + self.night
    }

    /// States the limit of each personal penalty, for a proof. It does nothing.
    pub fn lemma_limit(&self)
        ensures { personal_total self.now < 2 ^ 62 }
    {
        let _ = &self.row; // its invariant
    }
}
