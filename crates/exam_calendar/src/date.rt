// Dates.
ghost use Rattle.std.specs.Prelude.{◌≡◌, IsTrue};
ghost use Rattle.exam_calendar.specs.Dates.{are_a_day_apart, day_number, is_civil};

use jiff::civil;

/// A date by its numbers; it needn't exist in the calendar.
#[derive(Clone, Copy, Debug, PartialEq, Eq)]
pub struct Date {
    pub year: u16,
    /// From 1.
    pub month: u8,
    /// The day of the month, from 1.
    pub day: u8,
}

impl Date {
    /// Returns whether the date exists in the calendar, in the years 1 to 9999.
    pub fn exists(self) -> bool
        ensures { result ≡ is_civil self }
    {
        let is_near = (1..=9999).contains(&self.year) && self.month <= 12 && self.day <= 31;
        is_near && civil::Date::new(self.year as i16, self.month as i8, self.day as i8).is_ok()
    }

    /// Returns whether the dates are one day apart, in either order.
    pub fn is_a_day_from(self, other: Date) -> bool
        requires first { IsTrue (is_civil self) }
        requires second { IsTrue (is_civil other) }
        ensures { result ≡ are_a_day_apart self other }
    {
        self.day_number().abs_diff(other.day_number()) == 1
    }

    // Returns the days from 1 January 1970 to the date.
    fn day_number(self) -> i32
        requires exists { IsTrue (is_civil self) }
        ensures { result ≡ day_number self }
    {
        let date = civil::Date::new(self.year as i16, self.month as i8, self.day as i8);
        date.unwrap().to_plain().to_unix_epoch_day()
    }
}
