// The texts of dates and times of day for candidates.
ghost use Rattle.std.specs.Prelude.{◌≡◌, IfOk};
ghost use Rattle.office_replies.specs.DayTexts.{date_text, start_text};

use arrayvec::ArrayString;
use exam_calendar::Date;
use office_model::ShownPlace;
use std::fmt::{self, Write};

// Returns a date as `YYYY-MM-DD`. A date has at most 13 bytes, so it always fits.
pub(crate) fn date_text(date: Date) -> Result<ArrayString<16>, fmt::Error>
    ensures { IfOk result (λ text. text.bytes ≡ date_text date) }
{
    let Date { year, month, day } = date;
    let mut text = ArrayString::new();
    write!(text, "{year:04}-{month:02}-{day:02}")?;
    Ok(text)
}

// Returns the start of an exam at a place, as `HH:MM:SS`. It has at most 11 bytes.
pub(crate) fn start_text(at: ShownPlace) -> Result<ArrayString<16>, fmt::Error>
    ensures { IfOk result (λ text. text.bytes ≡ start_text at) }
{
    let (hour, minute, second) = (at.hour, at.minute, at.second);
    let mut text = ArrayString::new();
    write!(text, "{hour:02}:{minute:02}:{second:02}")?;
    Ok(text)
}
