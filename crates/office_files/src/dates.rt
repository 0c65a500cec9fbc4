// Reading dates and times of day.
ghost use Rattle.std.specs.Prelude.{◌≡◌, ◌≤◌};
ghost use Rattle.office_files.specs.Dates.{digits_of, date_if_any, date_of, time_of};

use crate::fault::FaultKind;
use crate::numbers::number;
use crate::words::split_once;
use exam_calendar::Date;

/// Returns the date in a field, if it exists in the calendar.
pub(crate) fn date_of(text: &[u8]) -> Result<Date, FaultKind>
    ensures { result ≡ date_of text.now }
{
    let (day, others) = split_once(text, b':').ok_or(FaultKind::BadDate)?;
    let (month, year) = split_once(others, b':').ok_or(FaultKind::BadDate)?;
    let day = digits_of(FaultKind::BadDate, 1, 2, 99, day)?;
    let month = digits_of(FaultKind::BadDate, 1, 2, 99, month)?;
    let year = digits_of(FaultKind::BadDate, 4, 4, 9999, year)?;
    date_if_any(year, month, day).ok_or(FaultKind::BadDate)
}

/// Returns the time of day in a field: hours, minutes, seconds.
pub(crate) fn time_of(text: &[u8]) -> Result<(u8, u8, u8), FaultKind>
    ensures { result ≡ time_of text.now }
{
    let (hour, others) = split_once(text, b':').ok_or(FaultKind::BadTime)?;
    let (minute, second) = split_once(others, b':').ok_or(FaultKind::BadTime)?;
    let hour = digits_of(FaultKind::BadTime, 1, 2, 23, hour)?;
    let minute = digits_of(FaultKind::BadTime, 1, 2, 59, minute)?;
    let second = digits_of(FaultKind::BadTime, 1, 2, 59, second)?;
    Ok((hour as u8, minute as u8, second as u8))
}

// Returns a number with a least and a most number of digits, within the limit.
fn digits_of(
    fault: FaultKind,
    least: usize,
    most: usize,
    limit: u32,
    text: &[u8],
) -> Result<u32, FaultKind>
    ensures { result ≡ digits_of fault least most limit text.now }
{
    if text.len() < least || text.len() > most {
        return Err(fault);
    }
    match number(text, limit) {
        Ok(value) => Ok(value),
        Err(_) => Err(fault),
    }
}

// Returns the date with these numbers, if it exists in the calendar.
fn date_if_any(year: u32, month: u32, day: u32) -> Option<Date>
    requires year { year ≤ 9999 }
    requires month { month ≤ 99 }
    requires day { day ≤ 99 }
    ensures { result ≡ date_if_any year month day }
{
    let date = Date {
        year: year as u16,
        month: month as u8,
        day: day as u8,
    };
    if date.exists() { Some(date) } else { None }
}
