// The seat list: the seat of each candidate in each exam.
ghost use Rattle.std.specs.Prelude.{◌≡◌, ◌++◌, ◌∷◌, IfOk, OnOk, decimal, string_bytes};
ghost use Rattle.office_reports.specs.SeatList.{seat_line, seats_text};

use exam_publish::SeatRow;
use itoa::Buffer;
use std::alloc::{AllocError, Global};

/// Returns the text of the seat list: a heading, then a line for each of these seats, in their
/// order, with the candidate, the exam, its period and room, and the seat.
pub fn seats_report(alloc: Global, seats: &[SeatRow]) -> Result<String, AllocError>
    ensures { IfOk result (λ text. string_bytes text ≡ seats_text seats.now) }
{
    let mut text = String::from_str(alloc, "student,exam,period,room,seat\n")?;
    for row in seats {
        add_seat(&mut text, row)?;
    }
    Ok(text)
}

// Adds the line of a seat.
fn add_seat(text: &mut String, row: &SeatRow) -> Result<(), AllocError>
    ensures { OnOk result (string_bytes text.new ≡ string_bytes text.old ++ seat_line row.now) }
{
    text.push_str(Buffer::new().format(row.student.get()))?;
    add_field(text, row.exam.get())?;
    add_field(text, row.period.get())?;
    add_field(text, row.room.get())?;
    add_field(text, row.seat)?;
    text.push_str("\n")
}

// Adds a number after a comma. The formatting of `write!` takes several times as long.
fn add_field(text: &mut String, number: u32) -> Result<(), AllocError>
    ensures { OnOk result (string_bytes text.new ≡ string_bytes text.old ++ 44 ∷ decimal number) }
{
    text.push_str(",")?;
    text.push_str(Buffer::new().format(number))
}
