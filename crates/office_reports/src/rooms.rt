// The use of the rooms: a line for each room and period with an exam.
ghost use Rattle.std.specs.Prelude.{◌≡◌, ◌<◌, ◌*◌, ◌++◌, length, Some, IfOk, OnOk, string_bytes};
ghost use Rattle.exam_model.specs.Fits.{PlaceExists};
ghost use Rattle.office_reports.specs.Rooms.{room_line, rooms_text};
ghost use Rattle.office_reports.specs.Slots.{entry_line, entry_lines};

use crate::slots::{exams_by_slot, seats_by_slot};
use exam_model::{Instance, Timetable};
use exam_publish::SeatRow;
use exam_rules::ExamList;
use exam_terms::{ExamNo, PeriodNo, Place, RoomNo};
use std::alloc::{AllocError, Global};

/// Returns the report on the rooms: a heading, then a line for each room and period with an exam,
/// by period and then by room: both numbers, how many of the seats are there, the room's capacity,
/// and the exams. An exam whose room or period doesn't exist in the instance has no line.
pub fn rooms_report(
    alloc: Global,
    instance: &Instance,
    timetable: &Timetable,
    seats: &[SeatRow],
) -> Result<String, AllocError>
    ensures { IfOk result (λ text.
        string_bytes text ≡ rooms_text instance.now timetable.now seats.now) }
{
    let exams = exams_by_slot(alloc, instance, timetable)?;
    let used = seats_by_slot(alloc, instance, seats)?;
    let mut text = String::from_str(alloc, "per room    used     cap  exams\n")?;
    for period in 0..instance.periods() {
        add_period(&mut text, instance, &exams, &used, PeriodNo::new(period))?;
    }
    Ok(text)
}

// Adds the lines of a period.
fn add_period(
    text: &mut String,
    instance: &Instance,
    exams: &[ExamList],
    used: &[usize],
    period: PeriodNo,
) -> Result<(), AllocError>
    requires period { period < length instance.now.periods }
    requires exams { length exams.now ≡ length instance.now.periods * length instance.now.rooms }
    requires used { length used.now ≡ length instance.now.periods * length instance.now.rooms }
    ensures { OnOk result (string_bytes text.new ≡ string_bytes text.old
        ++ entry_lines instance.now exams.now used.now period) }
{
    for room in 0..instance.rooms() {
        let room = RoomNo::new(room);
        add_place(text, instance, exams, used, &Place { period, room })?;
    }
    Ok(())
}

// Adds the line of a place, if an exam is there.
fn add_place(
    text: &mut String,
    instance: &Instance,
    exams: &[ExamList],
    used: &[usize],
    place: &Place,
) -> Result<(), AllocError>
    requires place { PlaceExists instance.now (Some place.now) }
    requires exams { length exams.now ≡ length instance.now.periods * length instance.now.rooms }
    requires used { length used.now ≡ length instance.now.periods * length instance.now.rooms }
    ensures { OnOk result (string_bytes text.new ≡ string_bytes text.old
        ++ entry_line instance.now exams.now used.now place.now) }
{
    let slot = instance.slot_of(*place);
    let here = exams[slot].as_slice();
    if here.is_empty() {
        return Ok(());
    }
    let room = instance.room(place.room);
    add_line(text, place, used[slot], room.capacity, here)
}

// Adds a line: the numbers in columns, and then the exams.
fn add_line(
    text: &mut String,
    place: &Place,
    used: usize,
    capacity: u32,
    exams: &[ExamNo],
) -> Result<(), AllocError>
    ensures { OnOk result (string_bytes text.new
        ≡ string_bytes text.old ++ room_line place.now used capacity exams.now) }
{
    let period = place.period.get();
    let room = place.room.get();
    write!(text, "{period:3}{room:5}{used:8}{capacity:8} ")?;
    for exam in exams {
        let exam = exam.get();
        write!(text, " {exam}")?;
    }
    text.push_str("\n")
}
