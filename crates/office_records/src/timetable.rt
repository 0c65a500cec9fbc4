// Rows of the places of a draft.
ghost use Rattle.std.specs.Prelude.{◌≡◌, IfErr, IfOk, OnErr, OnOk, length};
ghost use Rattle.exam_model.specs.Timetable.{Placing};
ghost use Rattle.office_records.specs.Found.{AreSlots};
ghost use Rattle.office_records.specs.NextRow.{IsFree, IsSlotPlaced};

use crate::fault::RecordFault;
use exam_model::{ExamNo, Instance, PeriodNo, Place, RoomNo, Timetable};
use office_tables::tables::SlotRow;
use std::alloc::Global;

/// Returns the timetable of a draft from its rows among those of all drafts. `BadRows`: no
/// timetable has these rows.
pub fn timetable_of(
    alloc: Global,
    instance: &Instance,
    draft: u32,
    slots: &[SlotRow],
) -> Result<Timetable, RecordFault>
    ensures is { IfOk result (AreSlots instance.now draft slots.now) }
    ensures none { IfErr result (λ e. e ≡ RecordFault.BadRows
        → (T : Placing) → AreSlots instance.now draft slots.now T → ⊥) }
{
    let mut timetable = Timetable::new(alloc, instance.exams())?;
    for row in slots {
        if row.draft == draft {
            put_slot(&mut timetable, instance, *row)?;
        }
    }
    Ok(timetable)
}

// Places an exam that is not placed yet.
fn put_slot(timetable: &mut Timetable, instance: &Instance, row: SlotRow) -> Result<(), RecordFault>
    requires exams { length timetable.old ≡ length instance.now.exams }
    ensures put { OnOk result (IsSlotPlaced instance.now row timetable.old timetable.new) }
    ensures bad { OnErr result (IsFree instance.now row timetable.old → ⊥) }
    ensures fault { IfErr result (λ e. e ≡ RecordFault.BadRows) }
{
    let exam = ExamNo::new(row.exam);
    let place = Place {
        period: PeriodNo::new(row.period),
        room: RoomNo::new(row.room),
    };
    let room_exists = row.period < instance.periods() && row.room < instance.rooms();
    if row.exam >= instance.exams() || !room_exists || timetable.get(exam).is_some() {
        return Err(RecordFault::BadRows);
    }
    timetable.set(exam, place);
    Ok(())
}
