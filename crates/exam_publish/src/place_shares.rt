// The shares of periods and rooms.
ghost use Rattle.std.specs.Prelude.{◌≡◌, length, map, IfOk};
ghost use Rattle.std.specs.List.{range_with_len};
ghost use Rattle.exam_model.specs.Fits.{Suits};
ghost use Rattle.exam_publish.specs.Shares.{period_shares, penalty_in, room_shares};

use crate::durations::{durations, mixed_in};
use crate::share_lists::RoomShare;
use exam_model::{ExamNo, Instance, RoomNo, Timetable};
use std::alloc::{AllocError, Global};

/// Returns each period's penalty, once for each exam that is in it.
pub(crate) fn period_shares(
    alloc: Global,
    instance: &Instance,
    timetable: &Timetable,
) -> Result<Vec<u64>, AllocError>
    requires { Suits instance.now timetable.now }
    ensures { IfOk result (λ shares. shares.items ≡ period_shares instance.now timetable.now) }
{
    let mut shares = vec![in alloc; 0u64; instance.periods() as usize]?;
    'exams: for exam in 0..instance.exams() {
        let Some(place) = timetable.get(ExamNo::new(exam)) else {
            continue;
        };
        let period = place.period.get() as usize;
        let share = shares[period] + u64::from(instance.period(place.period).penalty);
        shares[period] = share;
    }
    Ok(shares)
}

/// Returns each room's share: its penalties, and its mixed durations over all periods.
pub(crate) fn room_shares(
    alloc: Global,
    instance: &Instance,
    timetable: &Timetable,
) -> Result<Vec<RoomShare>, AllocError>
    requires { Suits instance.now timetable.now }
    ensures { IfOk result (λ shares. shares.items ≡ room_shares instance.now timetable.now) }
{
    instance.lemma_limits();
    let penalties = room_penalties(alloc, instance, timetable)?;
    let kinds = durations(alloc, instance, timetable)?;
    let mut shares = Vec::with_capacity(alloc, penalties.len())?;
    'rooms: for (room, penalty) in penalties.iter().enumerate() {
        shares.push(RoomShare {
            penalty: *penalty,
            mixed: mixed_in(instance, &kinds, RoomNo::new(room as u32)),
        })?;
    }
    Ok(shares)
}

// Returns each room's penalty, once for each exam that is in it.
fn room_penalties(
    alloc: Global,
    instance: &Instance,
    timetable: &Timetable,
) -> Result<Vec<u64>, AllocError>
    requires { Suits instance.now timetable.now }
    ensures { IfOk result (λ shares. shares.items ≡ map (penalty_in instance.now timetable.now)
        (range_with_len 0 (length instance.now.rooms))) }
{
    let mut shares = vec![in alloc; 0u64; instance.rooms() as usize]?;
    'exams: for exam in 0..instance.exams() {
        let Some(place) = timetable.get(ExamNo::new(exam)) else {
            continue;
        };
        let room = place.room.get() as usize;
        let share = shares[room] + u64::from(instance.room(place.room).penalty);
        shares[room] = share;
    }
    Ok(shares)
}
