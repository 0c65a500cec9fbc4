// Sums of shares; `None` if one is beyond u64.
ghost use Rattle.std.specs.Prelude.{◌≡◌, ◌+◌, ◌≤◌, ◌^◌, sum, sum_by, IfSome, IfNone};

use crate::share_lists::RoomShare;
use exam_model::StudentNo;
use exam_score::PersonalParts;

pub(crate) fn sum_of(numbers: &[u64]) -> Option<u64>
    ensures some { IfSome result (λ n. n ≡ sum numbers.now) }
    ensures none { IfNone result (2 ^ 64 ≤ sum numbers.now) }
{
    let mut total: u64 = 0;
    'numbers: for number in numbers {
        total = total.checked_add(*number)?;
    }
    Some(total)
}

/// The sums of all students' shares for a row, a day, the spread and a night.
#[derive(Clone, Copy)]
pub(crate) struct StudentSums {
    pub row: u64,
    pub day: u64,
    pub spread: u64,
    pub night: u64,
}

pub(crate) fn student_sums(shares: &[(StudentNo, PersonalParts)]) -> Option<StudentSums>
    ensures row { IfSome result (λ s. s.row ≡ sum_by (λ share. share.1.row) shares.now) }
    ensures day { IfSome result (λ s. s.day ≡ sum_by (λ share. share.1.day) shares.now) }
    ensures spread { IfSome result (λ s. s.spread ≡ sum_by (λ share. share.1.spread) shares.now) }
    ensures night { IfSome result (λ s. s.night ≡ sum_by (λ share. share.1.night) shares.now) }
    ensures none { IfNone result (2 ^ 64 ≤ sum_by (λ share. share.1.row) shares.now
        + sum_by (λ share. share.1.day) shares.now + sum_by (λ share. share.1.spread) shares.now
        + sum_by (λ share. share.1.night) shares.now) }
{
    let mut row: u64 = 0;
    let mut day: u64 = 0;
    let mut spread: u64 = 0;
    let mut night: u64 = 0;
    'shares: for share in shares {
        row = row.checked_add(share.1.row())?;
        day = day.checked_add(share.1.day())?;
        spread = spread.checked_add(share.1.spread())?;
        night = night.checked_add(share.1.night())?;
    }
    Some(StudentSums {
        row,
        day,
        spread,
        night,
    })
}

pub(crate) fn room_sums(shares: &[RoomShare]) -> Option<RoomShare>
    ensures penalty { IfSome result (λ s. s.penalty ≡ sum_by (λ share. share.penalty) shares.now) }
    ensures mixed { IfSome result (λ s. s.mixed ≡ sum_by (λ share. share.mixed) shares.now) }
    ensures none { IfNone result (2 ^ 64 ≤ sum_by (λ share. share.penalty) shares.now
        + sum_by (λ share. share.mixed) shares.now) }
{
    let mut penalty: u64 = 0;
    let mut mixed: u64 = 0;
    'shares: for share in shares {
        penalty = penalty.checked_add(share.penalty)?;
        mixed = mixed.checked_add(share.mixed)?;
    }
    Some(RoomShare { penalty, mixed })
}
