// Rows and students in order, and shares made from lists.
use crate::given::{assert_same, student};
use exam_model::{ExamNo, PeriodNo, RoomNo};
use exam_publish::{SeatRow, Shares, in_order, is_before, numbers_identify};
use std::alloc::{AllocError, Global};
use std::test::Fail;

// Returns a row of an exam and a student; the seat, the period and the room have one number.
fn row((exam, number): (u32, u32), seat: u32) -> Result<SeatRow, Fail> {
    Ok(SeatRow {
        student: student(number)?,
        exam: ExamNo::new(exam),
        period: PeriodNo::new(seat),
        room: RoomNo::new(seat),
        seat,
    })
}

#[test]
fn rows_go_by_exam_and_then_by_student(rt: HostRuntime) -> Result<(), Fail> {
    // the exams and students of two rows, and whether the first is before the second
    let cases = [
        ((0, 2), (1, 1), true),
        ((1, 1), (0, 2), false),
        ((1, 2), (1, 3), true),
        ((1, 3), (1, 2), false),
        ((1, 2), (1, 2), false),
    ];
    for (one, other, wanted) in cases {
        let pair = [row(one, 2)?, row(other, 1)?];
        numbers_identify(&pair);
        assert_same(&rt, is_before(&pair[0], &pair[1]), wanted, (one, other));
    }
    Ok(())
}

#[test]
fn students_in_order_appear_once(rt: HostRuntime) -> Result<(), Fail> {
    let (one, two, three) = (student(1)?, student(2)?, student(3)?);
    let numbers = Vec::from_slice(rt.alloc(), &[three, one, three, two, one])?;
    let found = in_order(numbers);
    assert_same(
        &rt,
        found.as_slice(),
        [one, two, three].as_slice(),
        "students",
    );
    Ok(())
}

// Returns shares of one exam and one period.
fn shares_of(alloc: Global, front: u64, period: u64) -> Result<Shares, AllocError> {
    let exams = Vec::from_slice(alloc, &[front])?;
    let periods = Vec::from_slice(alloc, &[period])?;
    Ok(Shares::of(Vec::new(alloc), exams, periods, Vec::new(alloc)))
}

#[test]
fn shares_make_a_penalty_below_two_to_the_62(rt: HostRuntime) -> Result<(), Fail> {
    let most = (1u64 << 62) - 1;
    let cases = [
        (4, 15, Some((4, 15))),
        (most, 0, Some((most, 0))),
        (most, 1, None),
        (u64::MAX, 0, None),
    ];
    for (front, period, wanted) in cases {
        let shares = shares_of(rt.alloc(), front, period)?;
        let found = shares.parts().map(|parts| (parts.front(), parts.period()));
        assert_same(&rt, found, wanted, (front, period));
    }
    Ok(())
}
