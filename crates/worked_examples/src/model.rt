// Numbers and dates.
use crate::given::assert_same;
use exam_model::{Date, StudentNo};

#[test]
fn numbers_end_at_their_limits(rt: HostRuntime) {
    for (number, wanted) in [(0, true), (999_999_999, true), (1_000_000_000, false)] {
        assert_same(&rt, StudentNo::new(number).is_some(), wanted, number);
    }
}

#[test]
fn the_calendar_has_dates(rt: HostRuntime) {
    for (year, month, day, wanted) in [
        (2004, 2, 29, true),
        (2005, 2, 29, false),
        (1900, 2, 29, false),
        (2005, 4, 31, false),
        (2005, 13, 1, false),
        (2005, 1, 0, false),
        (1, 1, 1, true),
        (9999, 12, 31, true),
        (0, 1, 1, false),
        (10000, 1, 1, false),
    ] {
        let found = Date { year, month, day };
        assert_same(&rt, found.exists(), wanted, found);
    }
}
