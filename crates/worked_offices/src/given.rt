// What the examples have in common.
use std::fmt::Debug;
use std::process::Abort;

/// Ends the test if the two differ, and says in which case.
pub(crate) fn assert_same<T: PartialEq + Debug + Drop, C: Debug + Drop>(
    rt: &impl Abort,
    found: T,
    wanted: T,
    case: C,
) {
    assert_eq!(rt; found, wanted, "{case:?}");
}

/// Four exams, three periods of one day and one of another, and two rooms.
pub(crate) const SMALL: &[u8] = b"[Exams:4]\n120, 1, 2\n90, 2, 3\n120, 3\n60, 1\n[Periods:4]\n\
    15:04:2005, 09:30:00, 120, 0\n15:04:2005, 14:00:00, 120, 0\n15:04:2005, 17:00:00, 90, 10\n\
    18:04:2005, 09:30:00, 120, 5\n[Rooms:2]\n3, 0\n2, 7\n[PeriodHardConstraints]\n1, AFTER, 0\n\
    [RoomHardConstraints]\n[InstitutionalWeightings]\nTWOINAROW,7\nTWOINADAY,5\nPERIODSPREAD,3\n\
    NONMIXEDDURATIONS,10\nFRONTLOAD,1,2,4\n";

/// A timetable of the small session.
pub(crate) const SOLUTION: &[u8] = b"0, 0\n1, 0\n3, 1\n2, 0\n";
