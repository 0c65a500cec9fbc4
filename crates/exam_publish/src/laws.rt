// Laws of a publication: functions with no code, whose contracts are the laws.
ghost use Rattle.std.specs.Prelude.{◌≡◌, ℕ, false, List, [], None, length};
ghost use Rattle.exam_model.specs.Enrolments.{Enrolled, AreEnrolments};
ghost use Rattle.exam_model.specs.Fits.{Fits};
ghost use Rattle.exam_model.specs.Instance.{Session, IsInstance};
ghost use Rattle.exam_model.specs.Pairs.{pairs_of};
ghost use Rattle.exam_model.specs.Timetable.{Placing};
ghost use Rattle.exam_publish.specs.declared.seat_row.SeatRow.{SeatRow};
ghost use Rattle.exam_publish.specs.AddUp.{AddUpTo, AreSmall};
ghost use Rattle.exam_publish.specs.Changed.{is_changed, rows_of};
ghost use Rattle.exam_publish.specs.Permit.{publish_refusal};
ghost use Rattle.exam_publish.specs.Published.{AreSeats};
ghost use Rattle.exam_publish.specs.Rows.{AreNumbered, ArePublishedRows, enrolled_in};
ghost use Rattle.exam_publish.specs.Numbered.{numbered_rows};
ghost use Rattle.exam_publish.specs.Seats.{AreSeated, seat_rows};
ghost use Rattle.exam_publish.specs.Shares.{share_of, shares_of};
ghost use Rattle.exam_score.specs.Track.{track};

/// The shares of a timetable add up to its penalty, in total and part by part, with the enrolments
/// that the rows represent.
pub fn shares_add_up()
    ensures { (I : Session) (rows : List SeatRow) (T : Placing) → IsInstance I
        → ArePublishedRows I rows T → AreNumbered rows
        → AddUpTo (track I (enrolled_in (length I.exams) rows) T) (shares_of I rows T) }
{}

/// Each share of a timetable is below 2^62, and so is their sum.
pub fn shares_are_small()
    ensures { (I : Session) (rows : List SeatRow) (T : Placing) → IsInstance I
        → ArePublishedRows I rows T → AreNumbered rows → AreSmall (shares_of I rows T) }
{}

/// The seats of a timetable that may be published are the rows of a publication, for any old rows:
/// one for each enrolment, at its exam's place, with a seat of the room that no other row has.
pub fn seats_are_rows()
    ensures { (I : Session) (E : Enrolled) (T : Placing) (old : List SeatRow) → AreEnrolments E
        → Fits I E T → publish_refusal I E T ≡ None → AreSeated I old
        → AreSeats I E T (seat_rows (pairs_of E) T old) }
{}

/// The rows of a timetable that may be published represent the enrolments at its publication, for
/// any old rows.
pub fn seated_as_enrolled()
    ensures { (I : Session) (E : Enrolled) (T : Placing) (old : List SeatRow) → IsInstance I
        → AreEnrolments E → Fits I E T → publish_refusal I E T ≡ None → AreSeated I old
        → enrolled_in (length I.exams) (seat_rows (pairs_of E) T old) ≡ E }
{}

/// If there are no old rows, seats are numbered from 1 in each room and period, by exam and then by
/// student.
pub fn numbered_at_first()
    ensures { (E : Enrolled) (T : Placing) → AreEnrolments E
        → seat_rows (pairs_of E) T [] ≡ numbered_rows (pairs_of E) T }
{}

/// A candidate whose rows don't change has the same share as before.
pub fn unchanged_share_stays()
    ensures { (I : Session) (old new : List SeatRow) (s : ℕ) → is_changed old new s ≡ false
        → share_of I.periods I.weights (rows_of s old)
        ≡ share_of I.periods I.weights (rows_of s new) }
{}
