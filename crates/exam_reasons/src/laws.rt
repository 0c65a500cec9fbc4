// Laws of the reasons: functions with no code, whose contracts are the laws.
ghost use Rattle.exam_model.specs.Enrolments.{AreEnrolments, Enrolled};
ghost use Rattle.exam_model.specs.Fits.{Fits};
ghost use Rattle.exam_model.specs.Instance.{Session};
ghost use Rattle.exam_model.specs.Timetable.{Placing};
ghost use Rattle.exam_reasons.specs.AddUp.{ReasonsAddUp};
ghost use Rattle.exam_reasons.specs.Students.{OwnReasonsAddUp};
ghost use Rattle.std.specs.Prelude.{ℕ};

/// The points of the reasons of each part add up to that part of the penalty.
pub fn reasons_add_up()
    ensures { (I : Session) (E : Enrolled) (T : Placing) → Fits I E T → ReasonsAddUp I E T }
{}

/// The points of a student's reasons of each kind add up to the student's share of the penalty.
pub fn own_reasons_add_up()
    ensures { (I : Session) (E : Enrolled) (T : Placing) (s : ℕ) → AreEnrolments E
        → OwnReasonsAddUp I E T s }
{}
