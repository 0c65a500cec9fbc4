// Laws of the penalty: functions with no code, whose contracts are the laws.
ghost use Rattle.std.specs.Prelude.{◌≡◌, ◌<◌, ◌^◌, ℕ, List, Option, sum_by};
ghost use Rattle.exam_model.specs.Enrolments.{Enrolled, AreEnrolments};
ghost use Rattle.exam_model.specs.Fits.{Fits};
ghost use Rattle.exam_model.specs.Instance.{Session, IsInstance};
ghost use Rattle.exam_model.specs.Pairs.{pairs_of};
ghost use Rattle.exam_model.specs.Timetable.{Placing};
ghost use Rattle.exam_score.specs.Penalty.{total_of};
ghost use Rattle.exam_score.specs.Regrouping.{pair_part, candidate_cost, periods_of, AreStudentsOf};
ghost use Rattle.exam_score.specs.Track.{track};

/// For any cost of two periods, the penalty by pairs of exams equals the penalty by students: over
/// all pairs of exams, the number of students who sit both, times the cost of their periods, and
/// over all students, the cost of the pairs of their exams.
pub fn regrouping()
    ensures { (cost : ℕ → ℕ → ℕ) (E : Enrolled) (at : ℕ → Option ℕ) (students : List ℕ)
        → AreEnrolments E → AreStudentsOf E students
        → pair_part cost E at
        ≡ sum_by (λ s. candidate_cost cost (periods_of (pairs_of E) at s)) students }
{}

/// The total of a timetable's penalty is below 2^62, so it fits into `Parts`.
pub fn penalty_is_small()
    ensures { (I : Session) (E : Enrolled) (T : Placing) → IsInstance I → AreEnrolments E
        → Fits I E T → total_of (track I E T) < 2 ^ 62 }
{}
