// Laws of enrolments: functions with no code, whose contracts are the laws.
ghost use Rattle.std.specs.Prelude.{◌≡◌, ℕ, length};
ghost use Rattle.exam_model.specs.Changes.{ChangesOnly, with_pair, without_pair};
ghost use Rattle.exam_model.specs.Enrolments.{Enrolled, AreEnrolments, has};
ghost use Rattle.exam_model.specs.Pairs.{ArePairsOf, pairs_of};

/// Enrolments are determined by their set of pairs and their number of exams.
pub fn determined_by_pairs()
    ensures { (E F : Enrolled) → AreEnrolments E → AreEnrolments F → length E ≡ length F
        → ((s e : ℕ) → has E s e ≡ has F s e) → E ≡ F }
{}

/// The list of pairs has exactly the set's pairs, each once, by exam and then by student; sizes and
/// shared students are counts over it.
pub fn pairs_in_order()
    ensures { (E : Enrolled) → AreEnrolments E → ArePairsOf E (pairs_of E) }
{}

/// Adding or removing a pair changes no other student's exams.
pub fn others_stay()
    ensures comes { (E : Enrolled) (s e : ℕ) → ChangesOnly s E (with_pair E s e) }
    ensures goes { (E : Enrolled) (s e : ℕ) → ChangesOnly s E (without_pair E s e) }
{}
