// Laws of texts: functions with no code, whose contracts are the laws.
ghost use Rattle.std.specs.Prelude.{◌≡◌, ◌+◌, ◌<◌, ℕ, List, Some, IsSome, Ok, length, slice_get};
ghost use Rattle.exam_model.specs.Enrolments.{AreEnrolments, Enrolled, has};
ghost use Rattle.exam_model.specs.Fits.{Suits};
ghost use Rattle.exam_model.specs.Instance.{IsInstance, Session};
ghost use Rattle.exam_model.specs.Timetable.{Placing, place_of};
ghost use Rattle.office_files.specs.CanonicalText.{canonical_instance};
ghost use Rattle.office_files.specs.CanonicalSolution.{canonical_solution, SuitsTimetable};
ghost use Rattle.office_files.specs.Names.{name_student};
ghost use Rattle.office_files.specs.Fields.{fields_of, other_fields};
ghost use Rattle.office_files.specs.Reading.{fault_of};
ghost use Rattle.office_files.specs.FirstFault.{first_fault, first_solution_fault};
ghost use Rattle.office_files.specs.InstanceText.{InstanceText, instance_in};
ghost use Rattle.office_files.specs.Lines.{Located, lines_of};
ghost use Rattle.office_files.specs.WeightLines.{Weighs, last_section};
ghost use Rattle.office_files.specs.SolutionText.{SolutionText, solution_in};

/// A text describes at most one instance, with one set of enrolments.
pub fn one_instance()
    ensures { (b : List ℕ) (I J : Session) (E F : Enrolled) → InstanceText b I E
        → InstanceText b J F → (I ≡ J) × (E ≡ F) }
{}

/// The students who sit an exam, by a text, are exactly those whom a field of the exam's line
/// names, after the first field; the line of exam e is line e + 1 of those that aren't blank.
pub fn sits_as_named()
    ensures { (b : List ℕ) (I : Session) (E : Enrolled) (s e : ℕ) (line : Located)
        → InstanceText b I E → e < length I.exams → slice_get (lines_of b) (e + 1) ≡ Some line
        → has E s e ≡ name_student (other_fields (fields_of line.text)) s }
{}

/// Each weight, by a text, is the number on the line of its word, and 0 if the section has no such
/// line; no word has two lines. The section is the lines after the last header.
pub fn weighs_as_said()
    ensures { (b : List ℕ) (I : Session) (E : Enrolled) → InstanceText b I E
        → Weighs (last_section (lines_of b)) I.weights }
{}

/// The values that a text describes are within their limits: an instance, and enrolments of its
/// exams.
pub fn spelled_in_limits()
    ensures session { (b : List ℕ) (I : Session) (E : Enrolled) → InstanceText b I E
        → IsInstance I }
    ensures enrolments { (b : List ℕ) (I : Session) (E : Enrolled) → InstanceText b I E
        → AreEnrolments E }
    ensures exams { (b : List ℕ) (I : Session) (E : Enrolled) → InstanceText b I E
        → length E ≡ length I.exams }
{}

/// A timetable that a text describes suits its instance: every place exists.
pub fn spelled_timetable_suits()
    ensures { (b : List ℕ) (I : Session) (T : Placing) → IsInstance I → SolutionText b I T
        → Suits I T }
{}

/// A text describes at most one timetable for an instance.
pub fn one_timetable()
    ensures { (b : List ℕ) (I : Session) (S T : Placing) → SolutionText b I S
        → SolutionText b I T → S ≡ T }
{}

/// A text describes exactly the result of its reading from the start; the fault of the reading is
/// the first fault of the text, by the fault of each line at its position.
pub fn instance_readings_agree()
    ensures spelled { (b : List ℕ) (I : Session) (E : Enrolled) → instance_in b ≡ Ok (I, E)
        → InstanceText b I E }
    ensures read { (b : List ℕ) (I : Session) (E : Enrolled) → InstanceText b I E
        → instance_in b ≡ Ok (I, E) }
    ensures first { (b : List ℕ) → first_fault b ≡ fault_of (instance_in b) }
{}

/// The same for the texts of solutions.
pub fn solution_readings_agree()
    ensures spelled { (b : List ℕ) (I : Session) (T : Placing) → solution_in I b ≡ Ok T
        → SolutionText b I T }
    ensures read { (b : List ℕ) (I : Session) (T : Placing) → SolutionText b I T
        → solution_in I b ≡ Ok T }
    ensures first { (b : List ℕ) (I : Session)
        → first_solution_fault I b ≡ fault_of (solution_in I b) }
{}

/// The canonical text of an instance and its enrolments describes them.
pub fn canonical_instance_reads_back()
    ensures { (I : Session) (E : Enrolled) → IsInstance I → AreEnrolments E
        → length E ≡ length I.exams
        → InstanceText (canonical_instance I E) I E }
{}

/// The canonical text of a complete timetable describes it, for each instance that it suits.
pub fn canonical_solution_reads_back()
    ensures { (I : Session) (T : Placing) → SuitsTimetable I T
        → ((e : ℕ) → e < length T → IsSome (place_of T e))
        → SolutionText (canonical_solution T) I T }
{}
