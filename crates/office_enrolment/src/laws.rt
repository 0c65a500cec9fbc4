// Laws of batches: functions whose contracts are the laws.
ghost use Rattle.std.specs.Prelude.{◌≡◌, ◌≤◌, ℕ, IsPermutation, List, Ok, length};
ghost use Rattle.exam_terms.specs.declared.limits.TheConstants.{MAX_BATCH, TEXT_BYTES};
ghost use Rattle.exam_model.specs.Enrolments.{AreEnrolments, Enrolled};
ghost use Rattle.exam_model.specs.Instance.{Session};
ghost use Rattle.exam_model.specs.Pairs.{Pair, pairs_of};
ghost use Rattle.exam_model.specs.declared.change.Change.{Change};
ghost use Rattle.office_batches.specs.BatchText.{batch_in};
ghost use Rattle.office_policy.specs.Commands.{HasSmallNumbers, PlainCommand};
ghost use Rattle.office_policy.specs.declared.callers.Caller.{Caller};
ghost use Rattle.office_model.specs.Answers.{PlainAnswer};
ghost use Rattle.office_model.specs.Batches.{batch_enrolled, newly_enrolled};
ghost use Rattle.office_model.specs.Office.{AreEnrolled, IsOffice, OfficeState, Records};
ghost use Rattle.office_model.specs.Step.{Steps};
ghost use Rattle.office_model.specs.declared.counts.Counts.{Counts};
ghost use Rattle.office_enrolment.specs.AfterBatch.{lines_with_effect, after_batch, lines_in};
ghost use Rattle.office_enrolment.specs.Keeping.{batch_judged};
ghost use Rattle.office_enrolment.specs.Rows.{after_rows, pair_rows};

use office_batches::batch_readings_agree;

/// A text describes at most as many changes as a text may have bytes, so that their counts fit in
/// 32 bits; each line is counted once.
pub fn lines_are_counted()
    ensures few { (b : List ℕ) (changes : List Change) → batch_in b ≡ Ok changes
        → length changes ≤ TEXT_BYTES }
    ensures counted { (changes : List Change) (E : Enrolled) (done : Counts × Enrolled)
        → after_batch changes E ≡ Ok done → lines_in done.0 ≡ length changes }
{
    batch_readings_agree();
}

/// The acting lines, applied to the list of pairs one after another, turn it into the list of the
/// pairs after the batch, in some order.
pub fn rows_follow_lines()
    ensures { (changes : List Change) (E : Enrolled) (done : Counts × Enrolled) (rows : List Pair)
        → AreEnrolments E → after_batch changes E ≡ Ok done → IsPermutation rows (pairs_of E)
        → IsPermutation (after_rows pair_rows (lines_with_effect changes E) rows)
        (pairs_of done.1) }
{}

/// The enrolments after a batch are enrolments of the session's exams again.
pub fn enrolled_again()
    ensures { (I : Session) (b : List ℕ) (changes : List Change) (E : Enrolled)
        (done : Counts × Enrolled) → AreEnrolled I E → batch_in b ≡ Ok changes
        → after_batch changes E ≡ Ok done → AreEnrolled I done.1 }
{
    batch_readings_agree();
}

/// A batch whose number isn't kept is judged by its lines, and then kept, if there is room.
pub fn newly_enrolled_by_lines()
    ensures { (number : ℕ) (bytes : List ℕ) (changes : List Change) (r : Records)
        → AreEnrolled r.session r.enrolments → newly_enrolled number bytes changes r
        ≡ batch_judged number bytes changes r }
{}

/// The office after an accepted batch is an office.
pub fn batch_leaves_an_office()
    ensures { (number : ℕ) (bytes : List ℕ) (old new : OfficeState) (counts : Counts)
        → number ≤ MAX_BATCH → IsOffice old → batch_enrolled number bytes old ≡ Ok (counts, new)
        → IsOffice new }
{
    batch_readings_agree();
}

/// The office after a step is an office, for each command, caller and answer.
pub fn step_leaves_an_office()
    ensures { (old new : OfficeState) (caller : Caller) (command : PlainCommand)
        (answer : PlainAnswer) → IsOffice old → HasSmallNumbers command
        → Steps old caller command answer new → IsOffice new }
{
    batch_leaves_an_office();
}
