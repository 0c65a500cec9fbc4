// Laws of batches: functions with no code, whose contracts are the laws.
ghost use Rattle.std.specs.Prelude.{◌≡◌, ℕ, List, Ok};
ghost use Rattle.exam_model.specs.declared.change.Change.{Change};
ghost use Rattle.office_batches.specs.BatchText.{BatchText, batch_in};
ghost use Rattle.office_batches.specs.FirstFault.{first_batch_fault};
ghost use Rattle.office_files.specs.Reading.{fault_of};

/// A text describes at most one list of changes.
pub fn one_batch()
    ensures { (b : List ℕ) (xs ys : List Change) → BatchText b xs → BatchText b ys → xs ≡ ys }
{}

/// A text describes exactly the result of its reading; the fault of the reading is the first fault
/// of the text, by the fault of each single record.
pub fn batch_readings_agree()
    ensures spelled { (b : List ℕ) (xs : List Change) → batch_in b ≡ Ok xs → BatchText b xs }
    ensures read { (b : List ℕ) (xs : List Change) → BatchText b xs → batch_in b ≡ Ok xs }
    ensures first { (b : List ℕ) → first_batch_fault b ≡ fault_of (batch_in b) }
{}
