// A batch of changes, applied to enrolments.
ghost use Rattle.std.specs.Prelude.{◌≡◌, ◌≢◌, ◌<◌, ◌≤◌, ◌↔◌, ◌++◌, [], ◌∷◌, length, true, None};
ghost use Rattle.std.specs.Prelude.{IfErr, IfOk, IfSome, OnOk, Ok};
ghost use Rattle.std.specs.List.{list_all, list_any};
ghost use Rattle.exam_terms.specs.declared.limits.TheConstants.{TEXT_BYTES};
ghost use Rattle.exam_model.specs.Enrolments.{AreEnrolments, Enrolled};
ghost use Rattle.office_model.specs.BatchLines.{has_effect, counts_after, no_counts};
ghost use Rattle.office_enrolment.specs.AfterBatch.{Refuses, lines_with_effect, has_effect_on, after_batch, after_line, idle_counts, current_enrolments};
ghost use Rattle.office_enrolment.specs.AfterBatch.{lines_in, names_exam};

use exam_draft::EditFault;
use exam_model::{Change, Enrolments, ModelFault};
use office_model::{Counts, Refusal, StoreFault};
use std::alloc::{AllocError, Global};

/// The result of a batch.
#[derive(Debug, Drop)]
pub struct AfterBatch {
    /// The enrolments after all lines. `None`: no line acted, and they are unchanged.
    pub enrolments: Option<Enrolments>,
    /// The counts of what the lines did.
    pub counts: Counts,
    /// The lines that added a pair or dropped one, in file order.
    pub acting: Vec<Change>,
}

/// Applies a batch to a copy of the enrolments, its lines in file order; if no line acts, there is
/// no copy. `Refused`: a line names an exam that doesn't exist; then `TooMany`: at some line there
/// would be more than 200,000 pairs. `Store`: out of memory.
pub fn after_batch(
    alloc: Global,
    enrolments: &Enrolments,
    changes: &[Change],
) -> Result<AfterBatch, StoreFault>
    requires lines { length changes.now ≤ TEXT_BYTES }
    ensures ok { IfOk result (λ made. after_batch changes.now enrolments.now
        ≡ Ok (made.counts, current_enrolments made.enrolments enrolments.now)) }
    ensures copied { IfOk result (λ made. made.enrolments ≡ None ↔ made.acting.items ≡ []) }
    ensures acting { IfOk result
        (λ made. made.acting.items ≡ lines_with_effect changes.now enrolments.now) }
    ensures kept { IfOk result (λ made. IfSome made.enrolments AreEnrolments) }
    ensures refused { IfErr result (Refuses (after_batch changes.now enrolments.now)) }
{
    if !name_exams(enrolments, changes) {
        return Err(StoreFault::Refused(Refusal::Edit(EditFault::NoSuch)));
    }
    if !any_acts(enrolments, changes) {
        return Ok(unchanged_result(alloc, changes));
    }
    carry_out_all(alloc, enrolments, changes)
}

// Returns whether each line names an exam that exists.
fn name_exams(enrolments: &Enrolments, changes: &[Change]) -> bool
    ensures all { result ≡ list_all (names_exam enrolments.now) changes.now }
    ensures kept { AreEnrolments enrolments.now }
{
    let exams = enrolments.exams();
    changes.iter().all(|change| change.exam.get() < exams)
}

// Returns whether any line acts on these enrolments.
fn any_acts(enrolments: &Enrolments, changes: &[Change]) -> bool
    requires exams { list_all (names_exam enrolments.now) changes.now ≡ true }
    ensures { result ≡ list_any (has_effect_on enrolments.now) changes.now }
{
    'lines: for change in changes {
        if has_effect(enrolments, change) {
            return true;
        }
    }
    false
}

// Returns whether a line acts on these enrolments.
fn has_effect(enrolments: &Enrolments, change: &Change) -> bool
    requires exam { change.now.exam < length enrolments.now }
    ensures { result ≡ has_effect_on enrolments.now change.now }
{
    let is_there = enrolments.has(change.student, change.exam);
    if change.add { !is_there } else { is_there }
}

// Returns the result of a batch of which no line acts.
fn unchanged_result(alloc: Global, changes: &[Change]) -> AfterBatch
    requires lines { length changes.now ≤ TEXT_BYTES }
    ensures enrolments { result.enrolments ≡ None }
    ensures counts { result.counts ≡ idle_counts changes.now }
    ensures acting { result.acting.items ≡ [] }
{
    AfterBatch {
        enrolments: None,
        counts: Counts {
            added: 0,
            dropped: 0,
            unchanged: changes.len() as u32,
        },
        acting: Vec::new(alloc),
    }
}

// Applies lines to a copy of the enrolments, one after the other.
fn carry_out_all(
    alloc: Global,
    enrolments: &Enrolments,
    changes: &[Change],
) -> Result<AfterBatch, StoreFault>
    requires lines { length changes.now ≤ TEXT_BYTES }
    requires exams { list_all (names_exam enrolments.now) changes.now ≡ true }
    ensures ok { IfOk result (λ made. after_batch changes.now enrolments.now
        ≡ Ok (made.counts, current_enrolments made.enrolments enrolments.now)) }
    ensures acting { IfOk result
        (λ made. made.acting.items ≡ lines_with_effect changes.now enrolments.now) }
    ensures copied { IfOk result (λ made. made.enrolments ≢ None) }
    ensures kept { IfOk result (λ made. IfSome made.enrolments AreEnrolments) }
    ensures refused { IfErr result (Refuses (after_batch changes.now enrolments.now)) }
{
    let mut after = enrolments.copy(alloc)?;
    let mut counts = Counts {
        added: 0,
        dropped: 0,
        unchanged: 0,
    };
    let mut acting: Vec<Change> = Vec::new(alloc);
    'lines: for change in changes {
        let has_acted = carry_out(&mut after, change)?;
        count(&mut counts, change, has_acted);
        if has_acted {
            add_line(&mut acting, change)?;
        }
    }
    Ok(AfterBatch {
        enrolments: Some(after),
        counts,
        acting,
    })
}

// Applies one line, and returns whether it acts.
fn carry_out(enrolments: &mut Enrolments, change: &Change) -> Result<bool, StoreFault>
    requires exam { change.now.exam < length enrolments.old }
    ensures acts { IfOk result (λ has_acted. has_acted ≡ has_effect change.now enrolments.old) }
    ensures after { OnOk result (after_line change.now enrolments.old ≡ Ok enrolments.new) }
    ensures kept { AreEnrolments enrolments.new }
    ensures refused { IfErr result (Refuses (after_line change.now enrolments.old)) }
{
    if !change.add {
        return Ok(enrolments.remove(change.student, change.exam));
    }
    match enrolments.add(change.student, change.exam) {
        Ok(is_new) => Ok(is_new),
        Err(ModelFault::Range) => Err(StoreFault::TooMany),
        Err(ModelFault::NoSuch | ModelFault::NoMemory) => Err(StoreFault::Store),
    }
}

// Counts one more line: as an add, a drop, or neither if it has not acted.
fn count(counts: &mut Counts, change: &Change, has_acted: bool)
    requires { lines_in counts.old < TEXT_BYTES }
    ensures { (E : Enrolled) → has_acted ≡ has_effect change.now E
        → counts.new ≡ counts_after change.now E counts.old }
{
    if !has_acted {
        counts.unchanged += 1;
    } else if change.add {
        counts.added += 1;
    } else {
        counts.dropped += 1;
    }
}

// Appends a line.
fn add_line(lines: &mut Vec<Change>, change: &Change) -> Result<(), AllocError>
    ensures { OnOk result (lines.new.items ≡ lines.old.items ++ change.now ∷ []) }
{
    lines.push(*change)?;
    Ok(())
}
