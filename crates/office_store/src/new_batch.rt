// The writes of an accepted batch.
ghost use Rattle.std.specs.Prelude.{◌≡◌, ◌<◌, ◌≤◌, All, IfOk, IfSome, OnOk, Some};
ghost use Rattle.std.specs.Prelude.{false, length, map};
ghost use Rattle.sqlite.specs.Effect.{Database};
ghost use Rattle.exam_terms.specs.declared.limits.TheConstants.{MAX_BATCHES, TEXT_BYTES};
ghost use Rattle.exam_score.specs.Rescoring.{OthersUnchanged};
ghost use Rattle.office_tables.specs.Tables.Draft.{AreAmounts};
ghost use Rattle.office_model.specs.Office.{Records};
ghost use Rattle.office_records.specs.Memory.{AreSuited, memory_of};
ghost use Rattle.office_records.specs.Representation.{RepresentsOffice};
ghost use Rattle.office_store.specs.Memory.{AreRescored, AreScored, IsMemoryOf};
ghost use Rattle.office_store.specs.NewBatches.{Enrols, new_batch_put, line_write, students_of};
ghost use Rattle.office_tables.specs.Alterations.{TablesChanged, TransactionRan};

use crate::fault::StatementFailed;
use crate::memory::OfficeMemory;
use crate::rescoring::{draft_inserts, rescored_drafts};
use crate::transactions::put;
use exam_model::{Change, Enrolments, Instance, StudentNo};
use exam_terms::limits::MAX_BATCHES;
use office_enrolment::{AfterBatch, after_batch};
use office_model::{Counts, StoreFault};
use office_records::{Drafts, no_drafts};
use office_tables::tables::{
    DeleteDrafts, DeleteEnrol, EnrolRow, InsertBatch, InsertDraft, InsertEnrol,
};
use office_tables::{Alteration, Both, Each};
use sqlite::{Alter, Connection, Error, Transaction};
use std::alloc::{AllocError, Global};

// What a batch changes: the enrolments after it, its counts, its acting lines (those that change
// the enrolments), and all drafts rescored, with their rows. If no line acts, `enrolments` is
// `None`, `lines` is empty, and the enrolments and the drafts stay as they are.
#[derive(Drop)]
pub(crate) struct NewBatch {
    pub(crate) enrolments: Option<Enrolments>,
    pub(crate) counts: Counts,
    pub(crate) lines: Vec<LineWrite>,
    pub(crate) drafts: Vec<InsertDraft>,
    pub(crate) rescored: Drafts,
}

// Returns the writes of a batch whose number isn't kept, for the session in memory. The lines are
// checked first, then whether there is room for one batch more.
pub(crate) fn new_batch(
    alloc: Global,
    instance: &Instance,
    enrolments: &Enrolments,
    memory: &OfficeMemory,
    changes: &[Change],
) -> Result<NewBatch, StoreFault>
    requires exams { length enrolments.now ≡ length instance.now.exams }
    requires suited { AreSuited instance.now memory.now.drafts }
    requires lines { length changes.now ≤ TEXT_BYTES }
    ensures enrols { (db : Database) (r : Records) → RepresentsOffice db (Some r)
        → memory_of (Some r) ≡ Some (instance.now, enrolments.now)
        → IsMemoryOf (Some r) memory.now → Enrols changes.now r result }
    ensures room { OnOk result (memory.now.batches < MAX_BATCHES) }
    ensures exams { IfOk result (λ new.
        IfSome new.enrolments (λ E. length E ≡ length instance.now.exams)) }
    ensures suited { IfOk result (λ new. AreSuited instance.now new.rescored) }
    ensures rescored { AreScored instance.now enrolments.now memory.now.drafts
        → IfOk result (λ new. IfSome new.enrolments
        (λ E. AreRescored instance.now E memory.now.drafts new.rescored)) }
    ensures small { IfOk result (λ new. All (λ it. AreAmounts it.row) new.drafts.items) }
{
    enrolments.lemma_order();
    let made = after_batch(alloc, enrolments, changes)?;
    if memory.batches >= MAX_BATCHES as usize {
        return Err(StoreFault::TooMany);
    }
    let rescored = drafts_after(alloc, instance, enrolments, &made, &memory.drafts)?;
    let drafts = draft_inserts(alloc, &rescored)?;
    let lines = line_writes(alloc, &made.acting)?;
    Ok(NewBatch {
        enrolments: made.enrolments,
        counts: made.counts,
        lines,
        drafts,
        rescored,
    })
}

// Returns all drafts rescored, if a line acts.
fn drafts_after(
    alloc: Global,
    instance: &Instance,
    before: &Enrolments,
    made: &AfterBatch,
    drafts: &Drafts,
) -> Result<Drafts, AllocError>
    requires before { length before.now ≡ length instance.now.exams }
    requires exams { IfSome made.now.enrolments (λ E. length E ≡ length instance.now.exams) }
    requires others { IfSome made.now.enrolments
        (OthersUnchanged (students_of made.now.acting.items) before.now) }
    requires suited { AreSuited instance.now drafts.now }
    ensures suited { IfOk result (AreSuited instance.now) }
    ensures rescored { AreScored instance.now before.now drafts.now → IfOk result
        (λ after. IfSome made.now.enrolments (λ E. AreRescored instance.now E drafts.now after)) }
{
    let Some(after) = &made.enrolments else {
        return Ok(no_drafts());
    };
    let students = students_of(alloc, &made.acting)?;
    rescored_drafts(alloc, instance, before, after, &students, drafts)
}

fn students_of(alloc: Global, lines: &[Change]) -> Result<Vec<StudentNo>, AllocError>
    ensures { IfOk result (λ students. students.items ≡ students_of lines.now) }
{
    lines.iter().map(|line| line.student).collect(alloc)
}

// Writes a batch, its acting lines and, if there are any, all drafts again.
pub(crate) fn put_batch<S: Alter>(
    conn: &mut Connection<S>,
    new: &NewBatch,
    number: u32,
    text: &[u8],
) -> Result<(), StatementFailed>
    requires rests { conn.old.in_transaction ≡ false }
    requires small { All (λ it. AreAmounts it.row) new.now.drafts.items }
    ensures { TransactionRan S.Store (TablesChanged (new_batch_put number text.now new.now))
        conn.old conn.new result }
{
    let batch = InsertBatch {
        no: number,
        bytes: text,
        added: new.counts.added,
        dropped: new.counts.dropped,
        unchanged: new.counts.unchanged,
    };
    if new.lines.is_empty() {
        return put(conn, &batch);
    }
    let drafts = Both {
        first: DeleteDrafts,
        second: Each {
            alterations: &new.drafts,
        },
    };
    let lines = Each {
        alterations: &new.lines,
    };
    let whole = Both {
        first: Both {
            first: lines,
            second: drafts,
        },
        second: batch,
    };
    put(conn, &whole)
}

fn line_writes(alloc: Global, changes: &[Change]) -> Result<Vec<LineWrite>, AllocError>
    ensures { IfOk result (λ put. put.items ≡ map line_write changes.now) }
{
    changes
        .iter()
        .map(|change| LineWrite { change: *change })
        .collect(alloc)
}

// A line that acts: it inserts or deletes its pair.
#[derive(Clone, Copy)]
pub(crate) struct LineWrite {
    pub(crate) change: Change,
}

impl Alteration for LineWrite {
    ghost use Rattle.office_store.specs.NewBatches.{with_line};

    ghost alteration = { λ it t. with_line it.change t };

    ghost fits = { λ _. Unit {0} };

    fn apply<S: Alter>(&self, tx: &mut Transaction<'_, S>) -> Result<(), Error> {
        let student = self.change.student.get();
        let exam = self.change.exam.get();
        if self.change.add {
            let row = EnrolRow { student, exam };
            InsertEnrol { row }.apply(tx)
        } else {
            DeleteEnrol { student, exam }.apply(tx)
        }
    }
}
