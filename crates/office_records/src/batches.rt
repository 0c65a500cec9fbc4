// Rows of the accepted batches, without their bytes.
ghost use Rattle.std.specs.Prelude.{◌≡◌, ◌↔◌, All, IfErr, IsTrue, OnErr, OnOk};
ghost use Rattle.office_records.specs.FoundBatches.{AreBatchRows, IsBatchRow};

use crate::fault::RecordFault;
use exam_terms::limits::{MAX_BATCH, MAX_BATCHES};
use office_tables::tables::BatchCountsRow;

// Returns `Ok` if an office may keep batches with these rows, for some bytes. `BadRows`: there are
// too many, or a number is beyond the limit.
pub(crate) fn check_batches(rows: &[BatchCountsRow]) -> Result<(), RecordFault>
    ensures are { OnOk result (AreBatchRows rows.now) }
    ensures none { OnErr result (AreBatchRows rows.now → ⊥) }
    ensures fault { IfErr result (λ e. e ≡ RecordFault.BadRows) }
{
    let few = rows.len() <= MAX_BATCHES as usize;
    if few && are_batches(rows) {
        Ok(())
    } else {
        Err(RecordFault::BadRows)
    }
}

// Returns whether each row has a valid number of a batch.
fn are_batches(rows: &[BatchCountsRow]) -> bool
    ensures { IsTrue result ↔ All IsBatchRow rows.now }
{
    'rows: for row in rows {
        if !is_batch(*row) {
            return false;
        }
    }
    true
}

// Returns whether a row has a valid number of a batch.
fn is_batch(row: BatchCountsRow) -> bool
    ensures { IsTrue result ↔ IsBatchRow row }
{
    row.no <= MAX_BATCH
}
