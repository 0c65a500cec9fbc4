// The bytes of the kept batches, read one batch after the other.
ghost use Rattle.std.specs.Prelude.{◌≡◌, ◌==◌, All, IfErr, OnErr, OnOk, filter, map};
ghost use Rattle.std.specs.List.{AllByRecursion};
ghost use Rattle.std.specs.Prelude.{option_to_list};
ghost use Rattle.sqlite.specs.Held.{state};
ghost use Rattle.sqlite.specs.State.{HasCleanDisk};
ghost use Rattle.office_tables.specs.Tables.Batches.{batch_from, counts_of};
ghost use Rattle.office_tables.specs.Readers.{LeavesFile, LeavesTablesIn};
ghost use Rattle.office_tables.specs.TablesHeld.{HoldsSomeTables, HoldsTablesIn};
ghost use Rattle.office_tables.specs.Tables.{Tables};
ghost use Rattle.office_tables.specs.declared.version.Version.{Version};
ghost use Rattle.office_records.specs.FoundBatches.{IsShort};
ghost use Rattle.office_store.specs.Faults.{IsOfDatabase};

use exam_terms::limits::TEXT_BYTES;
use office_model::StoreFault;
use office_tables::tables::{BatchCountsRow, BatchRow, batch_of};
use sqlite::{Alter, Connection};
use std::alloc::Global;

// Checks that none of the batches with these rows, in a file of either version, is longer than a
// text may be. `BadSchema`: one is. The bytes of only one batch are in memory at a time.
pub(crate) fn check_bytes<S: Alter>(
    alloc: Global,
    conn: &mut Connection<S>,
    batches: &[BatchCountsRow],
) -> Result<(), StoreFault>
    ensures short { HasCleanDisk (state S.Store conn.new) → (version : Version) (t : Tables)
        → HoldsTablesIn version (state S.Store conn.old).now t → map counts_of t.batch ≡ batches.now
        → OnOk result (All IsShort t.batch) }
    ensures long { HasCleanDisk (state S.Store conn.new) → (version : Version) (t : Tables)
        → HoldsTablesIn version (state S.Store conn.old).now t
        → IfErr result (λ e. e ≡ StoreFault.BadSchema → All IsShort t.batch → ⊥) }
    ensures fault { IfErr result IsOfDatabase }
    ensures leaves { LeavesFile (HoldsSomeTables (state S.Store conn.old).now) S.Store
        conn.old conn.new result }
{
    'batches: for row in batches {
        check_batch(alloc, conn, row.no)?;
    }
    Ok(())
}

// Checks that the batch with a number, if there is one, is no longer than a text may be.
// `BadSchema`: it is longer.
fn check_batch<S: Alter>(alloc: Global, conn: &mut Connection<S>, no: u32) -> Result<(), StoreFault>
    ensures short { HasCleanDisk (state S.Store conn.new) → (version : Version) (t : Tables)
        → HoldsTablesIn version (state S.Store conn.old).now t
        → OnOk result (AllByRecursion IsShort (filter (λ b. b.no == no) t.batch)) }
    ensures long { HasCleanDisk (state S.Store conn.new) → (version : Version) (t : Tables)
        → HoldsTablesIn version (state S.Store conn.old).now t
        → IfErr result (λ e. e ≡ StoreFault.BadSchema → All IsShort t.batch → ⊥) }
    ensures fault { IfErr result IsOfDatabase }
    ensures leaves { (version : Version)
        → LeavesTablesIn version S.Store conn.old conn.new result }
{
    let found = match batch_of(alloc, conn, no) {
        Ok(found) => found,
        Err(_) => return Err(StoreFault::Store),
    };
    check_length(&found)
}

// Checks that a batch, if there is one, is no longer than a text may be. `BadSchema`: it is longer.
fn check_length(found: &Option<BatchRow>) -> Result<(), StoreFault>
    ensures short { OnOk result
        (AllByRecursion IsShort (map batch_from (option_to_list found.now))) }
    ensures long { OnErr result
        (AllByRecursion IsShort (map batch_from (option_to_list found.now)) → ⊥) }
    ensures fault { IfErr result (λ e. e ≡ StoreFault.BadSchema) }
{
    match found {
        Some(batch) if batch.bytes.len() > TEXT_BYTES => Err(StoreFault::BadSchema),
        _ => Ok(()),
    }
}
