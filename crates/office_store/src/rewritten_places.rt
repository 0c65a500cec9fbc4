// What a publication writes of the row about the office and of the placements: only what changes.
ghost use Rattle.std.specs.Prelude.{◌≡◌, IfErr, IfOk, map, option_map, slice_get};
ghost use Rattle.office_store.specs.ChangedPlacements.{changed_rows, is_there};
ghost use Rattle.office_store.specs.NewPublications.{mark_text};
ghost use Rattle.office_store.specs.RowPuts.{deleted_placement, placement_put};

use exam_model::Instance;
use office_records::{RecordFault, text_of};
use office_tables::tables::{DeletePlacement, InsertPlacement, PlacedRow};
use std::alloc::{AllocError, Global};

// Returns the text of the row about the office. `None`: something is already published, and the row
// says so.
pub(crate) fn mark_text(
    alloc: Global,
    instance: &Instance,
    before: &[PlacedRow],
) -> Result<Option<Vec<u8>>, RecordFault>
    ensures text { IfOk result
        (λ text. option_map (λ text. text.items) text ≡ mark_text instance.now before.now) }
    ensures memory { IfErr result (λ e. e ≡ RecordFault.NoMemory) }
{
    if !before.is_empty() {
        return Ok(None);
    }
    let text = text_of(alloc, instance)?;
    Ok(Some(text))
}

// Returns the deletions of the placements before that the new ones differ from.
pub(crate) fn deleted_placements(
    alloc: Global,
    rows: &[PlacedRow],
    before: &[PlacedRow],
) -> Result<Vec<DeletePlacement>, AllocError>
    ensures { IfOk result (λ gone. gone.items
        ≡ map deleted_placement (changed_rows before.now rows.now)) }
{
    let changed = changed_rows(alloc, before, rows)?;
    changed
        .iter()
        .map(|row| DeletePlacement { exam: row.exam })
        .collect(alloc)
}

// Returns the insertions of the placements that differ from those before.
pub(crate) fn placements_put(
    alloc: Global,
    rows: &[PlacedRow],
    before: &[PlacedRow],
) -> Result<Vec<InsertPlacement>, AllocError>
    ensures { IfOk result (λ put. put.items ≡ map placement_put (changed_rows rows.now before.now)) }
{
    let changed = changed_rows(alloc, rows, before)?;
    changed
        .iter()
        .map(|row| InsertPlacement { row: *row })
        .collect(alloc)
}

// Returns the placements that aren't at the same index among the others.
fn changed_rows(
    alloc: Global,
    rows: &[PlacedRow],
    others: &[PlacedRow],
) -> Result<Vec<PlacedRow>, AllocError>
    ensures { IfOk result (λ changed. changed.items ≡ changed_rows rows.now others.now) }
{
    let mut changed = Vec::new(alloc);
    'rows: for (index, row) in rows.iter().enumerate() {
        if !is_there(others, index, *row) {
            changed.push(*row)?;
        }
    }
    Ok(changed)
}

// Returns whether this placement is at the index.
fn is_there(others: &[PlacedRow], index: usize, row: PlacedRow) -> bool
    ensures { result ≡ is_there (slice_get others.now index) row }
{
    match others.get(index) {
        Some(other) => row == *other,
        None => false,
    }
}
