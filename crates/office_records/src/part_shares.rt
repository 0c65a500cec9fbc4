// Rows of the shares of exams, periods and rooms.
ghost use Rattle.std.specs.Prelude.{◌≡◌, ◌≤◌, ◌↔◌, ◌++◌, ℕ, List, length, All, IfErr, IfOk, IsTrue, OnOk, IsPermutation};
ghost use Rattle.exam_terms.specs.declared.limits.TheConstants.{MAX_EXAMS};
ghost use Rattle.exam_publish.specs.AddUp.{AreSmall};
ghost use Rattle.exam_publish.specs.Shares.{Sharing};
ghost use Rattle.exam_publish.specs.declared.share_lists.RoomShare.{RoomShare};
ghost use Rattle.office_tables.specs.Tables.SharePart.{ArePartAmounts};
ghost use Rattle.office_records.specs.PartShares.{HasFewParts, part_kind_number, part_rows, plain_rows, room_rows};

use crate::fault::RecordFault;
use exam_publish::{RoomShare, Shares};
use office_tables::tables::PartShareRow;
use std::alloc::{AllocError, Global};

/// The kind of thing that has the share.
#[derive(Clone, Copy)]
pub(crate) enum PartKind {
    Exam,
    Period,
    Room,
}

impl PartKind {
    // Returns its number in the tables.
    fn number(self) -> u32
        ensures { result ≡ part_kind_number self }
    {
        match self {
            PartKind::Exam => 0,
            PartKind::Period => 1,
            PartKind::Room => 2,
        }
    }
}

/// Returns the rows of the shares of exams, then of periods, then of rooms, by their numbers.
pub fn part_share_rows(alloc: Global, shares: &Shares) -> Result<Vec<PartShareRow>, AllocError>
    requires { HasFewParts shares.now }
    ensures rows { IfOk result (λ rows. rows.items ≡ part_rows shares.now) }
    ensures amounts { AreSmall shares.now → IfOk result (λ rows. All ArePartAmounts rows.items) }
{
    let rows = all_rows(alloc, shares)?;
    Ok(rows)
}

// Returns the rows of the shares of exams, then of periods, then of rooms.
fn all_rows(alloc: Global, shares: &Shares) -> Result<Vec<PartShareRow>, AllocError>
    requires { HasFewParts shares.now }
    ensures { IfOk result (λ rows. rows.items ≡ part_rows shares.now) }
{
    let mut rows = Vec::new(alloc);
    push_plain(&mut rows, PartKind::Exam, shares.exams())?;
    push_plain(&mut rows, PartKind::Period, shares.periods())?;
    push_rooms(&mut rows, shares.rooms())?;
    Ok(rows)
}

// Adds the rows of shares that have no mixed part.
fn push_plain(
    rows: &mut Vec<PartShareRow>,
    kind: PartKind,
    shares: &[u64],
) -> Result<(), AllocError>
    requires { length shares.now ≤ MAX_EXAMS }
    ensures { OnOk result
        (rows.new.items ≡ rows.old.items ++ plain_rows (part_kind_number kind) 0 shares.now) }
{
    'shares: for (at, share) in shares.iter().enumerate() {
        rows.push(PartShareRow {
            kind: kind.number(),
            no: at as u32,
            penalty: *share,
            mixed: 0,
        })?;
    }
    Ok(())
}

// Adds the rows of the shares of rooms.
fn push_rooms(rows: &mut Vec<PartShareRow>, shares: &[RoomShare]) -> Result<(), AllocError>
    requires { length shares.now ≤ MAX_EXAMS }
    ensures { OnOk result (rows.new.items ≡ rows.old.items ++ room_rows 0 shares.now) }
{
    'shares: for (at, share) in shares.iter().enumerate() {
        rows.push(PartShareRow {
            kind: PartKind::Room.number(),
            no: at as u32,
            penalty: share.penalty,
            mixed: share.mixed,
        })?;
    }
    Ok(())
}

// Returns the rows in the order of their kinds, and of their numbers in each.
pub(crate) fn parts_in_order(
    alloc: Global,
    rows: &[PartShareRow],
) -> Result<Vec<PartShareRow>, AllocError>
    ensures same { IfOk result (λ sorted. IsPermutation rows.now sorted.items) }
    ensures only { IfOk result (λ sorted. (shares : Sharing)
        → IsPermutation rows.now (part_rows shares) → sorted.items ≡ part_rows shares) }
{
    let mut sorted = Vec::from_slice(alloc, rows)?;
    sorted.sort_by_key(|row| (row.kind, row.no))?;
    Ok(sorted)
}

// Returns the shares of rows of a kind, by their numbers. `BadRows`: no shares have these rows.
pub(crate) fn plain_shares(
    alloc: Global,
    rows: &[PartShareRow],
    kind: PartKind,
) -> Result<Vec<u64>, RecordFault>
    ensures are { IfOk result (λ shares.
        plain_rows (part_kind_number kind) 0 shares.items ≡ rows.now) }
    ensures none { IfErr result (λ e. e ≡ RecordFault.BadRows → (shares : List ℕ)
        → plain_rows (part_kind_number kind) 0 shares ≡ rows.now → ⊥) }
{
    let mut shares = Vec::with_capacity(alloc, rows.len())?;
    'rows: for (at, row) in rows.iter().enumerate() {
        if !is_plain(*row, kind, at) {
            return Err(RecordFault::BadRows);
        }
        shares.push(row.penalty).map_err(|_| RecordFault::NoMemory)?;
    }
    Ok(shares)
}

// Returns the shares of rows of rooms, by their numbers. `BadRows`: no shares have these rows.
pub(crate) fn room_shares(
    alloc: Global,
    rows: &[PartShareRow],
) -> Result<Vec<RoomShare>, RecordFault>
    ensures are { IfOk result (λ shares. room_rows 0 shares.items ≡ rows.now) }
    ensures none { IfErr result (λ e. e ≡ RecordFault.BadRows → (shares : List RoomShare)
        → room_rows 0 shares ≡ rows.now → ⊥) }
{
    let mut shares = Vec::with_capacity(alloc, rows.len())?;
    'rows: for (at, row) in rows.iter().enumerate() {
        if !is_of_room(*row, at) {
            return Err(RecordFault::BadRows);
        }
        let share = RoomShare {
            penalty: row.penalty,
            mixed: row.mixed,
        };
        shares.push(share).map_err(|_| RecordFault::NoMemory)?;
    }
    Ok(shares)
}

// Returns whether a row is the share of this exam or period.
fn is_plain(row: PartShareRow, kind: PartKind, no: usize) -> bool
    ensures { IsTrue result
        ↔ ((row.kind ≡ part_kind_number kind) × (row.no ≡ no) × (row.mixed ≡ 0)) }
{
    row.kind == kind.number() && row.no as usize == no && row.mixed == 0
}

fn is_of_room(row: PartShareRow, no: usize) -> bool
    ensures { IsTrue result ↔ ((row.kind ≡ 2) × (row.no ≡ no)) }
{
    row.kind == PartKind::Room.number() && row.no as usize == no
}
