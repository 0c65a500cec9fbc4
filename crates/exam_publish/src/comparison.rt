// The candidates whose rows differ between two publications.
ghost use Rattle.std.specs.Prelude.{◌≡◌, ℕ, ◌&&◌, ◌||◌, ◌==◌, IfOk, OnOk};
ghost use Rattle.exam_model.specs.Enrolments.{IsAscending, has_number};
ghost use Rattle.exam_publish.specs.Rows.{RowsInOrder, is_pair_before, row_pair};
ghost use Rattle.exam_publish.specs.Changed.{is_changed, changed_students, sorted_numbers, has_row};

use crate::seat_row::SeatRow;
use exam_model::StudentNo;
use std::alloc::{AllocError, Global};

/// Returns the candidates whose rows differ between two lists of rows, ascending, each once.
pub fn changed(
    alloc: Global,
    old: &[SeatRow],
    new: &[SeatRow],
) -> Result<Vec<StudentNo>, AllocError>
    requires old_in_order { RowsInOrder old.now }
    requires new_in_order { RowsInOrder new.now }
    ensures members { IfOk result (λ found. (s : ℕ) → has_number found.items s
        ≡ is_changed old.now new.now s) }
    ensures ascending { IfOk result (λ found. IsAscending found.items) }
    ensures listed { IfOk result (λ found. found.items ≡ changed_students old.now new.now) }
{
    let found = differing_candidates(alloc, old, new)?;
    Ok(in_order(found))
}

// Returns the candidates of rows that are in one list only or differ, in one walk along both.
fn differing_candidates(
    alloc: Global,
    old: &[SeatRow],
    new: &[SeatRow],
) -> Result<Vec<StudentNo>, AllocError>
    requires old_in_order { RowsInOrder old.now }
    requires new_in_order { RowsInOrder new.now }
    ensures { IfOk result (λ found. (s : ℕ) → has_number found.items s
        ≡ is_changed old.now new.now s) }
{
    let mut found = Vec::new(alloc);
    let mut left = old;
    let mut right = new;
    'walk: while let Some((row, rest)) = left.split_first() {
        let Some((other, others)) = right.split_first() else {
            push_students(&mut found, left)?;
            return Ok(found);
        };
        if is_before(row, other) {
            found.push(row.student)?;
            left = rest;
        } else if is_before(other, row) {
            found.push(other.student)?;
            right = others;
        } else {
            push_if(&mut found, row != other, row.student)?;
            left = rest;
            right = others;
        }
    }
    push_students(&mut found, right)?;
    Ok(found)
}

/// Returns whether a row has a smaller exam, or the same exam and a smaller student.
pub fn is_before(row: &SeatRow, other: &SeatRow) -> bool
    ensures { result ≡ is_pair_before (row_pair row.now) (row_pair other.now) }
{
    row.exam < other.exam || row.exam == other.exam && row.student < other.student
}

// Adds a student, if their rows differ.
fn push_if(found: &mut Vec<StudentNo>, differs: bool, student: StudentNo) -> Result<(), AllocError>
    ensures { OnOk result ((s : ℕ) → has_number found.new.items s
        ≡ (has_number found.old.items s || ((student == s) && differs))) }
{
    if differs {
        found.push(student)?;
    }
    Ok(())
}

// Adds the students of all rows.
fn push_students(found: &mut Vec<StudentNo>, rows: &[SeatRow]) -> Result<(), AllocError>
    ensures { OnOk result ((s : ℕ) → has_number found.new.items s
        ≡ (has_number found.old.items s || has_row rows.now s)) }
{
    'rows: for row in rows {
        found.push(row.student)?;
    }
    Ok(())
}

/// Returns the students in order, each once.
pub fn in_order(mut found: Vec<StudentNo>) -> Vec<StudentNo>
    ensures { result.items ≡ sorted_numbers found.items }
{
    found.sort_unstable();
    found.dedup();
    found
}
