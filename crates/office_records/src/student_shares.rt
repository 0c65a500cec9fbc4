// Rows of the shares of candidates.
ghost use Rattle.std.specs.Prelude.{◌≡◌, ℕ, List, map, All, IfErr, IfNone, IfOk, IfSome, IsPermutation};
ghost use Rattle.exam_model.specs.Enrolments.{IsAscending};
ghost use Rattle.exam_score.specs.Penalty.{PersonalPenalty};
ghost use Rattle.office_tables.specs.Tables.ShareStudent.{AreStudentAmounts};
ghost use Rattle.office_records.specs.SharesStored.{IsShare, student_share_row};

use crate::fault::RecordFault;
use exam_model::StudentNo;
use exam_publish::Shares;
use exam_score::PersonalParts;
use office_tables::tables::StudentShareRow;
use std::alloc::{AllocError, Global};

/// Returns the rows of all candidates' shares, in their order.
pub fn student_share_rows(
    alloc: Global,
    shares: &Shares,
) -> Result<Vec<StudentShareRow>, AllocError>
    ensures rows { IfOk result (λ rows. rows.items ≡ map student_share_row shares.now.students) }
    ensures amounts { IfOk result (λ rows. All AreStudentAmounts rows.items) }
{
    let students = shares.students();
    let mut rows = Vec::with_capacity(alloc, students.len())?;
    'shares: for share in students {
        rows.push(share_row(*share))?;
    }
    Ok(rows)
}

// Returns a candidate's share in the form of the tables.
fn share_row(share: (StudentNo, PersonalParts)) -> StudentShareRow
    ensures row { result ≡ student_share_row share }
    ensures amounts { AreStudentAmounts result }
{
    share.1.lemma_limit();
    StudentShareRow {
        student: share.0.get(),
        in_row: share.1.row(),
        in_day: share.1.day(),
        spread: share.1.spread(),
        night: share.1.night(),
    }
}

// Returns the rows in the order of their candidates.
pub(crate) fn students_in_order(
    alloc: Global,
    rows: &[StudentShareRow],
) -> Result<Vec<StudentShareRow>, AllocError>
    ensures same { IfOk result (λ sorted. IsPermutation rows.now sorted.items) }
    ensures only { IfOk result (λ sorted. (shares : List (ℕ × PersonalPenalty))
        → IsAscending (map (λ share. share.0) shares)
        → IsPermutation rows.now (map student_share_row shares)
        → sorted.items ≡ map student_share_row shares) }
{
    let mut sorted = Vec::from_slice(alloc, rows)?;
    sorted.sort_by_key(|row| row.student)?;
    Ok(sorted)
}

// Returns the shares of rows, in their order. `BadRows`: a number or an amount is beyond its limit.
pub(crate) fn personal_shares(
    alloc: Global,
    rows: &[StudentShareRow],
) -> Result<Vec<(StudentNo, PersonalParts)>, RecordFault>
    ensures are { IfOk result (λ shares. map student_share_row shares.items ≡ rows.now) }
    ensures none { IfErr result (λ e. e ≡ RecordFault.BadRows
        → (shares : List (ℕ × PersonalPenalty)) → All IsShare shares
        → map student_share_row shares ≡ rows.now → ⊥) }
{
    let mut shares = Vec::with_capacity(alloc, rows.len())?;
    'rows: for row in rows {
        let Some(share) = personal_share(*row) else {
            return Err(RecordFault::BadRows);
        };
        shares.push(share).map_err(|_| RecordFault::NoMemory)?;
    }
    Ok(shares)
}

// Returns the share of a row, unless a number or an amount is beyond its limit.
fn personal_share(row: StudentShareRow) -> Option<(StudentNo, PersonalParts)>
    ensures some { IfSome result (λ share. student_share_row share ≡ row) }
    ensures none { IfNone result ((share : ℕ × PersonalPenalty) → IsShare share
        → student_share_row share ≡ row → ⊥) }
{
    let student = StudentNo::new(row.student)?;
    let parts = PersonalParts::new(row.in_row, row.in_day, row.spread, row.night)?;
    Some((student, parts))
}
