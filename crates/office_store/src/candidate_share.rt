// A candidate's share of the penalty, by the row that is read.
ghost use Rattle.std.specs.Prelude.{◌≡◌, ◌<◌, ◌^◌, [], ◌∷◌, Ok, Some};
ghost use Rattle.exam_score.specs.Penalty.{personal_total};
ghost use Rattle.office_store.specs.Viewing.{no_share, share_in_row};
ghost use Rattle.office_tables.specs.declared.tables.share_student.StudentShareRow.{StudentShareRow as ShareRow};

use exam_score::PersonalParts;
use office_model::StoreFault;
use office_tables::tables::StudentShareRow;

// Returns the share in a candidate's row; all amounts are 0 if there is no row. `BadSchema`: there
// are two rows, or the row's amounts are too large for a share.
pub(crate) fn checked_share(rows: &[StudentShareRow]) -> Result<PersonalParts, StoreFault>
    ensures none { rows.now ≡ [] → result ≡ Ok no_share }
    ensures one { (row : ShareRow) → rows.now ≡ row ∷ []
        → personal_total (share_in_row row) < 2 ^ 62 → result ≡ Ok (share_in_row row) }
{
    match share_of_rows(rows) {
        Some(share) => Ok(share),
        None => Err(StoreFault::BadSchema),
    }
}

fn share_of_rows(rows: &[StudentShareRow]) -> Option<PersonalParts>
    ensures none { rows.now ≡ [] → result ≡ Some no_share }
    ensures one { (row : ShareRow) → rows.now ≡ row ∷ []
        → personal_total (share_in_row row) < 2 ^ 62 → result ≡ Some (share_in_row row) }
{
    match rows {
        [] => PersonalParts::new(0, 0, 0, 0),
        [row] => PersonalParts::new(row.in_row, row.in_day, row.spread, row.night),
        _ => None,
    }
}
