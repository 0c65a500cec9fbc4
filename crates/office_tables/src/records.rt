// Rows read as records.
ghost use Rattle.std.specs.Prelude.{◌≡◌, ◌≢◌, ◌≤◌, ℕ, length, IfErr, IfOk};
ghost use Rattle.sqlite_value.specs.Order.{Row as Columns};
ghost use Rattle.office_tables.specs.Records.{columns_from};

use sqlite::{Error, ErrorCode, Row};

// A type of record that rows are read as.
pub(crate) trait Record: Sized {
    ghost WIDTH: { ℕ };

    ghost columns_of: { Self → Columns };

    // Its numbers fit the program's types.
    ghost fits: { Self → Type 0 };

    const WIDTH: usize;

    // `Err`: a column doesn't hold such a number, or memory ran out.
    fn read(row: &Row) -> Result<Self, Error>
        ensures columns { IfOk result (λ made. columns_of made ≡ columns_from 0 WIDTH row.now) }
        ensures refused { IfErr result (λ e. e ≢ Error.SqliteFailure ErrorCode.OutOfMemory
            → WIDTH ≤ length row.now → (made : Self) → fits made
            → columns_of made ≢ columns_from 0 WIDTH row.now) };
}
