// Shares of students that one query reads from both of their tables.
ghost use Rattle.std.specs.Prelude.{◌≡◌, map, IfOk};
ghost use Rattle.office_tables.specs.Tables.ShareStudent.{share_shown, FitsStudentShare};

use crate::records::Record;
use crate::tables::StudentShareRow;
use sqlite::{Error, Row};
use std::alloc::{AllocError, Global};

// A student's share that is read from both of its tables.
#[derive(Clone, Copy)]
pub(crate) struct JoinedShare {
    pub row: StudentShareRow,
}

impl Record for JoinedShare {
    ghost WIDTH = { 5 };

    ghost columns_of = { λ it. share_shown it.row };

    ghost fits = { λ it. FitsStudentShare it.row };

    const WIDTH: usize = 5;

    fn read(row: &Row) -> Result<JoinedShare, Error> {
        Ok(JoinedShare {
            row: StudentShareRow {
                night: row.get(0)?,
                student: row.get(1)?,
                in_row: row.get(2)?,
                in_day: row.get(3)?,
                spread: row.get(4)?,
            },
        })
    }
}

// Returns the rows of shares that are read from both tables.
pub(crate) fn joined_rows(
    alloc: Global,
    joined: &[JoinedShare],
) -> Result<Vec<StudentShareRow>, AllocError>
    ensures { IfOk result (λ made. made.items ≡ map (λ j. j.row) joined.now) }
{
    joined.iter().map(|found| found.row).collect(alloc)
}
