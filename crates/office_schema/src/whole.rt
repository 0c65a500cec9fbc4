// Whether the tables of a schema are declared ones.
ghost use Rattle.std.specs.Prelude.{◌≡◌, ◌↔◌, map, IfOk, IsTrue};
ghost use Rattle.office_schema.specs.Schema.{declared_table};

use crate::parts::{Declared, is_table};
use sqlite_schema::schema::Table;
use std::alloc::{AllocError, Global};

/// Returns whether these are the declared tables, in their order and trees, and no others.
pub fn are_tables(alloc: Global, tables: &[Table], wanted: &[Declared]) -> Result<bool, AllocError>
    ensures { IfOk result (λ is. IsTrue is ↔ (tables.now ≡ map declared_table wanted.now)) }
{
    match (tables, wanted) {
        ([], []) => Ok(true),
        ([table, tables @ ..], [first, wanted @ ..]) => Ok(
            is_table(
                alloc,
                table,
                first.name,
                first.tree,
                first.key,
                first.columns,
            )? && are_tables(alloc, tables, wanted)?,
        ),
        _ => Ok(false),
    }
}
