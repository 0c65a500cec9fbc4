// The versions of an office's file.
ghost use Rattle.std.specs.Prelude.{◌≡◌, IfOk};
ghost use Rattle.office_tables.specs.Tables.Metadata.{number_of};
ghost use Rattle.office_tables.specs.Versions.{IsVersionOf};

use crate::tables::{is_office_schema, is_schema_before};
use sqlite_schema::schema::Schema;
use std::alloc::{AllocError, Global};

/// The version of a file. Version 1 has no tables of amounts over night.
#[derive(Clone, Copy, Debug, PartialEq, Eq)]
pub enum Version {
    One,
    Two,
}

impl Version {
    // Returns the number of the version in the table meta.
    pub(crate) fn number(self) -> u64
        ensures { result ≡ number_of self }
    {
        match self {
            Version::One => 1,
            Version::Two => 2,
        }
    }
}

// Returns the version of a schema. `None`: it isn't the schema of an office.
pub(crate) fn version_of(alloc: Global, schema: &Schema) -> Result<Option<Version>, AllocError>
    ensures { IfOk result (IsVersionOf schema.now) }
{
    if is_office_schema(alloc, schema)? {
        return Ok(Some(Version::Two));
    }
    if is_schema_before(alloc, schema)? {
        return Ok(Some(Version::One));
    }
    Ok(None)
}
