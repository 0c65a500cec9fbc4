// Rows of a table, and the statements that insert them.
ghost use Rattle.std.specs.Prelude.{◌≡◌, ◌≢◌, ◌<◌, ◌≤◌, ◌*◌, Bool, false, length, map, slice_index_or};
ghost use Rattle.sqlite.specs.Held.{state};
ghost use Rattle.sqlite_value.specs.declared.value.Value.TheVariants.{Int};
ghost use Rattle.office_tables.specs.Alterations.{after_all};
ghost use Rattle.office_tables.specs.Inserting.{row_fits, rows_fit, with_row, Inserts, TableOf};
ghost use Rattle.office_tables.specs.Steps.{Changes, IsUncommitted};

use crate::altering::{Alteration, Each};
use crate::running::run_with;
use sqlite::{Alter, Error, Transaction};
use std::array;

/// A row of a table of `W` columns; a statement inserts one row or `N` rows.
pub trait Table<const W: usize, const N: usize>: Copy {
    // Where its rows are in the schema and in the tables.
    ghost shape: { TableOf Self };

    // Whether `fits` has to hold before a row is stored.
    ghost limited: { Bool } = { false };

    // What the numbers of a row have to obey.
    ghost fits: { Self → Type 0 } = { λ _. Unit {0} };

    /// Returns its columns.
    fn values(&self) -> [i64; W]
        requires fits { row_fits limited fits self.now }
        ensures { map Int result ≡ shape.columns_of self.now };

    /// Returns the statements that insert one row, and `N` rows.
    fn inserts() -> InsertTexts
        ensures { Inserts shape W N result.one.now result.many.now };

    // A statement has at most 80 parameters.
    ghost narrow: { W ≤ 80 };

    ghost small: { N * W ≤ 80 };

    ghost some: { N ≢ 0 };
}

/// The statements that insert rows of a table: one row, and several.
#[derive(Clone, Copy)]
pub struct InsertTexts {
    pub one: &'static str,
    pub many: &'static str,
}

/// Adds a row.
#[derive(Clone, Copy)]
pub struct Insert<R, const W: usize, const N: usize> {
    pub row: R,
}

impl<R: Table<W, N>, const W: usize, const N: usize> Alteration for Insert<R, W, N> {
    ghost alteration = { λ it t. with_row R.shape it.row t };

    ghost fits = { λ it. row_fits R.limited R.fits it.row };

    fn apply<S: Alter>(&self, tx: &mut Transaction<'_, S>) -> Result<(), Error> {
        run_with(tx, R::inserts().one, &self.row.values())
    }
}

/// Adds rows in their order: `N` with each statement, and the rest one by one.
#[derive(Clone, Copy)]
pub struct InsertAll<'a, I> {
    pub rows: &'a [I],
}

impl<R: Table<W, N>, const W: usize, const N: usize> Alteration for InsertAll<'_, Insert<R, W, N>> {
    ghost alteration = { λ it t. after_all (λ it. with_row R.shape it.row) it.rows.now t };

    ghost fits = { λ it. rows_fit R.limited R.fits (λ it. it.row) it.rows.now };

    fn apply<S: Alter>(&self, tx: &mut Transaction<'_, S>) -> Result<(), Error> {
        let mut left = self.rows;
        'chunks: while let Some((chunk, rest)) = left.split_at_checked(N) {
            insert_many(tx, chunk)?;
            left = rest;
        }
        Each { alterations: left }.apply(tx)
    }
}

// Adds `N` rows with one statement.
fn insert_many<S: Alter, R: Table<W, N>, const W: usize, const N: usize>(
    tx: &mut Transaction<'_, S>,
    rows: &[Insert<R, W, N>],
) -> Result<(), Error>
    requires count { length rows.now ≡ N }
    requires fits { rows_fit R.limited R.fits (λ it. it.row) rows.now }
    ensures same_reference { tx.new.conn.ghost_name ≡ tx.old.conn.ghost_name }
    ensures makes { Changes S.Store (after_all (λ it. with_row R.shape it.row) rows.now)
        tx.old.conn.now tx.new.conn.now result }
    ensures within { IsUncommitted (state S.Store tx.old.conn.now) (state S.Store tx.new.conn.now) }
{
    let values = array::from_fn::<_, N, _>(
        |i| -> [i64; W]
            requires { (i < length rows.now) × rows_fit R.limited R.fits (λ it. it.row) rows.now }
            ensures { (d : _)
                → map Int result ≡ R.shape.columns_of (slice_index_or rows.entry.now i d).row }
        { rows[i].row.values() },
    );
    run_with(tx, R::inserts().many, values.as_flattened())
}
