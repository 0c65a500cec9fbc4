// Whole transactions: an alteration of the tables is made completely, or not at all.
ghost use Rattle.std.specs.Prelude.{◌≡◌, false};
ghost use Rattle.sqlite.specs.Held.{state};
ghost use Rattle.office_tables.specs.Alterations.{TablesChanged, TransactionRan};
ghost use Rattle.office_tables.specs.Steps.{Changes, IsUncommitted};
ghost use Rattle.office_tables.specs.Tables.{Tables};

use sqlite::{Alter, Connection, Error, Transaction};

/// A change that a transaction makes to the tables.
pub trait Alteration {
    ghost alteration: { Self → Tables → Tables };

    // The file can hold its numbers; it always can, unless an impl says more.
    ghost fits: { Self → Type 0 } = { λ _. Unit {0} };

    /// Makes the change inside a transaction.
    fn apply<S: Alter>(&self, tx: &mut Transaction<'_, S>) -> Result<(), Error>
        requires fits { fits self.now }
        ensures same_reference { tx.new.conn.ghost_name ≡ tx.old.conn.ghost_name }
        ensures makes { Changes S.Store (alteration self.now)
            tx.old.conn.now tx.new.conn.now result }
        ensures within { IsUncommitted (state S.Store tx.old.conn.now)
            (state S.Store tx.new.conn.now) };
}

/// Makes the alteration in a transaction of its own. On `Err` the tables are as they were.
pub fn transact<S: Alter, A: Alteration>(
    conn: &mut Connection<S>,
    alteration: &A,
) -> Result<(), Error>
    requires rests { conn.old.in_transaction ≡ false }
    requires fits { A.fits alteration.now }
    ensures { TransactionRan S.Store (TablesChanged (A.alteration alteration.now))
        conn.old conn.new result }
{
    let _ = conn.schema();
    let mut tx = conn.transaction();
    alteration.apply(&mut tx)?;
    tx.commit()
}

/// Two alterations, one after the other.
#[derive(Clone, Copy)]
pub struct Both<A, B> {
    pub first: A,
    pub second: B,
}

impl<A: Alteration, B: Alteration> Alteration for Both<A, B> {
    ghost alteration = { λ both t. B.alteration both.second (A.alteration both.first t) };

    ghost fits = { λ both. A.fits both.first × B.fits both.second };

    fn apply<S: Alter>(&self, tx: &mut Transaction<'_, S>) -> Result<(), Error> {
        self.first.apply(tx)?;
        self.second.apply(tx)
    }
}

/// Alterations, one after another in their order.
#[derive(Clone, Copy)]
pub struct Each<'a, A> {
    pub alterations: &'a [A],
}

impl<A: Alteration> Alteration for Each<'_, A> {
    ghost use Rattle.std.specs.Prelude.{All};
    ghost use Rattle.office_tables.specs.Alterations.{after_all};

    ghost alteration = { λ each t. after_all A.alteration each.alterations.now t };

    ghost fits = { λ each. All A.fits each.alterations.now };

    fn apply<S: Alter>(&self, tx: &mut Transaction<'_, S>) -> Result<(), Error> {
        for alteration in self.alterations {
            alteration.apply(tx)?;
        }
        Ok(())
    }
}

/// An alteration, or none.
impl<A: Alteration> Alteration for Option<A> {
    ghost use Rattle.std.specs.Prelude.{IfSome};
    ghost use Rattle.office_tables.specs.Alterations.{after_some};

    ghost alteration = { λ one t. after_some A.alteration one t };

    ghost fits = { λ one. IfSome one A.fits };

    fn apply<S: Alter>(&self, tx: &mut Transaction<'_, S>) -> Result<(), Error> {
        match self {
            Some(alteration) => alteration.apply(tx),
            None => Ok(()),
        }
    }
}
