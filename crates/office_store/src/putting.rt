// The alteration of the tables by a publication.
ghost use Rattle.std.specs.Prelude.{◌≡◌};
ghost use Rattle.sqlite.specs.Held.{state};
ghost use Rattle.office_tables.specs.Steps.{Changes, IsUncommitted};
ghost use Rattle.office_store.specs.PublicationChanges.{mark_put, places_put};
ghost use Rattle.office_store.specs.PublicationChanges.{publication_put, shares_put};
ghost use Rattle.office_store.specs.NewPublications.{AreSmallShares};

use crate::new_publication::NewPublication;
use office_tables::tables::{
    DeleteMeta, DeletePartShares, InsertMeta, InsertPartShares, InsertPlacements, InsertSeats,
    InsertStudentShares,
};
use office_tables::{Alteration, Both, Each};
use sqlite::{Alter, Error, Transaction};

impl Alteration for NewPublication {
    ghost alteration = { publication_put };

    ghost fits = { AreSmallShares };

    fn apply<S: Alter>(&self, tx: &mut Transaction<'_, S>) -> Result<(), Error> {
        put_places(tx, self)?;
        put_shares(tx, self)
    }
}

// Writes the row about the office, if it changes, and the changed placements and seats: first it
// deletes all old seats that go, so that each is free for its next candidate.
fn put_places<S: Alter>(tx: &mut Transaction<'_, S>, new: &NewPublication) -> Result<(), Error>
    ensures same_reference { tx.new.conn.ghost_name ≡ tx.old.conn.ghost_name }
    ensures makes { Changes S.Store (places_put new.now) tx.old.conn.now tx.new.conn.now result }
    ensures within { IsUncommitted (state S.Store tx.old.conn.now) (state S.Store tx.new.conn.now) }
{
    let placements = Both {
        first: Each {
            alterations: &new.deleted_placements,
        },
        second: InsertPlacements {
            rows: &new.placements,
        },
    };
    let seats = Both {
        first: Each {
            alterations: &new.seats_gone,
        },
        second: InsertSeats { rows: &new.seats },
    };
    put_mark(tx, &new.text)?;
    placements.apply(tx)?;
    seats.apply(tx)
}

// Writes the row about the office, if there is a text for it: something is published.
fn put_mark<S: Alter>(tx: &mut Transaction<'_, S>, text: &Option<Vec<u8>>) -> Result<(), Error>
    ensures same_reference { tx.new.conn.ghost_name ≡ tx.old.conn.ghost_name }
    ensures makes { Changes S.Store (mark_put text.now) tx.old.conn.now tx.new.conn.now result }
    ensures within { IsUncommitted (state S.Store tx.old.conn.now) (state S.Store tx.new.conn.now) }
{
    let Some(text) = text else {
        return Ok(());
    };
    let meta = Both {
        first: DeleteMeta,
        second: InsertMeta {
            published: true,
            instance: text,
        },
    };
    meta.apply(tx)
}

// Writes the candidates' changed shares, and all shares of exams, periods and rooms.
fn put_shares<S: Alter>(tx: &mut Transaction<'_, S>, new: &NewPublication) -> Result<(), Error>
    requires small { AreSmallShares new.now }
    ensures same_reference { tx.new.conn.ghost_name ≡ tx.old.conn.ghost_name }
    ensures makes { Changes S.Store (shares_put new.now) tx.old.conn.now tx.new.conn.now result }
    ensures within { IsUncommitted (state S.Store tx.old.conn.now) (state S.Store tx.new.conn.now) }
{
    let students = Both {
        first: Each {
            alterations: &new.deleted_shares,
        },
        second: InsertStudentShares {
            rows: &new.students,
        },
    };
    let parts = Both {
        first: DeletePartShares,
        second: InsertPartShares { rows: &new.parts },
    };
    students.apply(tx)?;
    parts.apply(tx)
}
