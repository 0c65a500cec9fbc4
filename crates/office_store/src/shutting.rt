// Whether a disk failure has closed the store.
ghost use Rattle.std.specs.Prelude.{◌≡◌, ◌≢◌, IfErr, IfOk, MatchBool, None, Some};
ghost use Rattle.sqlite.specs.Held.{state};
ghost use Rattle.sqlite.specs.State.{HasCleanDisk};
ghost use Rattle.office_store.specs.Leaving.{LeavesAsItWas};
ghost use Rattle.office_store.specs.Running.{IsCommitted};
ghost use Rattle.office_store.specs.Shut.{IsShut};

use crate::office::Office;
use office_model::StoreFault;
use sqlite::{Alter, Error, ErrorCode};

impl<S: Alter> Office<S> {
    /// Returns whether a disk failure has closed the store; then each call that needs the file
    /// fails until the office is opened again. `Err`: unknown, because memory ran out.
    pub fn is_shut(&mut self) -> Result<bool, StoreFault>
        ensures shut { HasCleanDisk (state S.Store self.new) → IfOk result (λ is_shut.
            MatchBool is_shut (IsShut (state S.Store self.new))
            (IsCommitted (state S.Store self.new))) }
        ensures leaves { LeavesAsItWas S.Store self.old self.new }
        ensures fault { IfErr result (λ e. e ≡ StoreFault.Store) }
    {
        self.lemma_at_rest();
        // The empty statement does nothing; only a closed store refuses it as `Closed`.
        is_shut_by(self.conn.prepare("").err())
    }
}

// Returns whether the store is closed, by the error of a statement that does nothing, or none.
fn is_shut_by(refused: Option<Error>) -> Result<bool, StoreFault>
    ensures shut { IfOk result (λ is_shut. MatchBool is_shut
        (refused ≡ Some (Error.SqliteFailure ErrorCode.Closed)) (refused ≡ None)) }
    ensures fault { IfErr result (λ e. e ≡ StoreFault.Store) }
    // A statement that ran, or was refused because the store is closed, says whether it is.
    ensures unknown { IfErr result (λ _.
        (refused ≢ None) × (refused ≢ Some (Error.SqliteFailure ErrorCode.Closed))) }
{
    match refused {
        None => Ok(false),
        Some(Error::SqliteFailure(ErrorCode::Closed)) => Ok(true),
        Some(_) => Err(StoreFault::Store),
    }
}
