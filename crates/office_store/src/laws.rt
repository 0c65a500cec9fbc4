// Laws of the office's tables: functions with no code, whose contracts are the laws.
ghost use Rattle.std.specs.Prelude.{◌≡◌, Result};
ghost use Rattle.sqlite.specs.Effect.{Database, IsDatabase};
ghost use Rattle.sqlite.specs.Held.{Held, state};
ghost use Rattle.sqlite.specs.State.{HasCleanDisk};
ghost use Rattle.sqlite_trees.specs.Tree.{Trees};
ghost use Rattle.office_model.specs.Commands.{CommandResult};
ghost use Rattle.office_model.specs.Office.{OfficeState};
ghost use Rattle.office_model.specs.declared.fault.StoreFault.{StoreFault};
ghost use Rattle.office_records.specs.Representation.{RepresentsOffice};
ghost use Rattle.office_store.specs.Crashes.{IsBeforeOrAfter, OpenedAfter};
ghost use Rattle.office_store.specs.Leaving.{LeavesNext, LeavesOpened, MayOpen, connection_of};
ghost use Rattle.office_store.specs.Opening.{IsOfficeOf};
ghost use Rattle.office_store.specs.Publications.{StoredAddUp};
ghost use Rattle.office_store.specs.Running.{IsCommitted};

use sqlite::Alter;

/// If tables represent an office with a publication, their rows of shares add up to its penalty by
/// the enrolments of the publication, in total and part by part.
pub fn stored_shares_add_up()
    ensures { (db : Database) (office : OfficeState) (kept : RepresentsOffice db office)
        → StoredAddUp office kept.held.share_student kept.held.share_part }
{}

/// If a store is open and all is committed, as after an `Ok`, then a later opening finds exactly
/// what is there now.
pub fn awake_store_leaves_its_tables<S: Alter>()
    ensures { (conn : Held S) (found : Trees) → IsCommitted (state S.Store conn)
        → (state S.Store conn).may_leave found → found ≡ (state S.Store conn).now.trees }
{}

/// After a crash a later opening, by any store, finds the office from before the last call or the one
/// after it. What is open and committed is found as it is.
///
/// `open` and `adopt` say what they answer for the office that is found: `BadSchema` never.
pub fn crash_leaves_an_office<S: Alter, T: Alter, A>()
    // Nothing runs: the database is found as it is.
    ensures kept { (old : Held S) (opened : Held T) → IsCommitted (state S.Store old)
        → IsDatabase (state S.Store old).now
        → OpenedAfter (state S.Store old) (state T.Store opened)
        → (state T.Store opened).now ≡ (state S.Store old).now }
    // A command runs.
    ensures change { (command : OfficeState → CommandResult A) (old new : Held S)
        (result : Result A StoreFault) (opened : Held T) (office : OfficeState)
        → IsCommitted (state S.Store old) → IsDatabase (state S.Store old).now
        → RepresentsOffice (state S.Store old).now office
        → LeavesNext S.Store command old new result → HasCleanDisk (state S.Store new)
        → OpenedAfter (state S.Store new) (state T.Store opened)
        → IsBeforeOrAfter command office result (state T.Store opened).now }
    // An office is opened: it is created, or its tables are migrated, or nothing is changed.
    ensures opening { (old : Held S) (result : Result (Held S) (StoreFault × Held S))
        (opened : Held T) (office : OfficeState)
        → IsCommitted (state S.Store old) → IsDatabase (state S.Store old).now
        → IsOfficeOf (state S.Store old).now office
        → LeavesOpened S.Store MayOpen old result
        → HasCleanDisk (state S.Store (connection_of result))
        → OpenedAfter (state S.Store (connection_of result)) (state T.Store opened)
        → IsOfficeOf (state T.Store opened).now office }
{}
