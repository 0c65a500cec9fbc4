// A statement that failed.
use office_model::StoreFault;
use sqlite::Error;

// The fault of a statement that failed; nothing has changed.
#[derive(Clone, Copy)]
pub(crate) struct StatementFailed;

impl From<Error> for StatementFailed {
    ghost from_gives = { λ _ _. Unit {0} };

    fn from(_error: Error) -> StatementFailed {
        StatementFailed
    }
}

impl From<StatementFailed> for StoreFault {
    ghost use Rattle.std.specs.Prelude.{◌≡◌};
    ghost use Rattle.office_model.specs.declared.fault.StoreFault.TheVariants.{Store};

    ghost from_gives = { λ _ e. e ≡ Store };

    fn from(_failed: StatementFailed) -> StoreFault {
        StoreFault::Store
    }
}
