// Why a part of a session is refused.
ghost use Rattle.std.specs.Prelude.{◌≡◌};
ghost use Rattle.exam_model.specs.declared.fault.ModelFault.TheVariants.{NoMemory};

use std::alloc::AllocError;

/// Why a part of the model is refused.
#[derive(Clone, Copy, Debug, PartialEq, Eq)]
pub enum ModelFault {
    /// A number or a count is beyond its limit, or a date doesn't exist.
    Range = 1,
    /// A number refers to nothing that exists.
    NoSuch = 2,
    /// Out of memory.
    NoMemory = 3,
}

impl From<AllocError> for ModelFault {
    ghost from_gives = { λ _ e. e ≡ NoMemory };

    fn from(_error: AllocError) -> ModelFault {
        ModelFault::NoMemory
    }
}
