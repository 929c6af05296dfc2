//! Why a check stopped.

ghost use Rattle.std.specs.Prelude.{◌≡◌};
ghost use Rattle.feed_check.specs.declared.fault.CheckFault.TheVariants as faults;

use desk_memory::NoMemory;
use feed_stored::Unsent;
use thiserror::Error;

/// Why a check stopped before its end.
#[derive(Clone, Copy, Debug, PartialEq, Eq, Error)]
pub enum CheckFault {
    /// The writer failed, or took no byte.
    #[error("write fault")]
    Write,
    #[error("no memory")]
    NoMemory,
}

impl From<NoMemory> for CheckFault {
    ghost from_gives = { λ _ fault. fault ≡ faults.NoMemory };

    fn from(_: NoMemory) -> CheckFault {
        CheckFault::NoMemory
    }
}

impl From<Unsent> for CheckFault {
    ghost from_gives = { λ _ fault. fault ≡ faults.Write };

    fn from(_: Unsent) -> CheckFault {
        CheckFault::Write
    }
}
