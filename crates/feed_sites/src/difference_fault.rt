//! Why a difference was not written.

ghost use Rattle.std.specs.Prelude.{◌≡◌};
ghost use Rattle.feed_sites.specs.declared.difference_fault.DifferenceFault.TheVariants as faults;

use desk_memory::NoMemory;
use feed_edit::FeedTrouble;
use feed_stored::Unsent;
use thiserror::Error;

/// Why the difference of two stored feeds was not written, by the phase in which it stopped.
#[derive(Clone, Copy, Debug, PartialEq, Eq, Error)]
pub enum DifferenceFault {
    /// The first feed is not opened.
    #[error("{0}")]
    One(FeedTrouble),
    /// The first is, and the other is not.
    #[error("{0}")]
    Other(FeedTrouble),
    /// The writer failed, or took no byte.
    #[error("write fault")]
    Write,
    #[error("no memory")]
    NoMemory,
}

impl From<NoMemory> for DifferenceFault {
    ghost from_gives = { λ _ fault. fault ≡ faults.NoMemory };

    fn from(_: NoMemory) -> DifferenceFault {
        DifferenceFault::NoMemory
    }
}

impl From<Unsent> for DifferenceFault {
    ghost from_gives = { λ _ fault. fault ≡ faults.Write };

    fn from(_: Unsent) -> DifferenceFault {
        DifferenceFault::Write
    }
}
