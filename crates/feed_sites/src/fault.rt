//! Why a feed was not renumbered, by the phase in which it stopped.

ghost use Rattle.std.specs.Prelude.{◌≡◌};
ghost use Rattle.feed_sites.specs.declared.fault.NumberFault.TheVariants as numbers;
ghost use Rattle.feed_sites.specs.declared.fault.RenumberFault.TheVariants as faults;

use desk_memory::NoMemory;
use desk_ops::Stamp;
use feed_edit::{FeedTrouble, KeepFault, TakeFault};
use thiserror::Error;

/// Why a number does not serve.
#[derive(Clone, Copy, Debug, PartialEq, Eq, Error)]
pub enum NumberFault {
    /// An operation of one of the feeds bears a stamp of that number, or names one.
    #[error("number in use")]
    InUse,
    /// An operation that is not moved names one that is: somebody has seen it under its old number. The stamp of the
    /// first such operation of the feed, or else of the other.
    #[error("seen by another room")]
    Seen(Stamp),
    /// Two operations of different sites would get one stamp.
    #[error("number in use")]
    Clash,
    /// Memory ran out once both feeds were opened.
    #[error("no memory")]
    NoMemory,
}

/// Why a feed was not renumbered.
#[derive(Clone, Copy, Debug, PartialEq, Eq, Error)]
pub enum RenumberFault {
    /// The stored feed was not taken.
    #[error("{0}")]
    Take(TakeFault),
    /// It was, and the other feed is not opened.
    #[error("{0}")]
    Other(FeedTrouble),
    /// Both were opened, and the number does not serve.
    #[error("{0}")]
    Number(NumberFault),
    /// All was made, and it was not written or not stored.
    #[error("{0}")]
    Keep(KeepFault),
}

impl From<NoMemory> for NumberFault {
    ghost from_gives = { λ _ fault. fault ≡ numbers.NoMemory };

    fn from(_: NoMemory) -> NumberFault {
        NumberFault::NoMemory
    }
}

impl From<TakeFault> for RenumberFault {
    ghost from_gives = { λ why fault. fault ≡ faults.Take why };

    fn from(why: TakeFault) -> RenumberFault {
        RenumberFault::Take(why)
    }
}

impl From<FeedTrouble> for RenumberFault {
    ghost from_gives = { λ why fault. fault ≡ faults.Other why };

    fn from(why: FeedTrouble) -> RenumberFault {
        RenumberFault::Other(why)
    }
}

impl From<NumberFault> for RenumberFault {
    ghost from_gives = { λ why fault. fault ≡ faults.Number why };

    fn from(why: NumberFault) -> RenumberFault {
        RenumberFault::Number(why)
    }
}

impl From<KeepFault> for RenumberFault {
    ghost from_gives = { λ why fault. fault ≡ faults.Keep why };

    fn from(why: KeepFault) -> RenumberFault {
        RenumberFault::Keep(why)
    }
}
