//! Why no new feed was made, by the phase in which it stopped.

ghost use Rattle.std.specs.Prelude.{◌≡◌};
ghost use Rattle.feed_edit.specs.declared.fault.KeepFault.TheVariants as keeps;
ghost use Rattle.feed_sites.specs.declared.renew_fault.RenewFault.TheVariants as renewals;

use desk_memory::NoMemory;
use feed_edit::{FeedTrouble, KeepFault, TakeFault};
use thiserror::Error;

/// Why no new feed was made of a stored one.
#[derive(Clone, Copy, Debug, PartialEq, Eq, Error)]
pub enum RenewFault {
    /// The name of the new feed was not taken, or what stands under it was not read.
    #[error("{0}")]
    Take(TakeFault),
    /// A file stands under the name of the new feed, or the stored feed stands where the new one would be written
    /// first.
    #[error("already there")]
    There,
    /// The stored feed does not come in.
    #[error("{0}")]
    Feed(FeedTrouble),
    /// The stored feed came in, and the line was not written, or the new feed not stored.
    #[error("{0}")]
    Keep(KeepFault),
}

impl From<TakeFault> for RenewFault {
    ghost from_gives = { λ why fault. fault ≡ renewals.Take why };

    fn from(why: TakeFault) -> RenewFault {
        RenewFault::Take(why)
    }
}

impl From<FeedTrouble> for RenewFault {
    ghost from_gives = { λ why fault. fault ≡ renewals.Feed why };

    fn from(why: FeedTrouble) -> RenewFault {
        RenewFault::Feed(why)
    }
}

impl From<KeepFault> for RenewFault {
    ghost from_gives = { λ why fault. fault ≡ renewals.Keep why };

    fn from(why: KeepFault) -> RenewFault {
        RenewFault::Keep(why)
    }
}

impl From<NoMemory> for RenewFault {
    ghost from_gives = { λ _ fault. fault ≡ renewals.Keep keeps.NoMemory };

    fn from(_: NoMemory) -> RenewFault {
        RenewFault::Keep(KeepFault::NoMemory)
    }
}
