//! Why bytes are no feed.

ghost use Rattle.std.specs.Prelude.{◌≡◌};
ghost use Rattle.desk_codec.specs.declared.fault.FeedWhy.TheVariants as feed_why;
ghost use Rattle.desk_codec.specs.declared.fault.ReadFault.TheVariants.{NoMemory};

use desk_ops::Unlawful;
use std::alloc::AllocError;
use thiserror::Error;

/// What is wrong at a place of a feed.
#[derive(Clone, Copy, Debug, PartialEq, Eq, Error)]
pub enum FeedWhy {
    /// The feed does not begin with its magic.
    #[error("no feed begins so")]
    Magic,
    /// No operation begins with this byte.
    #[error("no such kind of operation")]
    Kind,
    /// The operation is not lawful.
    #[error("unlawful: {0}")]
    Unlawful(Unlawful),
    /// The feed ends inside the operation or run.
    #[error("cut off")]
    Cut,
    /// A run has 2 to 64 inserts, and this one has another count.
    #[error("no run has so many")]
    Run,
}

impl From<Unlawful> for FeedWhy {
    ghost from_gives = { λ first why. why ≡ feed_why.Unlawful first };

    fn from(first: Unlawful) -> FeedWhy {
        FeedWhy::Unlawful(first)
    }
}

/// The first fault from the left, and the place of the first byte of its operation or run.
#[derive(Clone, Copy, Debug, PartialEq, Eq, Error)]
#[error("at byte {at}: {why}")]
pub struct FeedFault {
    pub at: u64,
    pub why: FeedWhy,
}

/// Why no operations were read.
#[derive(Clone, Copy, Debug, PartialEq, Eq, Error)]
pub enum ReadFault {
    #[error("{0}")]
    Fault(FeedFault),
    /// An earlier call has reported a fault, or `finish` was called.
    #[error("the reading has ended")]
    Failed,
    /// A growth was refused.
    #[error("no memory")]
    NoMemory,
}

impl From<AllocError> for ReadFault {
    ghost from_gives = { λ _ fault. fault ≡ NoMemory };

    fn from(_error: AllocError) -> ReadFault {
        ReadFault::NoMemory
    }
}
