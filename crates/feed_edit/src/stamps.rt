//! Stamps by site, and lists of them.

ghost use Rattle.std.specs.Prelude.{◌≡◌};
ghost use Rattle.feed_edit.specs.Stamps.{site_stamp_of};

use desk_ops::Stamp;
use std::alloc::Allocator;
use std::marker::Model;

/// A stamp, ordered by its site and then by its counter.
#[derive(Clone, Copy, Debug, PartialEq, Eq, PartialOrd, Ord)]
pub struct SiteStamp {
    pub site: u16,
    pub counter: u64,
}

impl SiteStamp {
    /// A stamp, to be ordered by its site first.
    pub fn of(stamp: Stamp) -> SiteStamp
        ensures { result ≡ site_stamp_of stamp }
    {
        SiteStamp {
            site: stamp.site,
            counter: stamp.counter,
        }
    }
}

/// Stamps, by site and then by counter.
#[derive(Drop)]
#[derive_where(Debug)]
pub struct SiteStamps<A: Allocator> {
    stamps: Vec<SiteStamp, A>,
}

impl<A: Allocator> Model for SiteStamps<A> {
    ghost use Rattle.std.specs.Prelude.{List};
    ghost use Rattle.feed_edit.specs.declared.stamps.SiteStamp.{SiteStamp};

    ghost Value = { List SiteStamp };

    ghost view = { λ f. f.stamps.items };
}

impl<A: Allocator> PartialEq for SiteStamps<A> {
    ghost use Rattle.std.specs.Cmp.Lexicographic.{lists_per, pointwise};
    ghost use Rattle.feed_edit.specs.contracts.stamps.SiteStampPartialEq.TheImpl as one;
    ghost use Rattle.feed_edit.specs.contracts.stamps.SiteStampPartialEq.TheImpl.Laws.{laws-law};

    ghost eq = { pointwise (one.ghosts).eq };

    ghost laws = { lists_per laws-law };

    fn eq(&self, other: &Self) -> bool {
        self.stamps == other.stamps
    }
}

impl<A: Allocator> Eq for SiteStamps<A> {
    ghost use Rattle.std.specs.Cmp.Lexicographic.{lists_equiv};
    ghost use Rattle.feed_edit.specs.contracts.stamps.SiteStampEq.TheImpl.Laws.{laws-law};

    ghost laws = { lists_equiv laws-law };
}

impl<A: Allocator> SiteStamps<A> {
    ghost use Rattle.std.specs.Prelude.{◌≡◌};

    pub fn from_vec(stamps: Vec<SiteStamp, A>) -> SiteStamps<A>
        ensures { result ≡ stamps.items }
    {
        SiteStamps { stamps }
    }

    pub fn as_slice(&self) -> &[SiteStamp]
        ensures { result.now ≡ self.now }
    {
        self.stamps.as_slice()
    }
}
