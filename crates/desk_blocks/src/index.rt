//! Which stamps there are, and the page in which each was put.
ghost use Rattle.std.specs.Prelude.{◌≡◌, ◌≤◌, ◌<◌, ◌+◌, ℕ, [], length, slice_index_or, OnOk, IfOk, IsOk, IsNone};
ghost use Rattle.std.specs.Prelude.{IsSome};
ghost use Rattle.std.specs.List.{insert};
ghost use Rattle.desk_ops.specs.Stamp.{head};
ghost use Rattle.desk_blocks.specs.Rank.{homes_of, IsNoneOf, Knows};
ghost use Rattle.desk_seq.specs.Entries.{AreDistinct, stamps_of};

use desk_ops::Stamp;
use desk_seq::Entry;
use list_pages::{FULL, Pages, Pick};
use std::alloc::{AllocError, Allocator};
use std::marker::Model;

/// A stamp, and the name of the page in which it stands: a hint. Its fields lie in the order that takes 16 bytes, and a
/// page's name in 32 bits, which a list of less than four thousand million pages keeps.
#[derive(Clone, Copy)]
pub struct Home {
    counter: u64,
    page: u32,
    site: u16,
}

impl Model for Home {
    ghost use Rattle.desk_ops.specs.contracts.op.Stamp as stamp;
    ghost use Rattle.desk_blocks.specs.Home.{Home, home_code};

    ghost Value = { Home };

    ghost coded = { home_code (stamp.the_row).coded };

    ghost view = { λ h. record { stamp = record { counter = h.counter; site = h.site }; page = h.page } };

    ghost inverse = { λ h. record { counter = h.stamp.counter; page = h.page; site = h.stamp.site } };
}

impl Home {
    /// A name beyond 32 bits is kept as the greatest that they hold: no hint is believed without a look.
    fn new(stamp: Stamp, page: usize) -> Home
        ensures { result.stamp ≡ stamp }
    {
        Home {
            counter: stamp.counter,
            page: u32::try_from(page).unwrap_or(u32::MAX),
            site: stamp.site,
        }
    }

    fn stamp(self) -> Stamp
        ensures { result ≡ self.stamp }
    {
        Stamp {
            counter: self.counter,
            site: self.site,
        }
    }
}

/// Those with a smaller stamp.
#[derive(Clone, Copy)]
pub struct Below {
    pub stamp: Stamp,
}

impl Pick<Home, ()> for Below {
    ghost use Rattle.desk_ops.specs.Stamp.{before};

    ghost picked = { λ s h. before h.stamp s.stamp };

    fn picks(&self, x: Home) -> bool {
        x.stamp().is_before(self.stamp)
    }

    /// As if the counters of the page rose evenly.
    fn guess(&self, before: Home, last: Home, len: usize) -> Option<usize> {
        let all = last.counter.saturating_sub(before.counter);
        let part = self.stamp.counter.saturating_sub(before.counter);
        if all == 0 || part > all {
            return None;
        }
        let place = part.saturating_mul(len as u64) / all;
        Some((place as usize).saturating_sub(1))
    }
}

/// Those of a stamp.
#[derive(Clone, Copy)]
struct Bearing {
    stamp: Stamp,
}

impl Pick<Home, ()> for Bearing {
    ghost use Rattle.desk_ops.specs.Stamp.{same};

    ghost picked = { λ s h. same h.stamp s.stamp };

    fn picks(&self, x: Home) -> bool {
        x.stamp().is_same(self.stamp)
    }
}

pub struct Index<A: Allocator> {
    homes: Pages<Home, (), A>,
}

// Written out: what drops one calls this, and does not take it apart once more.
impl<A: Allocator> Drop for Index<A> {
    fn drop(self) {
        let Index { homes } = self;
        drop(homes);
    }
}

impl<A: Allocator> Model for Index<A> {
    ghost use Rattle.desk_ops.specs.contracts.op.Stamp as stamp;
    ghost use Rattle.desk_blocks.specs.Rank.{Known, known_code};

    ghost Value = { Known };

    ghost coded = { known_code (stamp.the_row).coded };

    ghost use Rattle.desk_blocks.specs.Rank.{IsRising, homes_of};

    ghost view = { λ a. record { stamps = homes_of a.homes.entries; spare = a.homes.spare } };

    ghost invariant = { λ a. IsRising (homes_of a.homes.entries) };
}

impl<A: Allocator + Copy> Index<A> {
    pub fn new(alloc: A) -> Self
        ensures { result.stamps ≡ [] }
    {
        Index {
            homes: Pages::new(alloc),
        }
    }

    pub fn spare(&self) -> usize
        ensures { result ≡ self.now.spare }
    {
        self.homes.spare()
    }

    pub fn reserve(&mut self, n: usize) -> Result<(), AllocError>
        ensures same { self.new.stamps ≡ self.old.stamps }
        ensures grows { self.old.spare ≤ self.new.spare }
        ensures enough { OnOk result (n ≤ self.new.spare) }
        ensures succeeds { n ≤ self.old.spare → IsOk result }
    {
        self.homes.reserve(n)
    }

    /// Of the stamps of these entries, with the pages in which `Pages::from_slice` puts them.
    pub fn from_entries(alloc: A, list: &[Entry]) -> Result<Self, AllocError>
        requires { AreDistinct list.now }
        ensures { IfOk result (λ index. Knows index.stamps (stamps_of list.now)) }
    {
        let mut homes = homes_of(alloc, list)?;
        homes.sort_unstable_by_key(|home| home.stamp());
        Ok(Index {
            homes: Pages::from_slice(alloc, &homes)?,
        })
    }

    /// The hint of a stamp that is there.
    pub fn get(&self, stamp: Stamp) -> Option<usize>
        ensures none { IsNone result → IsNoneOf stamp self.now.stamps }
        ensures some { IsSome result → (k : ℕ) × (k < length self.now.stamps)
            × (slice_index_or self.now.stamps k head ≡ stamp) }
    {
        let Some(home) = self.homes.seek(&Below { stamp }) else {
            return None;
        };
        if home.stamp().is_same(stamp) {
            Some(home.page as usize)
        } else {
            None
        }
    }

    pub fn put(&mut self, stamp: Stamp, page: usize)
        requires spare { 1 ≤ self.old.spare }
        requires absent { IsNoneOf stamp self.old.stamps }
        ensures put { (i : ℕ) × (i ≤ length self.old.stamps) × (self.new.stamps ≡ insert self.old.stamps i stamp) }
        ensures spare { self.old.spare ≤ self.new.spare + 1 }
    {
        self.homes
            .insert_in_order(&Below { stamp }, Home::new(stamp, page));
    }

    /// Renews the hint of a stamp that is there.
    pub fn renew(&mut self, stamp: Stamp, page: usize)
        ensures same { self.new.stamps ≡ self.old.stamps }
        ensures spare { self.new.spare ≡ self.old.spare }
    {
        self.homes.overwrite(&Below { stamp }, &Bearing { stamp }, Home::new(stamp, page));
    }
}

/// The stamps of these entries, and the pages in which `Pages::from_slice` puts them.
fn homes_of<A: Allocator + Copy>(alloc: A, list: &[Entry]) -> Result<Vec<Home, A>, AllocError>
    ensures { IfOk result (λ homes. homes_of homes.items ≡ stamps_of list.now) }
{
    let mut homes = Vec::with_capacity(alloc, list.len())?;
    for i in 0..list.len() {
        homes.push_reserved(Home::new(list[i].stamp, i / FULL));
    }
    Ok(homes)
}
