//! A sequence in pages.
ghost use Rattle.std.specs.Prelude.{◌≡◌, ◌<◌, ◌≤◌, ◌+◌, length, min, IfSome};
ghost use Rattle.std.specs.List.{count_by};
ghost use Rattle.desk_seq.specs.Entries.{is_shown};
ghost use Rattle.desk_blocks.specs.Tally.{IsAt};

use crate::index::Index;
use crate::slot::{Slot, add_shown, slots_of};
use crate::tally::{Bearing, Below, Shown, Tally};
use desk_ops::{Stamp, Symbol};
use desk_seq::{Entry, Sequence};
use list_pages::{FULL, Pages};
use std::alloc::{AllocError, Allocator};
use std::marker::Model;

/// A sequence in pages of at most 256, with an index of its stamps.
pub struct Blocks<A: Allocator> {
    pages: Pages<Slot, Tally, A>,
    index: Index<A>,
    shown: usize,
    /// The names of the pages that were cut off others, of whose stamps the hints are not renewed yet.
    cut: Vec<usize, A>,
}

// Written out: what drops one calls this, and does not take it apart once more.
impl<A: Allocator> Drop for Blocks<A> {
    fn drop(self) {
        let Blocks {
            pages,
            index,
            shown: _,
            cut,
        } = self;
        drop(pages);
        drop(index);
        drop(cut);
    }
}

impl<A: Allocator> Model for Blocks<A> {
    ghost use Rattle.std.specs.Prelude.{◌≡◌, min};
    ghost use Rattle.std.specs.List.{count_by};
    ghost use Rattle.desk_seq.specs.Entries.{Listing, listing_code, AreDistinct, is_shown, stamps_of};
    ghost use Rattle.desk_seq.specs.contracts.Entry as entry;
    ghost use Rattle.desk_blocks.specs.Rank.{Knows};

    ghost Value = { Listing };

    ghost coded = { listing_code (entry.the_row).coded };

    ghost view = { λ a. record { entries = a.pages.entries; spare = min a.pages.spare a.index.spare } };

    ghost invariant = { λ a. AreDistinct a.pages.entries × Knows a.index.stamps (stamps_of a.pages.entries)
        × (a.shown ≡ count_by is_shown a.pages.entries) };
}

impl<A: Allocator + Copy> Blocks<A> {
    /// How many entries stand side by side in memory from place i on: one at least, and none beyond the end.
    pub fn stretch_len(&self, i: usize) -> usize
        requires { i < length self.now.entries }
        ensures some { 0 < result }
        ensures within { i + result ≤ length self.now.entries }
    {
        self.pages.stretch(i).len()
    }
}

impl<A: Allocator + Copy> Sequence for Blocks<A> {
    type Memory = A;

    ghost entries = { λ s. s.entries };

    ghost free = { λ s. s.spare };

    fn empty(alloc: A) -> Self {
        Blocks {
            pages: Pages::new(alloc),
            index: Index::new(alloc),
            shown: 0,
            cut: Vec::new(alloc),
        }
    }

    fn len(&self) -> usize {
        self.pages.len()
    }

    fn entry(&self, i: usize) -> Entry {
        self.pages.entry(i).entry()
    }

    fn find(&self, stamp: Stamp) -> Option<usize> {
        let Some(hint) = self.index.get(stamp) else {
            return None;
        };
        if let Some((start, items)) = self.pages.named(hint) {
            if let Some(j) = spot_in(items, stamp) {
                return Some(start + j);
            }
        }
        match self.pages.nth(0, &Bearing { stamp }, 0) {
            Ok(place) => Some(place),
            Err(_) => None,
        }
    }

    fn spare(&self) -> usize {
        self.pages.spare().min(self.index.spare())
    }

    fn prepare_find(&mut self) {
        renew_pages(&mut self.index, &self.pages, &self.cut);
        self.cut.clear();
    }

    fn reserve(&mut self, n: usize) -> Result<(), AllocError> {
        if n <= self.spare() {
            return Ok(());
        }
        self.index.reserve(n)?;
        self.pages.reserve(n)?;
        self.cut
            .reserve(self.pages.len().saturating_add(n) / (FULL / 2))
    }

    fn put(&mut self, i: usize, entry: Entry) {
        let placed = self.pages.insert(i, Slot::of(entry));
        self.index.put(entry.stamp, placed.page);
        self.shown += !entry.deleted as usize;
        if let Some(from) = placed.cut
            && from < self.pages.len()
        {
            let name = self.pages.name_at(from);
            if self.cut.len() < self.cut.capacity() {
                self.cut.push_reserved(name);
            } else {
                renew_all(&mut self.index, self.pages.stretch(from), name);
            }
        }
    }

    fn mark(&mut self, i: usize) {
        let slot = self.pages.entry(i);
        self.pages.set(i, slot.marked());
        self.shown -= !slot.is_deleted() as usize;
    }

    fn first_below(&self, from: usize, stamp: Stamp) -> usize {
        match self.pages.nth(from, &Below { stamp }, 0) {
            Ok(place) => place,
            Err(_) => self.pages.len(),
        }
    }

    fn shown_place(&self, i: usize) -> Option<usize> {
        match self.pages.nth_of_all(&Shown, self.shown, i) {
            Ok(place) => Some(place),
            Err(_) => None,
        }
    }

    fn shown_len(&self) -> usize {
        self.shown
    }

    fn symbols(&self, alloc: A) -> Result<Vec<Symbol, A>, AllocError> {
        let mut symbols = Vec::with_capacity(alloc, self.shown_len())?;
        let mut at = 0;
        while at < self.pages.len() {
            let part = self.pages.stretch(at);
            add_shown(&mut symbols, part)?;
            at += part.len();
        }
        Ok(symbols)
    }

    fn from_entries(alloc: A, list: &[Entry]) -> Result<Self, AllocError> {
        let index = Index::from_entries(alloc, list)?;
        let slots = slots_of(alloc, list)?;
        Ok(Blocks {
            pages: Pages::from_slice(alloc, &slots)?,
            index,
            shown: shown_in(list),
            cut: Vec::new(alloc),
        })
    }
}

/// How many of these are shown.
fn shown_in(list: &[Entry]) -> usize
    ensures { result ≡ count_by is_shown list.now }
{
    let mut shown: usize = 0;
    for i in 0..list.len() {
        shown += !list[i].deleted as usize;
    }
    shown
}

/// A place of the stamp in a page: what was put last is most often asked for, and most often stands last.
fn spot_in(items: &[Slot], stamp: Stamp) -> Option<usize>
    ensures { IfSome result (λ j. IsAt items.now stamp j) }
{
    for j in (0..items.len()).rev() {
        if items[j].stamp().is_same(stamp) {
            return Some(j);
        }
    }
    None
}

/// The hints of all that stands in the pages of these names.
fn renew_pages<A: Allocator + Copy>(
    index: &mut Index<A>,
    pages: &Pages<Slot, Tally, A>,
    names: &[usize],
)
    ensures same { index.new.stamps ≡ index.old.stamps }
    ensures spare { index.new.spare ≡ index.old.spare }
{
    for name in names {
        if let Some((_, items)) = pages.named(*name) {
            renew_all(index, items, *name);
        }
    }
}

/// The hints of all of these.
fn renew_all<A: Allocator + Copy>(index: &mut Index<A>, items: &[Slot], name: usize)
    ensures same { index.new.stamps ≡ index.old.stamps }
    ensures spare { index.new.spare ≡ index.old.spare }
{
    for slot in items {
        index.renew(slot.stamp(), name);
    }
}
