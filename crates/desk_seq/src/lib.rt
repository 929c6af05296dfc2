//! The elements of a copy in their order, those that were deleted among them, and the scan that puts a new one in.
//!
//! The crates above use the trait `Sequence`, so a faster kind of list changes no promise. `Flat` is one vector;
//! `desk_blocks` has the fast kind.
//!
//! The scan is the skip scan of RGA (Roh et al. 2011, "Replicated abstract data types: building blocks for
//! collaborative applications"). The order is the timestamped insertion tree of Attiya et al. 2016 ("Specification and
//! complexity of collaborative text editing"), newer siblings first.
//!
//! The scan refuses nothing. Only `reserve`, `symbols` and `from_entries` can run out of memory.
#![tactic(auto)]

ghost use Rattle.std.specs.Prelude.{◌≡◌, ℕ, ◌+◌, ◌≤◌, ◌<◌, ◌^◌, List, [], length, IfSome, IfOk, IsNone, OnOk, IsOk};
ghost use Rattle.std.specs.Prelude.{slice_index_or};
ghost use Rattle.std.specs.List.{insert};
ghost use Rattle.desk_seq.specs.Entries.{stamps_of, IsAbsent, AreDistinct, IsFoundAt, IsFirstBelow, with_mark};
ghost use Rattle.desk_seq.specs.Entries.{shown_in, shown_symbols, IsShownAt};
ghost use Rattle.desk_seq.specs.declared.Entry.{Entry};

use desk_ops::{Stamp, Symbol};
use std::alloc::{AllocError, Allocator};

mod flat;
mod scan;

pub use flat::Flat;
pub use scan::{integrate, integrate_at};

/// An element of the copy. One that is deleted keeps its place, since others hang on it.
#[derive(Clone, Copy, Debug, PartialEq, Eq)]
pub struct Entry {
    pub stamp: Stamp,
    pub symbol: Symbol,
    pub deleted: bool,
}

/// A list of entries with distinct stamps, and how many more it takes with no new memory. No call but `reserve`,
/// `symbols` and `from_entries` can be out of memory: the others return no `AllocError`.
pub trait Sequence: Drop {
    type Memory: Allocator + Copy;

    /// The entries in their order.
    ghost entries: { Self → List Entry };

    /// How many more can be put with no new memory.
    ghost free: { Self → ℕ };

    fn empty(alloc: Self::Memory) -> Self
        ensures { entries result ≡ [] };

    fn len(&self) -> usize
        ensures length { result ≡ length (entries self.now) }
        ensures distinct { AreDistinct (entries self.now) };

    /// The i-th entry.
    fn entry(&self, i: usize) -> Entry
        requires { i < length (entries self.now) }
        ensures { result ≡ slice_index_or (entries self.now) i result };

    /// Where the entry with the stamp stands.
    fn find(&self, stamp: Stamp) -> Option<usize>
        ensures found { IfSome result (λ i. IsFoundAt (stamps_of (entries self.now)) stamp i) }
        ensures fits { IfSome result (λ i. i + 1 < 2 ^ 64) }
        ensures none { IsNone result → IsAbsent stamp (entries self.now) };

    /// Does what a put has left for the next `find`, which without it answers the same, but may have to look at all
    /// entries.
    fn prepare_find(&mut self)
        ensures same { entries self.new ≡ entries self.old }
        ensures spare { free self.new ≡ free self.old }
    {
        // A list that looks at all entries leaves nothing.
    }

    /// How many more can be put with no new memory.
    fn spare(&self) -> usize
        ensures { result ≡ free self.now };

    /// Makes room for at least `n` more. Where a growth was refused the entries stay, and spare may have grown.
    fn reserve(&mut self, n: usize) -> Result<(), AllocError>
        ensures same { entries self.new ≡ entries self.old }
        ensures grows { free self.old ≤ free self.new }
        ensures enough { OnOk result (n ≤ free self.new) }
        ensures succeeds { n ≤ free self.old → IsOk result };

    /// Puts an entry at place i, before the one that stood there.
    fn put(&mut self, i: usize, entry: Entry)
        requires within { i ≤ length (entries self.old) }
        requires spare { 1 ≤ free self.old }
        requires absent { IsAbsent entry.stamp (entries self.old) }
        ensures put { entries self.new ≡ insert (entries self.old) i entry }
        ensures spare { free self.old ≤ free self.new + 1 };

    /// Marks the i-th entry as deleted.
    fn mark(&mut self, i: usize)
        requires { i < length (entries self.old) }
        ensures marked { entries self.new ≡ with_mark (entries self.old) i }
        ensures spare { free self.new ≡ free self.old };

    /// The first place from there on whose stamp is smaller, or the end.
    fn first_below(&self, from: usize, stamp: Stamp) -> usize
        requires { from ≤ length (entries self.now) }
        ensures { IsFirstBelow (stamps_of (entries self.now)) from stamp result }
    {
        let mut at = from;
        while at < self.len() && !self.entry(at).stamp.is_before(stamp) {
            at += 1;
        }
        at
    }

    /// The place of the i-th entry that is shown.
    fn shown_place(&self, i: usize) -> Option<usize>
        ensures found { IfSome result (λ place. IsShownAt (entries self.now) i place) }
        ensures none { IsNone result → shown_in (entries self.now) ≤ i }
    {
        let mut shown = 0;
        for at in 0..self.len() {
            if !self.entry(at).deleted {
                if shown == i {
                    return Some(at);
                }
                shown += 1;
            }
        }
        None
    }

    /// How many entries are shown.
    fn shown_len(&self) -> usize
        ensures { result ≡ shown_in (entries self.now) }
    {
        let mut count = 0;
        for at in 0..self.len() {
            if self.entry(at).deleted {
                continue;
            }
            count += 1;
        }
        count
    }

    /// The symbols of the entries that are shown, in their order.
    fn symbols(&self, alloc: Self::Memory) -> Result<Vec<Symbol, Self::Memory>, AllocError>
        ensures { IfOk result (λ v. v.items ≡ shown_symbols (entries self.now)) }
    {
        let mut symbols = Vec::with_capacity(alloc, self.shown_len())?;
        for at in 0..self.len() {
            let entry = self.entry(at);
            if !entry.deleted {
                symbols.push(entry.symbol)?;
            }
        }
        Ok(symbols)
    }

    /// A sequence of these entries.
    fn from_entries(alloc: Self::Memory, list: &[Entry]) -> Result<Self, AllocError>
        requires { AreDistinct list.now }
        ensures { IfOk result (λ made. entries made ≡ list.now) }
    {
        let mut made = Self::empty(alloc);
        made.reserve(list.len())?;
        for i in 0..list.len() {
            made.put(i, list[i]);
        }
        Ok(made)
    }
}
