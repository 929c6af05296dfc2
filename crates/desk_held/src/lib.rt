//! The operations that a replica holds: a finite set, kept in order.
//!
//! It is kept by stamp and then by bytes, so that equal sets are written alike byte for byte. What is newest stands
//! last, where a site's own operations are added.
#![tactic(auto)]

ghost use Rattle.std.specs.Prelude.{◌≡◌, ◌+◌, ◌-◌, ◌≤◌, ◌<◌, ◌↔◌, take, drop, IfOk, OnOk, OnErr, IsErrOf, IsOk, IsTrue};
ghost use Rattle.std.specs.Prelude.{All, true, false, slice_index_or};
ghost use Rattle.desk_ops.specs.Op.{IsLawful};
ghost use Rattle.desk_ops.specs.OpSet.{no_ops, has_op, with_op, in_order, size, AllLawful};
ghost use Rattle.desk_ops.specs.Held.{is_borne_in, is_clear_in, clear_op_in, greatest_counter_of, IsUnforked};

use desk_memory::NoMemory;
use desk_ops::{Op, Stamp};
use list_pages::Pages;
use rising::all_rise;
use search::{Below, Earlier, UpTo};
use std::alloc::Allocator;
use std::marker::Model;
use thiserror::Error;

mod join;
mod missing;
mod passing;
mod rising;
mod search;
mod slots;

pub use join::Stopped;
pub use missing::put_in_turn;
pub use slots::{Slot, add_ops, append, entry, insert_in_order, remove_in_order, seek, slots_of};

/// The greatest number of operations that are held.
pub const LIMIT: usize = 1_048_576;

/// What adding an operation did.
#[derive(Clone, Copy, Debug, PartialEq, Eq)]
pub enum Added {
    /// It was not held, and nor was another with its stamp.
    New,
    /// It was held already.
    Known,
    /// It was not held, but another operation with its stamp is. Now both are held.
    Forks,
}

/// Why an operation was not added. The set is then as it was.
#[derive(Clone, Copy, Debug, PartialEq, Eq, Error)]
pub enum AddRefusal {
    #[error("as many operations are held as may be")]
    Full,
    #[error("no memory")]
    NoMemory,
}

impl From<NoMemory> for AddRefusal {
    ghost use Rattle.std.specs.Prelude.{◌≡◌};
    ghost use Rattle.desk_held.specs.declared.AddRefusal.TheVariants as refusal;

    ghost from_gives = { λ _ why. why ≡ refusal.NoMemory };

    fn from(_: NoMemory) -> AddRefusal {
        AddRefusal::NoMemory
    }
}

/// A finite set of lawful operations, by stamp and then by bytes, in pages; with room for some more.
pub struct Held<A: Allocator + Copy> {
    ops: Pages<Slot, (), A>,
    alloc: A,
}

// Written out: what drops one calls this, and does not take it apart once more.
impl<A: Allocator + Copy> Drop for Held<A> {
    fn drop(self) {
        let Held { ops, alloc: _ } = self;
        drop(ops);
    }
}

impl<A: Allocator + Copy> Model for Held<A> {
    ghost use Rattle.desk_ops.specs.OpSet.{from_rising};
    ghost use Rattle.desk_held.specs.Holding.{Holding, holding_code, IsKept};

    ghost Value = { Holding };

    ghost coded = { holding_code };

    ghost view = { λ a. record { ops = from_rising a.ops.entries; spare = a.ops.spare } };

    ghost invariant = { λ a. IsKept a.ops.entries };
}

impl<A: Allocator + Copy> Held<A> {
    ghost use Rattle.desk_held.specs.Holding.{added_to};

    #[tactic(auto, using(desk_ops::proofs::OpSets::op_sets))]
    pub fn new(alloc: A) -> Self
        ensures { result.ops ≡ no_ops }
    {
        Held {
            ops: Pages::new(alloc),
            alloc,
        }
    }

    /// The number of operations held.
    #[tactic(auto, using(desk_ops::proofs::OpSets::op_sets))]
    pub fn len(&self) -> usize
        ensures value { result ≡ size self.now.ops }
        ensures within { result ≤ LIMIT }
        ensures lawful { AllLawful self.now.ops }
    {
        self.ops.len()
    }

    pub fn is_empty(&self) -> bool
        ensures { IsTrue result ↔ (size self.now.ops ≡ 0) }
    {
        self.len() == 0
    }

    /// How many more operations can be added with no new memory.
    pub fn spare(&self) -> usize
        ensures { result ≡ self.now.spare }
    {
        self.ops.spare()
    }

    /// Makes room for at least `n` more operations.
    pub fn reserve(&mut self, n: usize) -> Result<(), NoMemory>
        ensures same { self.new.ops ≡ self.old.ops }
        ensures grows { self.old.spare ≤ self.new.spare }
        ensures room { OnOk result (n ≤ self.new.spare) }
        ensures enough { n ≤ self.old.spare → IsOk result }
    {
        self.ops.reserve(n)?;
        Ok(())
    }

    pub fn has(&self, op: &Op) -> bool
        ensures { result ≡ has_op self.now.ops op.now }
    {
        match seek(&self.ops, &Earlier { op: *op }) {
            Some(first) => first == *op,
            None => false,
        }
    }

    /// Adds an operation. `Full` comes exactly where 1,048,576 operations are held and this one is not; out of memory
    /// only where the operation is not held and there was no room. With room it cannot run out of memory.
    pub fn add(&mut self, op: Op) -> Result<Added, AddRefusal>
        requires { IsLawful op }
        ensures added { IfOk result (λ a. a ≡ added_to self.old.ops op) }
        ensures ok { OnOk result (self.new.ops ≡ with_op self.old.ops op) }
        ensures err { OnErr result (self.new.ops ≡ self.old.ops) }
        ensures full { IsErrOf result AddRefusal.Full
            ↔ ((has_op self.old.ops op ≡ false) × (size self.old.ops ≡ LIMIT)) }
        ensures memory { IsErrOf result AddRefusal.NoMemory → (has_op self.old.ops op ≡ false) × (self.old.spare ≡ 0) }

        // A known operation takes no room, another at most one, and a refusal none.
        ensures known_spare { has_op self.old.ops op ≡ true → self.new.spare ≡ self.old.spare }
        ensures spare { self.old.spare ≤ self.new.spare + 1 }
        ensures err_spare { OnErr result (self.old.spare ≤ self.new.spare) }
    {
        if self.has(&op) {
            return Ok(Added::Known);
        }
        if self.len() == LIMIT {
            return Err(AddRefusal::Full);
        }
        let forks = self.holds(op.stamp());
        self.reserve(1)?;
        self.put(op);
        Ok(if forks { Added::Forks } else { Added::New })
    }

    /// Adds an operation that is not held, where there is room for it. It cannot run out of memory.
    pub fn put(&mut self, op: Op)
        requires lawful { IsLawful op }
        requires absent { has_op self.old.ops op ≡ false }
        requires below { size self.old.ops < LIMIT }
        requires spare { 1 ≤ self.old.spare }
        ensures ops { self.new.ops ≡ with_op self.old.ops op }
        ensures spare { self.old.spare ≤ self.new.spare + 1 }
    {
        insert_in_order(&mut self.ops, &Earlier { op }, op);
    }

    /// Whether some held operation bears the stamp.
    pub fn holds(&self, stamp: Stamp) -> bool
        ensures { result ≡ is_borne_in self.now.ops stamp }
    {
        match seek(&self.ops, &Below { stamp }) {
            Some(first) => first.stamp().is_same(stamp),
            None => false,
        }
    }

    /// The operation that bears the stamp, where exactly one does.
    pub fn clear_op(&self, stamp: Stamp) -> Option<Op>
        ensures { result ≡ clear_op_in self.now.ops stamp }
    {
        let Some(first) = seek(&self.ops, &Below { stamp }) else {
            return None;
        };
        if !first.stamp().is_same(stamp) {
            return None;
        }
        let Some(next) = seek(&self.ops, &UpTo { op: first }) else {
            return Some(first);
        };
        if next.stamp().is_same(stamp) {
            return None;
        }
        Some(first)
    }

    /// Whether exactly one operation bears the stamp.
    pub fn is_clear(&self, stamp: Stamp) -> bool
        ensures { result ≡ is_clear_in self.now.ops stamp }
    {
        self.clear_op(stamp).is_some()
    }

    /// Whether no stamp is borne by more than one operation. It is one pass over all, and cannot run out of memory.
    pub fn is_unforked(&self) -> bool
        ensures { IsTrue result ↔ IsUnforked self.now.ops }
    {
        all_rise(&self.ops)
    }

    /// The greatest counter that is held, or 0 where nothing is.
    pub fn greatest_counter(&self) -> u64
        ensures { result ≡ greatest_counter_of self.now.ops }
    {
        let len = self.ops.len();
        if len == 0 {
            return 0;
        }
        entry(&self.ops, len - 1).stamp().counter
    }

    /// The i-th operation, by stamp and then by bytes.
    #[tactic(auto, using(desk_ops::proofs::OpSets::op_sets))]
    pub fn op(&self, i: usize) -> Op
        requires { i < size self.now.ops }
        ensures value { result ≡ slice_index_or (in_order self.now.ops) i result }
        ensures lawful { IsLawful result }
    {
        entry(&self.ops, i)
    }

    /// The operations from place `from` up to place `until`, by stamp and then by bytes. It reads those alone.
    #[tactic(auto, using(desk_ops::proofs::OpSets::op_sets))]
    pub fn range(&self, from: usize, until: usize) -> Result<Vec<Op, A>, NoMemory>
        requires order { from ≤ until }
        requires within { until ≤ size self.now.ops }
        ensures items { IfOk result (λ v. v.items ≡ take (until - from) (drop from (in_order self.now.ops))) }
        ensures lawful { IfOk result (λ v. All IsLawful v.items) }
    {
        let mut list = Vec::with_capacity(self.alloc, until - from)?;
        let mut at = from;
        while at < until {
            let part = self.ops.stretch(at);
            let many = part.len().min(until - at);
            append(&mut list, &part[..many])?;
            at += many;
        }
        Ok(list)
    }

    /// The operations, by stamp and then by bytes.
    #[tactic(auto, using(desk_ops::proofs::OpSets::op_sets))]
    pub fn in_order(&self) -> Result<Vec<Op, A>, NoMemory>
        ensures items { IfOk result (λ v. v.items ≡ in_order self.now.ops) }
        ensures lawful { IfOk result (λ v. All IsLawful v.items) }
    {
        self.range(0, self.len())
    }
}
