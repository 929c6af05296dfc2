//! The operations that wait for what they hang on. What the arrival of a target makes live is taken out of here.

ghost use Rattle.std.specs.Prelude.{◌≡◌, ◌+◌, ◌≤◌, ◌↔◌, [], true, false, All, IfSome, IfOk, IsNone, OnOk, IsOk, IsTrue};
ghost use Rattle.desk_ops.specs.declared.op.Op.{Op};
ghost use Rattle.desk_ops.specs.Op.{IsLawful};
ghost use Rattle.desk_ops.specs.OpSet.{no_ops, has_op, with_op, with_all, size};
ghost use Rattle.desk_walk.specs.Waiting.{HasTarget, waits_for, waiting_at, IsReleased};

use crate::turn::{Above, Earlier, compare, is_in_turn, target_of};
use desk_held::{Slot, insert_in_order, remove_in_order, seek, slots_of};
use desk_memory::NoMemory;
use desk_ops::{Op, Stamp};
use list_pages::Pages;
use std::alloc::Allocator;
use std::marker::Model;

/// The operations that wait: a set, and with it of each target the list of what waits for it, by stamp and bytes; and
/// how many more can be put with no new memory. It is kept in pages, the greatest target first, then by stamp and
/// bytes, so that a put and a release look at a few pages and change one or two. No call but `reserve` and `from_ops`
/// can be out of memory: the others return no `NoMemory`.
pub struct Room<A: Allocator + Copy> {
    ops: Pages<Slot, (), A>,
}

// Written out: what drops one calls this, and does not take it apart once more.
impl<A: Allocator + Copy> Drop for Room<A> {
    fn drop(self) {
        let Room { ops } = self;
        drop(ops);
    }
}

impl<A: Allocator + Copy> Model for Room<A> {
    ghost use Rattle.desk_walk.specs.Waiting.{Waiting, waiting_code};
    ghost use Rattle.desk_walk.specs.Turn.{set_of, IsKept};

    ghost Value = { Waiting };

    ghost coded = { waiting_code };

    ghost view = { λ a. record { ops = set_of a.ops.entries; spare = a.ops.spare } };

    ghost invariant = { λ a. IsKept a.ops.entries };
}

impl<A: Allocator + Copy> Room<A> {
    pub fn new(alloc: A) -> Self
        ensures { result.ops ≡ no_ops }
    {
        Room {
            ops: Pages::new(alloc),
        }
    }

    /// The room of a list's operations, in any order; one that the list has twice waits once. A list that has none
    /// twice is sorted and laid out at once.
    pub fn from_ops(alloc: A, ops: &[Op]) -> Result<Self, NoMemory>
        requires lawful { All IsLawful ops.now }
        requires targets { All HasTarget ops.now }
        ensures { IfOk result (λ room. room.ops ≡ with_all no_ops ops.now) }
    {
        let mut list = slots_of(alloc, ops)?;
        list.sort_unstable_by(|a, b| compare(&a.op(), &b.op()));
        if is_in_turn(&list) {
            let ops = Pages::from_slice(alloc, &list)?;
            return Ok(Room { ops });
        }
        Room::from_each(alloc, ops)
    }

    /// The same, by one put after the other.
    fn from_each(alloc: A, ops: &[Op]) -> Result<Self, NoMemory>
        requires lawful { All IsLawful ops.now }
        requires targets { All HasTarget ops.now }
        ensures { IfOk result (λ room. room.ops ≡ with_all no_ops ops.now) }
    {
        let mut room = Room::new(alloc);
        room.reserve(ops.len())?;
        for i in 0..ops.len() {
            if !room.has(&ops[i]) {
                room.put(ops[i]);
            }
        }
        Ok(room)
    }

    /// How many operations wait.
    pub fn len(&self) -> usize
        ensures { result ≡ size self.now.ops }
    {
        self.ops.len()
    }

    pub fn is_empty(&self) -> bool
        ensures { IsTrue result ↔ (size self.now.ops ≡ 0) }
    {
        self.len() == 0
    }

    pub fn has(&self, op: &Op) -> bool
        ensures { result ≡ has_op self.now.ops op.now }
    {
        match seek(&self.ops, &Earlier { op: *op }) {
            Some(first) => first == *op,
            None => false,
        }
    }

    /// How many more operations can be put with no new memory.
    pub fn spare(&self) -> usize
        ensures { result ≡ self.now.spare }
    {
        self.ops.spare()
    }

    /// Makes room for at least `n` more. Where a growth was refused what waits stays, and spare may have grown.
    pub fn reserve(&mut self, n: usize) -> Result<(), NoMemory>
        ensures same { self.new.ops ≡ self.old.ops }
        ensures grows { self.old.spare ≤ self.new.spare }
        ensures room { OnOk result (n ≤ self.new.spare) }
        ensures enough { n ≤ self.old.spare → IsOk result }
    {
        self.ops.reserve(n)?;
        Ok(())
    }

    /// Adds an operation that hangs on another.
    pub fn put(&mut self, op: Op)
        requires lawful { IsLawful op }
        requires target { HasTarget op }
        requires absent { has_op self.old.ops op ≡ false }
        requires spare { 1 ≤ self.old.spare }
        ensures put { self.new.ops ≡ with_op self.old.ops op }
        ensures spare { self.old.spare ≤ self.new.spare + 1 }
    {
        insert_in_order(&mut self.ops, &Earlier { op }, op);
    }

    /// Takes out the first operation, by stamp and bytes, that waits for the target; none where nothing waits for it.
    pub fn release(&mut self, target: Stamp) -> Option<Op>
        ensures some { IfSome result (λ op. IsReleased self.old.ops self.new.ops target op) }
        ensures none { IsNone result → (waiting_at self.old.ops target ≡ []) × (self.new.ops ≡ self.old.ops) }
        ensures stays { IsNone result → (op : Op) → has_op self.old.ops op ≡ true → waits_for target op ≡ false }
        ensures spare { self.old.spare ≤ self.new.spare }
    {
        let above = Above { target };
        let Some(first) = seek(&self.ops, &above) else {
            return None;
        };
        if !target_of(&first).is_same(target) {
            return None;
        }
        remove_in_order(&mut self.ops, &above)
    }
}
