//! Lists of operations added at once.
ghost use Rattle.std.specs.Prelude.{◌≡◌, ◌+◌, ◌≤◌, ◌++◌, All, IfOk, IfSome, IfErr, OnOk, length, take};
ghost use Rattle.desk_ops.specs.Op.{IsLawful};
ghost use Rattle.desk_ops.specs.OpSet.{no_ops, in_order, size, with_all};
ghost use Rattle.desk_held.specs.Joining.{IsStopped};

use crate::search::{are_rising, comes_before, is_rising};
use crate::{AddRefusal, Held, LIMIT, Slot, add_ops, slots_of};
use desk_ops::Op;
use list_pages::Pages;
use std::alloc::{AllocError, Allocator};
use thiserror::Error;

/// A list was taken in up to an operation that was refused.
#[derive(Clone, Copy, Debug, PartialEq, Eq, Error)]
#[error("stopped after {taken} operations: {why}")]
pub struct Stopped {
    /// How many operations were taken in.
    pub taken: usize,
    pub why: AddRefusal,
}

/// Adds the operations of a list, from its first on, that do not come after one that is held; how many.
fn add_before<A: Allocator>(
    slots: &mut Vec<Slot, A>,
    ops: &[Op],
    next: Slot,
) -> Result<usize, AllocError>
    ensures within { IfOk result (λ n. n ≤ length ops.now) }
    ensures added { IfOk result (λ n. slots.new.items ≡ slots.old.items ++ take n ops.now) }
{
    let mut count = 0;
    while count < ops.len() && !comes_before(next, &ops[count]) {
        slots.push(Slot::of(ops[count]))?;
        count += 1;
    }
    Ok(count)
}

/// Adds a stretch of what is held, and before each operation of it those of a list that come first; how many of the
/// list.
fn add_part<A: Allocator>(
    slots: &mut Vec<Slot, A>,
    part: &[Slot],
    ops: &[Op],
) -> Result<usize, AllocError>
    ensures within { IfOk result (λ n. n ≤ length ops.now) }
    ensures added { IfOk result (λ n. with_all no_ops slots.new.items
        ≡ with_all (with_all (with_all no_ops slots.old.items) part.now) (take n ops.now)) }
{
    let mut count = 0;
    for at in 0..part.len() {
        let next = part[at];
        let more = add_before(slots, &ops[count..], next)?;
        slots.push(next)?;
        count += more;
    }
    Ok(count)
}

impl<A: Allocator + Copy> Held<A> {
    /// The set of operations that rise, in full pages; none where they do not, where they are too many or memory does
    /// not allow it.
    fn of_slots(alloc: A, slots: &[Slot]) -> Option<Self>
        requires { All IsLawful slots.now }
        ensures ops { IfSome result (λ h. h.ops ≡ with_all no_ops slots.now) }
        ensures listed { IfSome result (λ h. in_order h.ops ≡ slots.now) }
        ensures within { IfSome result (λ h. size h.ops ≤ LIMIT) }
    {
        if slots.len() > LIMIT || !are_rising(slots) {
            return None;
        }
        let Ok(ops) = Pages::from_slice(alloc, slots) else {
            return None;
        };
        Some(Held { ops, alloc })
    }

    /// The set of a list that rises; none where it does not, where it is too long or memory does not allow it.
    /// The list is then that of its operations in order.
    pub fn of_rising(alloc: A, ops: &[Op]) -> Option<Self>
        requires { All IsLawful ops.now }
        ensures ops { IfSome result (λ h. h.ops ≡ with_all no_ops ops.now) }
        ensures listed { IfSome result (λ h. in_order h.ops ≡ ops.now) }
        ensures within { IfSome result (λ h. size h.ops ≤ LIMIT) }
    {
        if !is_rising(ops) {
            return None;
        }
        let Ok(slots) = slots_of(alloc, ops) else {
            return None;
        };
        Held::of_slots(alloc, &slots)
    }

    /// The operations that are held and those of a list that rises, in one order.
    fn beside(&self, ops: &[Op]) -> Result<Vec<Slot, A>, AllocError>
        ensures { IfOk result (λ v. with_all no_ops v.items ≡ with_all self.now.ops ops.now) }
    {
        let mut slots = Vec::with_capacity(self.alloc, self.len().saturating_add(ops.len()))?;
        let mut at = 0;
        let mut added = 0;
        while at < self.ops.len() {
            let part = self.ops.stretch(at);
            let count = add_part(&mut slots, part, &ops[added..])?;
            added += count;
            at += part.len();
        }
        add_ops(&mut slots, &ops[added..])?;
        Ok(slots)
    }

    /// The set with the operations of a list that rises and of which none is held; none where the list is another, they
    /// are too many or memory does not allow it.
    pub fn joined(&self, ops: &[Op]) -> Option<Self>
        requires { All IsLawful ops.now }
        ensures ops { IfSome result (λ h. h.ops ≡ with_all self.now.ops ops.now) }
        ensures within { IfSome result (λ h. size h.ops ≤ LIMIT) }
    {
        let Ok(slots) = self.beside(ops) else {
            return None;
        };
        Held::of_slots(self.alloc, &slots)
    }

    /// The set of a list, sorted once; none where it has an operation twice, is too long, or memory does not allow it.
    fn of_list(alloc: A, ops: &[Op]) -> Option<Self>
        requires { All IsLawful ops.now }
        ensures { IfSome result (λ h. h.ops ≡ with_all no_ops ops.now) }
    {
        if ops.is_sorted() {
            return Held::of_rising(alloc, ops);
        }
        let Ok(mut list) = Vec::from_slice(alloc, ops) else {
            return None;
        };
        list.sort_unstable();
        Held::of_rising(alloc, list.as_slice())
    }

    /// Adds the operations of a list, one after the other, up to the first that is refused: `Full` comes exactly where
    /// 1,048,576 operations are held and the next is not among them; out of memory only where the set has gained as
    /// many as there was room for. Where nothing is held and there is no room for all, a list that has no operation
    /// twice is sorted, if it does not rise, and laid out at once, where memory and the limit allow it.
    pub fn add_all(&mut self, ops: &[Op]) -> Result<(), Stopped>
        requires { All IsLawful ops.now }
        ensures ok { OnOk result (self.new.ops ≡ with_all self.old.ops ops.now) }
        ensures err { IfErr result (λ s. IsStopped self.old.ops self.new.ops ops.now s) }
        ensures memory { IfErr result (λ s. s.why ≡ AddRefusal.NoMemory
            → self.old.spare + size self.old.ops ≤ size self.new.ops) }
        ensures spare { self.old.spare ≤ self.new.spare + length ops.now }
    {
        if self.is_empty()
            && self.spare() < ops.len()
            && let Some(all) = Held::of_list(self.alloc, ops)
        {
            *self = all;
            return Ok(());
        }
        self.add_each(ops)
    }

    /// Adds the operations one by one.
    fn add_each(&mut self, ops: &[Op]) -> Result<(), Stopped>
        requires { All IsLawful ops.now }
        ensures ok { OnOk result (self.new.ops ≡ with_all self.old.ops ops.now) }
        ensures err { IfErr result (λ s. IsStopped self.old.ops self.new.ops ops.now s) }
        ensures memory { IfErr result (λ s. s.why ≡ AddRefusal.NoMemory
            → self.old.spare + size self.old.ops ≤ size self.new.ops) }
        ensures spare { self.old.spare ≤ self.new.spare + length ops.now }
    {
        for (taken, op) in ops.iter().enumerate() {
            if let Err(why) = self.add(*op) {
                return Err(Stopped { taken, why });
            }
        }
        Ok(())
    }
}
