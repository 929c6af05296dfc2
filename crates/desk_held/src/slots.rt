//! Operations as they are kept in pages, in 32 bytes each.

ghost use Rattle.std.specs.Prelude.{◌≡◌, ◌+◌, ◌≤◌, ◌<◌, ◌++◌, ℕ, length, slice_index_or, IfOk, IfSome, IsNone};
ghost use Rattle.std.specs.List.{insert, remove};
ghost use Rattle.desk_ops.specs.Op.{stamp_of};
ghost use Rattle.list_pages.specs.Pages.{IsEdge};

use desk_ops::{Key, Op, Stamp, Style, Symbol};
use list_pages::{Pages, Pick};
use std::alloc::{AllocError, Allocator};
use std::marker::Model;

/// What an operation says besides its stamp and its parent or target.
#[derive(Clone, Copy)]
enum Tail {
    Insert { style: Style, ch: char },
    Delete,
    Set { key: Key, value: u32 },
}

/// An operation. Its fields lie in the order that takes 32 bytes, where an [`Op`] takes 48: the stamp in `counter` and
/// `site`, the parent or target in the other two.
#[derive(Clone, Copy)]
pub struct Slot {
    counter: u64,
    other_counter: u64,
    site: u16,
    other_site: u16,
    tail: Tail,
}

impl Model for Slot {
    ghost use Rattle.std.specs.Prelude.{refl};
    ghost use Rattle.desk_ops.specs.contracts.op.Op as op_contract;
    ghost use Rattle.desk_ops.specs.declared.op.Op.{Op};
    ghost use Rattle.desk_ops.specs.Op.{stamp_of};
    ghost use Rattle.desk_held.specs.Slot.{op_with, other_of, tail_of, IsPlain, stamp-back, other-back, tail-back};

    ghost Value = { Op };

    ghost coded = { (op_contract.the_row).coded };

    ghost view = { λ s. op_with (record { counter = s.counter; site = s.site }) (record {
      counter = s.other_counter;
      site = s.other_site;
    }) s.tail };

    // a setting has no other stamp, and keeps the head in its place
    ghost invariant = { λ s. IsPlain (record { counter = s.other_counter; site = s.other_site }) s.tail };

    ghost inverse = { λ o. record {
      counter = (stamp_of o).counter;
      other_counter = (other_of o).counter;
      site = (stamp_of o).site;
      other_site = (other_of o).site;
      tail = tail_of o;
    } };

    ghost inverse_ok = { λ s h i. record {
      counter = (stamp-back (record { counter = s.counter; site = s.site }) (record {
        counter = s.other_counter;
        site = s.other_site;
      }) s.tail i).counter;
      other_counter = (other-back (record { counter = s.counter; site = s.site }) (record {
        counter = s.other_counter;
        site = s.other_site;
      }) s.tail h i).counter;
      site = (stamp-back (record { counter = s.counter; site = s.site }) (record {
        counter = s.other_counter;
        site = s.other_site;
      }) s.tail i).site;
      other_site = (other-back (record { counter = s.counter; site = s.site }) (record {
        counter = s.other_counter;
        site = s.other_site;
      }) s.tail h i).site;
      tail = tail-back (record { counter = s.counter; site = s.site }) (record {
        counter = s.other_counter;
        site = s.other_site;
      }) s.tail i;
    } };
}

impl Slot {
    pub fn of(op: Op) -> Slot
        ensures { result ≡ op }
    {
        match op {
            Op::Insert {
                stamp,
                parent,
                symbol,
            } => Slot {
                counter: stamp.counter,
                other_counter: parent.counter,
                site: stamp.site,
                other_site: parent.site,
                tail: Tail::Insert {
                    style: symbol.style,
                    ch: symbol.ch,
                },
            },
            Op::Delete { stamp, target } => Slot {
                counter: stamp.counter,
                other_counter: target.counter,
                site: stamp.site,
                other_site: target.site,
                tail: Tail::Delete,
            },
            Op::Set { stamp, key, value } => Slot {
                counter: stamp.counter,
                other_counter: 0,
                site: stamp.site,
                other_site: 0,
                tail: Tail::Set { key, value },
            },
        }
    }

    pub fn stamp(self) -> Stamp
        ensures { result ≡ stamp_of self }
    {
        Stamp {
            counter: self.counter,
            site: self.site,
        }
    }

    pub fn op(self) -> Op
        ensures { result ≡ self }
    {
        let stamp = self.stamp();
        let other = Stamp {
            counter: self.other_counter,
            site: self.other_site,
        };
        match self.tail {
            Tail::Insert { style, ch } => Op::Insert {
                stamp,
                parent: other,
                symbol: Symbol { style, ch },
            },
            Tail::Delete => Op::Delete {
                stamp,
                target: other,
            },
            Tail::Set { key, value } => Op::Set { stamp, key, value },
        }
    }
}

/// The first operation that is not picked, where those that are picked stand first.
pub fn seek<P: Pick<Slot, ()>, A: Allocator + Copy>(
    ops: &Pages<Slot, (), A>,
    pick: &P,
) -> Option<Op>
    ensures found { IfSome result (λ x. (i : ℕ) × IsEdge (P.picked pick.now) ops.now.entries i
        × (i < length ops.now.entries) × (x ≡ slice_index_or ops.now.entries i x)) }
    ensures none { IsNone result → IsEdge (P.picked pick.now) ops.now.entries (length ops.now.entries) }
{
    let Some(slot) = ops.seek(pick) else {
        return None;
    };
    Some(slot.op())
}

/// Puts an operation before the first that is not picked, where those that are picked stand first.
pub fn insert_in_order<P: Pick<Slot, ()>, A: Allocator + Copy>(
    ops: &mut Pages<Slot, (), A>,
    pick: &P,
    op: Op,
)
    requires spare { 1 ≤ ops.old.spare }
    ensures put { (i : ℕ) × IsEdge (P.picked pick.now) ops.old.entries i
        × (ops.new.entries ≡ insert ops.old.entries i op) }
    ensures spare { ops.old.spare ≤ ops.new.spare + 1 }
{
    ops.insert_in_order(pick, Slot::of(op));
}

/// Takes out the first operation that is not picked, where those that are picked stand first.
pub fn remove_in_order<P: Pick<Slot, ()>, A: Allocator + Copy>(
    ops: &mut Pages<Slot, (), A>,
    pick: &P,
) -> Option<Op>
    ensures some { IfSome result (λ x. (i : ℕ) × IsEdge (P.picked pick.now) ops.old.entries i
        × (i < length ops.old.entries) × (x ≡ slice_index_or ops.old.entries i x)
        × (ops.new.entries ≡ remove ops.old.entries i)) }
    ensures none { IsNone result → IsEdge (P.picked pick.now) ops.old.entries (length ops.old.entries)
        × (ops.new.entries ≡ ops.old.entries) }
    ensures spare { ops.old.spare ≤ ops.new.spare }
{
    let Some(slot) = ops.remove_in_order(pick) else {
        return None;
    };
    Some(slot.op())
}

/// The i-th operation.
pub fn entry<A: Allocator + Copy>(ops: &Pages<Slot, (), A>, i: usize) -> Op
    requires { i < length ops.now.entries }
    ensures { result ≡ slice_index_or ops.now.entries i result }
{
    ops.entry(i).op()
}

/// The operations in the form in which they are kept.
pub fn slots_of<A: Allocator + Copy>(alloc: A, ops: &[Op]) -> Result<Vec<Slot, A>, AllocError>
    ensures { IfOk result (λ slots. slots.items ≡ ops.now) }
{
    let mut slots = Vec::with_capacity(alloc, ops.len())?;
    add_ops(&mut slots, ops)?;
    Ok(slots)
}

/// Adds operations at the end of a list, in the form in which they are kept.
pub fn add_ops<A: Allocator>(slots: &mut Vec<Slot, A>, ops: &[Op]) -> Result<(), AllocError>
    ensures { IfOk result (λ _. slots.new.items ≡ slots.old.items ++ ops.now) }
{
    for op in ops {
        slots.push(Slot::of(*op))?;
    }
    Ok(())
}

/// Adds the operations of some slots at the end of a list.
pub fn append<A: Allocator + Copy>(list: &mut Vec<Op, A>, slots: &[Slot]) -> Result<(), AllocError>
    ensures { IfOk result (λ _. list.new.items ≡ list.old.items ++ slots.now) }
{
    list.reserve(slots.len())?;
    for slot in slots {
        list.push(slot.op())?;
    }
    Ok(())
}
