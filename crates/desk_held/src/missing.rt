//! What a set lacks of a list.
ghost use Rattle.std.specs.Prelude.{◌≡◌, ◌++◌, ◌∷◌, [], if◌then◌else◌, T, All, IfOk, OnOk};
ghost use Rattle.std.specs.List.{list_all};
ghost use Rattle.desk_ops.specs.Op.{IsLawful};
ghost use Rattle.desk_ops.specs.OpSet.{has_op, is_rising, AllLawful};
ghost use Rattle.desk_held.specs.Passing.{missing_of, IsMissing, IsInTurn};

use crate::passing::look;
use crate::search::is_rising;
use crate::{Held, Slot};
use desk_memory::NoMemory;
use desk_ops::Op;
use std::alloc::Allocator;

/// Below this part of what is held each operation of a list is searched: a pass beside the list would look at each
/// page.
const SPARSE: usize = 256;

/// Puts the operations of a list in order, each once, in its own memory. A list that rises stays as it is, and one that
/// falls is turned round.
pub fn put_in_turn<A: Allocator>(ops: &mut Vec<Op, A>)
    ensures turn { IsInTurn ops.old.items ops.new.items }
    ensures lawful { All IsLawful ops.old.items → All IsLawful ops.new.items }
{
    if is_rising(ops) {
        return;
    }
    ops.reverse();
    if is_rising(ops) {
        return;
    }
    ops.sort_unstable();
    ops.dedup();
}

/// The operations of a list in order, each once.
fn in_turn<A: Allocator + Copy>(alloc: A, ops: &[Op]) -> Result<Vec<Op, A>, NoMemory>
    ensures { IfOk result (λ v. IsInTurn ops.now v.items) }
{
    let mut list = Vec::from_slice(alloc, ops)?;
    put_in_turn(&mut list);
    Ok(list)
}

/// Adds an operation to a list, unless it is held. The first takes room for as many as may come.
fn add_missing<A: Allocator>(
    list: &mut Vec<Op, A>,
    op: Op,
    is_held: bool,
    most: usize,
) -> Result<(), NoMemory>
    ensures { OnOk result (list.new.items ≡ (if is_held then list.old.items else list.old.items ++ op ∷ [])) }
{
    if is_held {
        return Ok(());
    }
    if list.is_empty() {
        list.reserve_exact(most)?;
    }
    list.push(op)?;
    Ok(())
}

impl<A: Allocator + Copy> Held<A> {
    /// Whether a list is so short that a search for each of its operations costs less than a pass.
    fn is_sparse(&self, ops: &[Op]) -> bool
        ensures { AllLawful self.now.ops }
    {
        ops.len() < self.len() / SPARSE
    }

    /// Whether each operation of a list is held. A list that rises and is not short is passed beside what is held: one
    /// look at each operation and each page. It cannot run out of memory.
    pub fn has_all(&self, ops: &[Op]) -> bool
        ensures { result ≡ list_all (has_op self.now.ops) ops.now }
    {
        let len = ops.len();
        if len > 0 && !self.has(&ops[len - 1]) {
            return false;
        }
        if self.is_sparse(ops) || !is_rising(ops) {
            return self.has_each(ops);
        }
        self.has_all_in_turn(ops)
    }

    /// The same, by a search for each.
    fn has_each(&self, ops: &[Op]) -> bool
        ensures { result ≡ list_all (has_op self.now.ops) ops.now }
    {
        for op in ops {
            if !self.has(op) {
                return false;
            }
        }
        true
    }

    /// The same, by a pass.
    fn has_all_in_turn(&self, ops: &[Op]) -> bool
        requires { T (is_rising ops.now) }
        ensures { result ≡ list_all (has_op self.now.ops) ops.now }
    {
        let mut start = 0;
        let mut part: &[Slot] = &[];
        let mut at = 0;
        for op in ops {
            let (begin, stretch, place, is_held) = look(&self.ops, start, part, at, op);
            if !is_held {
                return false;
            }
            start = begin;
            part = stretch;
            at = place;
        }
        true
    }

    /// The operations of a list that are not held, in order, each once. A list that does not rise is put in order
    /// first, in memory of its own. Then each operation of a short one is searched, and a longer one is passed beside
    /// what is held: one look at each operation and each page.
    pub fn missing(&self, ops: &[Op]) -> Result<Vec<Op, A>, NoMemory>
        ensures missing { IfOk result (λ v. IsMissing self.now.ops ops.now v.items) }
        ensures lawful { All IsLawful ops.now → IfOk result (λ v. All IsLawful v.items) }
    {
        if is_rising(ops) {
            return self.missing_of_rising(ops);
        }
        let list = in_turn(self.alloc, ops)?;
        if self.is_empty() {
            return Ok(list);
        }
        self.missing_of_rising(&list)
    }

    /// Those of a list that rises.
    fn missing_of_rising(&self, ops: &[Op]) -> Result<Vec<Op, A>, NoMemory>
        requires { T (is_rising ops.now) }
        ensures missing { IfOk result (λ v. v.items ≡ missing_of self.now.ops ops.now) }
        ensures lawful { AllLawful self.now.ops }
    {
        if self.is_sparse(ops) {
            return self.missing_of_few(ops);
        }
        let mut list = Vec::new(self.alloc);
        let mut start = 0;
        let mut part: &[Slot] = &[];
        let mut at = 0;
        for op in ops {
            let (begin, stretch, place, is_held) = look(&self.ops, start, part, at, op);
            start = begin;
            part = stretch;
            at = place;
            add_missing(&mut list, *op, is_held, ops.len())?;
        }
        Ok(list)
    }

    /// The same, by a search for each.
    fn missing_of_few(&self, ops: &[Op]) -> Result<Vec<Op, A>, NoMemory>
        ensures { IfOk result (λ v. v.items ≡ missing_of self.now.ops ops.now) }
    {
        let mut list = Vec::new(self.alloc);
        for op in ops {
            add_missing(&mut list, *op, self.has(op), ops.len())?;
        }
        Ok(list)
    }
}
