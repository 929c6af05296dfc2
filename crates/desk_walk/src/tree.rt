//! The walk of a set in one pass over its operations, oldest first. A clear insert is linked directly after its parent,
//! since it is the newest so far.
ghost use Rattle.std.specs.Prelude.{◌≡◌, ◌+◌, ◌^◌, ◌<◌, ◌≤◌, ℕ, true, IsNone, IfSome, IfOk, OnOk, length, vec_len};
ghost use Rattle.desk_ops.specs.Op.{target_of, stamp_of};
ghost use Rattle.desk_ops.specs.OpSet.{in_order, size};
ghost use Rattle.desk_ops.specs.Held.{is_clear_in};
ghost use Rattle.desk_walk.specs.Tree.{op_at, entry_by, linked, passed, IsLinking, IsActing, IsPlaceOf, walked};
ghost use Rattle.desk_walk.specs.Tree.{AreSettled};

use desk_held::Held;
use desk_memory::NoMemory;
use desk_ops::{Op, Stamp, Symbol};
use desk_seq::Entry;
use std::alloc::Allocator;

/// What is kept of the head, at 0, and of each operation, at its place and one more: whether it stands in the walk,
/// what
/// follows it there, and whether it is deleted.
#[derive(Clone, Copy)]
struct Node {
    next: u32,
    linked: bool,
    deleted: bool,
}

/// How the next place of a search is picked.
#[derive(Clone, Copy)]
enum Look {
    /// By how far the counter is between those at the two ends.
    Counters,
    /// A few places above the last, or below it.
    Above,
    Below,
    Middle,
}

impl Look {
    /// The look that comes next, where the stamp is on that side of the last place.
    fn after(self, side: Look) -> Look {
        match self {
            Look::Counters => side,
            Look::Above | Look::Below => Look::Middle,
            Look::Middle => Look::Counters,
        }
    }
}

/// How far a look goes above or below the last place.
const NEAR: usize = 32;

/// The place to look at next, from low up to high, between two counters.
fn probe(low: usize, high: usize, counters: (u64, u64), counter: u64, look: Look) -> usize
    requires { low < high }
    ensures low { low ≤ result }
    ensures high { result < high }
{
    let last = high - low - 1;
    if last < NEAR {
        return low + last / 2;
    }
    match look {
        Look::Counters => {
            let far = counter
                .saturating_sub(counters.0)
                .wrapping_mul((high - low) as u64);
            let all = counters.1.saturating_sub(counters.0).max(1);
            let step = (far / all) as usize;
            low + step.min(last)
        }
        Look::Above => low + NEAR,
        Look::Below => high - 1 - NEAR,
        Look::Middle => low + last / 2,
    }
}

/// A place before the end at which the stamp is borne, in the list of a set's operations. Where counters lie evenly the
/// first look finds it, and each third look halves what is left.
fn find<A: Allocator + Copy>(held: &Held<A>, ops: &[Op], end: usize, stamp: Stamp) -> Option<usize>
    requires listed { ops.now ≡ in_order held.now.ops }
    requires within { end < length (in_order held.now.ops) }
    ensures found { IfSome result (λ k. (k < end) × (stamp_of (op_at (in_order held.now.ops) k) ≡ stamp)) }
    ensures none { IsNone result → (k : ℕ) → k < end → stamp_of (op_at (in_order held.now.ops) k) ≡ stamp → ⊥ }
{
    let mut low = 0;
    let mut high = end;
    let mut from = ops[0].stamp().counter;
    let mut to = ops[end].stamp().counter;
    let mut look = Look::Counters;
    while low < high {
        let place = probe(low, high, (from, to), stamp.counter, look);
        let here = ops[place].stamp();
        if here.is_same(stamp) {
            return Some(place);
        }
        if here.is_before(stamp) {
            low = place + 1;
            from = here.counter;
            look = look.after(Look::Above);
        } else {
            high = place;
            to = here.counter;
            look = look.after(Look::Below);
        }
    }
    None
}

/// Whether no other operation bears the stamp of the one at the place: such would stand beside it.
fn is_clear_at<A: Allocator + Copy>(held: &Held<A>, ops: &[Op], i: usize) -> bool
    requires listed { ops.now ≡ in_order held.now.ops }
    requires within { i < length (in_order held.now.ops) }
    ensures { result ≡ is_clear_in held.now.ops (stamp_of (op_at (in_order held.now.ops) i)) }
{
    let stamp = ops[i].stamp();
    if i > 0 && ops[i - 1].stamp().is_same(stamp) {
        return false;
    }
    i + 1 == ops.len() || !ops[i + 1].stamp().is_same(stamp)
}

/// Adds a node for what does not stand in the walk.
fn pass<A: Allocator>(nodes: &mut Vec<Node, A>) -> Result<(), NoMemory>
    ensures { OnOk result (nodes.new.items ≡ passed nodes.old.items) }
{
    nodes.push(Node {
        next: 0,
        linked: false,
        deleted: false,
    })?;
    Ok(())
}

/// Adds a node that stands directly after the one at the place.
fn link<A: Allocator>(nodes: &mut Vec<Node, A>, place: usize) -> Result<(), NoMemory>
    requires place { place < vec_len nodes.old }
    requires few { vec_len nodes.old < 2 ^ 32 }
    ensures { OnOk result (nodes.new.items ≡ linked nodes.old.items place) }
{
    let next = nodes[place].next;
    let new = nodes.len() as u32;
    nodes.push(Node {
        next,
        linked: true,
        deleted: false,
    })?;
    nodes[place].next = new;
    Ok(())
}

/// The entry of an insert.
fn entry_by(op: &Op, deleted: bool) -> Entry
    ensures { result ≡ entry_by op.now deleted }
{
    let symbol = match op {
        Op::Insert { symbol, .. } => *symbol,
        Op::Delete { .. } | Op::Set { .. } => Symbol::SPACE,
    };
    Entry {
        stamp: op.stamp(),
        symbol,
        deleted,
    }
}

/// The walk of the first operations of a set, by links, and those that wait.
#[derive(Drop)]
struct Tree<A: Allocator + Copy> {
    nodes: Vec<Node, A>,
    count: usize,
    waiting: Vec<Op, A>,
}

impl<A: Allocator + Copy> Tree<A> {
    /// The walk of no operations, with room for the nodes of some.
    fn new(alloc: A, held: &Held<A>) -> Result<Self, NoMemory>
        ensures { IfOk result (λ t. IsLinking held.now.ops 0 t.nodes.items t.count t.waiting.items) }
    {
        let mut nodes = Vec::with_capacity(alloc, held.len() + 1)?;
        nodes.push(Node {
            next: 0,
            linked: true,
            deleted: false,
        })?;
        let waiting = Vec::new(alloc);
        Ok(Tree {
            nodes,
            count: 0,
            waiting,
        })
    }

    /// The node in the walk that bears the stamp.
    fn place_of(&self, held: &Held<A>, ops: &[Op], end: usize, stamp: Stamp) -> Option<usize>
        requires listed { ops.now ≡ in_order held.now.ops }
        requires within { end < length (in_order held.now.ops) }
        requires linking { IsLinking held.now.ops end self.now.nodes.items self.now.count self.now.waiting.items }
        ensures found { IfSome result (λ p. IsPlaceOf (in_order held.now.ops) self.now.nodes.items stamp p) }
        ensures none { IsNone result → (p : ℕ) → IsPlaceOf (in_order held.now.ops) self.now.nodes.items stamp p → ⊥ }
    {
        if stamp.is_head() {
            return Some(0);
        }
        let place = find(held, ops, end, stamp)? + 1;
        if self.nodes[place].linked {
            Some(place)
        } else {
            None
        }
    }

    /// Does what an operation says that hangs on the node at the place.
    fn act(&mut self, op: &Op, place: usize) -> Result<(), NoMemory>
        requires place { place < vec_len self.old.nodes }
        requires few { vec_len self.old.nodes < 2 ^ 32 }
        requires count { self.old.count < 2 ^ 32 }
        ensures acts { OnOk result
            (IsActing op.now place self.old.nodes.items self.old.count self.new.nodes.items self.new.count) }
        ensures waiting { OnOk result (self.new.waiting.items ≡ self.old.waiting.items) }
    {
        match op {
            Op::Insert { .. } => {
                self.count += 1;
                link(&mut self.nodes, place)
            }
            Op::Delete { .. } | Op::Set { .. } => {
                self.nodes[place].deleted = true;
                pass(&mut self.nodes)
            }
        }
    }

    /// Takes in a clear operation with a target: it acts, or waits.
    fn hang(&mut self, held: &Held<A>, ops: &[Op], i: usize, target: Stamp) -> Result<(), NoMemory>
        requires listed { ops.now ≡ in_order held.now.ops }
        requires within { i < length (in_order held.now.ops) }
        requires clear { is_clear_in held.now.ops (stamp_of (op_at (in_order held.now.ops) i)) ≡ true }
        requires target { target_of (op_at (in_order held.now.ops) i) ≡ Some target }
        requires linking { IsLinking held.now.ops i self.old.nodes.items self.old.count self.old.waiting.items }
        ensures { OnOk result
            (IsLinking held.now.ops (i + 1) self.new.nodes.items self.new.count self.new.waiting.items) }
    {
        let op = ops[i];
        if let Some(place) = self.place_of(held, ops, i, target) {
            return self.act(&op, place);
        }
        self.waiting.push(op)?;
        pass(&mut self.nodes)
    }

    /// Takes in the operation at a place.
    fn take(&mut self, held: &Held<A>, ops: &[Op], i: usize) -> Result<(), NoMemory>
        requires listed { ops.now ≡ in_order held.now.ops }
        requires within { i < length (in_order held.now.ops) }
        requires linking { IsLinking held.now.ops i self.old.nodes.items self.old.count self.old.waiting.items }
        ensures { OnOk result
            (IsLinking held.now.ops (i + 1) self.new.nodes.items self.new.count self.new.waiting.items) }
    {
        let Some(target) = ops[i].target() else {
            return pass(&mut self.nodes);
        };
        if is_clear_at(held, ops, i) {
            return self.hang(held, ops, i, target);
        }
        pass(&mut self.nodes)
    }

    /// The entries of the walk.
    fn entries(&self, alloc: A, held: &Held<A>, ops: &[Op]) -> Result<Vec<Entry, A>, NoMemory>
        requires listed { ops.now ≡ in_order held.now.ops }
        requires linking { IsLinking held.now.ops
            (size held.now.ops) self.now.nodes.items self.now.count self.now.waiting.items }
        ensures { IfOk result (λ v. v.items ≡ walked held.now.ops self.now.nodes.items self.now.count) }
    {
        let mut entries = Vec::with_capacity(alloc, self.count)?;
        let mut k = 0;
        for passed in 0..self.count {
            k = self.nodes[k].next as usize;
            entries.push(entry_by(&ops[k - 1], self.nodes[k].deleted))?;
        }
        Ok(entries)
    }
}

/// The entries of a set's walk, and what waits, by the list of the set.
pub fn settled_lists<A: Allocator + Copy>(
    alloc: A,
    held: &Held<A>,
    ops: &[Op],
) -> Result<(Vec<Entry, A>, Vec<Op, A>), NoMemory>
    requires { ops.now ≡ in_order held.now.ops }
    ensures { IfOk result (λ r. AreSettled held.now.ops r.0.items r.1.items) }
{
    let mut tree = Tree::new(alloc, held)?;
    for i in 0..ops.len() {
        tree.take(held, ops, i)?;
    }
    let entries = tree.entries(alloc, held, ops)?;
    Ok((entries, tree.waiting))
}
