//! A sequence that lists its puts, and arrivals without memory.
ghost use Rattle.std.specs.Prelude.{◌≡◌};

use crate::calls::takes;
use crate::cases::{arrivals, at, shows};
use crate::growths::{HEAP, fill};
use desk_blocks::Blocks;
use desk_ops::{Op, Stamp};
use desk_replica::Replica;
use desk_seq::{Entry, Flat, Sequence};
use linked_list_allocator::LocalHeap;
use std::alloc::{AllocError, Allocator, Global};
use std::test::Fail;

/// A sequence, and the stamps of all that was put into it, in the order of the puts.
#[derive(Drop)]
struct Listed<Q: Sequence> {
    inner: Q,
    puts: Vec<Stamp, Q::Memory>,
}

impl<Q: Sequence> Sequence for Listed<Q> {
    type Memory = Q::Memory;

    ghost entries = { λ s. Q.entries s.inner };

    ghost free = { λ s. Q.free s.inner };

    fn empty(alloc: Q::Memory) -> Self {
        Listed {
            inner: Q::empty(alloc),
            puts: Vec::new(alloc),
        }
    }

    fn len(&self) -> usize {
        self.inner.len()
    }

    fn entry(&self, i: usize) -> Entry {
        self.inner.entry(i)
    }

    fn find(&self, stamp: Stamp) -> Option<usize> {
        self.inner.find(stamp)
    }

    fn spare(&self) -> usize {
        self.inner.spare()
    }

    fn reserve(&mut self, n: usize) -> Result<(), AllocError> {
        let _ = self.puts.reserve(n);
        self.inner.reserve(n)
    }

    fn put(&mut self, i: usize, entry: Entry) {
        let _ = self.puts.push(entry.stamp);
        self.inner.put(i, entry);
    }

    fn mark(&mut self, i: usize) {
        self.inner.mark(i);
    }
}

/// Whether a replica takes in new operations while every growth is refused.
fn takes_without_memory<Q: Sequence, A: Allocator>(
    alloc: A,
    replica: &mut Replica<Q>,
    heap: &LocalHeap,
    ops: &[Op],
) -> bool {
    let parts = fill(alloc, heap, 0);
    let is_full = Vec::<u8, &LocalHeap>::with_capacity(heap, 64).is_err();
    let takes = takes(replica, ops);
    drop(parts);
    is_full && takes
}

/// Whether there is room for so many, once it is reserved.
fn has_room<Q: Sequence>(replica: &mut Replica<Q>, number: usize) -> bool {
    number <= 1000 && replica.reserve(number).is_ok() && replica.spare() >= number
}

/// Whether each of the arrivals is put once, in this order, where room for them was reserved.
fn are_put<Q: Sequence, A: Allocator>(
    alloc: A,
    memory: Q::Memory,
    heap: &LocalHeap,
    ops: &[Op],
    puts: &[Stamp],
) -> bool {
    let mut replica = Replica::<Listed<Q>>::new(memory, 1);
    has_room(&mut replica, 5)
        && takes_without_memory(alloc, &mut replica, heap, ops)
        && shows(&replica, "zaceb")
        && replica.sequence().puts.as_slice() == puts
}

/// The same in a heap of its own, over a plain list and over blocks.
fn are_put_once(alloc: Global, ops: &[Op], puts: &[Stamp]) -> Result<bool, AllocError> {
    let heap = LocalHeap::new(alloc, HEAP)?;
    let other = LocalHeap::new(alloc, HEAP)?;
    let flat = are_put::<Flat<&LocalHeap>, Global>(alloc, &heap, &heap, ops, puts);
    Ok(flat && are_put::<Blocks<&LocalHeap>, Global>(alloc, &other, &other, ops, puts))
}

/// Where room was reserved the arrivals are new though every growth is refused, and so they are where they come
/// backwards; each is put once, in the order in which it acts, since nothing is made anew.
#[test]
fn sequence_made_anew(rt: HostRuntime) -> Result<(), Fail> {
    let [a, c, e, b, z] = arrivals();
    let (one, two, other, three, four) = (at(1, 1), at(2, 1), at(2, 2), at(3, 2), at(4, 3));
    for (ops, puts) in [
        ([a, c, e, b, z], [one, other, three, two, four]),
        ([z, b, e, c, a], [four, one, two, other, three]),
    ] {
        assert!(rt; are_put_once(rt.alloc(), &ops, &puts)?);
    }
    Ok(())
}
