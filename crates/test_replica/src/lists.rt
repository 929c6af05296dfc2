//! Lists of which some is known.
use crate::calls::{Answer, take_all};
use crate::cases::{are_alike, roman};
use crate::growths::{HEAP, fill};
use desk_blocks::Blocks;
use desk_memory::NoMemory;
use desk_ops::Op;
use desk_replica::{Count, Replica};
use desk_seq::Sequence;
use linked_list_allocator::LocalHeap;
use std::alloc::Global;
use std::test::Fail;

/// Types so many symbols at the end of a copy; whether it could.
fn types<Q: Sequence>(replica: &mut Replica<Q>, number: usize) -> bool {
    for _ in 0..number {
        let place = replica.copy_len();
        if replica.insert_at(place, roman('a')).is_err() {
            return false;
        }
    }
    true
}

/// Whether a merge finds so many new, and so many known.
fn merges<Q: Sequence>(one: &mut Replica<Q>, other: &Replica<Q>, new: usize, known: usize) -> bool {
    one.merge(other) == Ok(Count { new, known })
}

/// Whether one replica holds all that another does.
fn has_all_of<Q: Sequence>(one: &Replica<Q>, other: &Replica<Q>) -> bool {
    match other.in_order() {
        Ok(ops) => one.has_all(&ops),
        Err(NoMemory) => false,
    }
}

/// Two sites share 700 symbols, type 3 and 300 more apart, and merge: few that are new are taken in one by one, many at
/// once.
fn diverge<Q: Sequence>(one: &mut Replica<Q>, two: &mut Replica<Q>) -> bool {
    types(one, 700)
        && merges(two, one, 700, 0)
        && types(one, 3)
        && types(two, 300)
        && !has_all_of(two, one)
        && merges(two, one, 3, 700)
        && merges(one, two, 300, 703)
}

/// Whether two sites that diverged and merged hold the same, and find nothing new in each other.
fn meet<Q: Sequence>(memory: Q::Memory) -> bool {
    let mut one = Replica::<Q>::new(memory, 1);
    let mut two = Replica::<Q>::new(memory, 2);
    diverge(&mut one, &mut two)
        && merges(&mut one, &two, 0, 1003)
        && has_all_of(&two, &one)
        && are_alike(&one, &two)
}

#[test]
fn sites_that_diverge_meet(rt: HostRuntime) {
    assert!(rt; meet::<Blocks<Global>>(rt.alloc()));
}

/// The operations that a replica holds, in other memory.
fn copied<Q: Sequence>(alloc: Global, replica: &Replica<Q>) -> Result<Vec<Op>, NoMemory> {
    let ops = replica.in_order()?;
    Ok(Vec::from_slice(alloc, &ops)?)
}

/// What a list of all that is held is answered where a heap has nothing left.
fn known_in_full_heap(alloc: Global, heap: &LocalHeap) -> Result<Answer, Fail> {
    let mut replica = Replica::<Blocks<&LocalHeap>>::new(heap, 1);
    if !types(&mut replica, 100) {
        return Err(Fail::new("not typed"));
    }
    let ops = copied(alloc, &replica)?;
    let parts = fill(alloc, heap, 0);
    let answer = take_all(&mut replica, &ops);
    drop(parts);
    Ok(answer)
}

#[test]
fn a_known_list_takes_no_memory(rt: HostRuntime) -> Result<(), Fail> {
    let heap = LocalHeap::new(rt.alloc(), HEAP)?;
    let known = Answer::Counted(Count { new: 0, known: 100 });
    assert!(rt; known_in_full_heap(rt.alloc(), &heap)? == known);
    Ok(())
}

/// Whether an empty list is opened where a heap has nothing left.
fn opens_none_in_full_heap(alloc: Global, heap: &LocalHeap) -> bool {
    let parts = fill(alloc, heap, 0);
    let opened = Replica::<Blocks<&LocalHeap>>::open(heap, 1, &[]);
    drop(parts);
    opened.is_ok_and(|it| it.is_empty())
}

#[test]
fn an_empty_list_takes_no_memory(rt: HostRuntime) -> Result<(), Fail> {
    let heap = LocalHeap::new(rt.alloc(), HEAP)?;
    assert!(rt; opens_none_in_full_heap(rt.alloc(), &heap));
    Ok(())
}
