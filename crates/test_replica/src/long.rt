//! Copies of 100,000 symbols: no call is out of memory there while there is memory.
use crate::calls::{Answer, Call, ask, takes};
use crate::cases::{are_alike, roman};
use desk_blocks::Blocks;
use desk_memory::NoMemory;
use desk_ops::Op;
use desk_replica::{Count, Replica};
use desk_seq::Sequence;
use std::alloc::Global;

/// Whether so many symbols can be typed at the end of a copy.
fn types<Q: Sequence>(replica: &mut Replica<Q>, number: usize) -> bool {
    for place in 0..number {
        if replica.insert_at(place, roman('a')).is_err() {
            return false;
        }
    }
    replica.copy_len() == number
}

/// Whether so many symbols can be deleted at the front of a copy.
fn deletes<Q: Sequence>(replica: &mut Replica<Q>, number: usize) -> bool {
    for _ in 0..number {
        if replica.delete_at(0).is_err() {
            return false;
        }
    }
    true
}

/// Whether a call brings all of a replica into another.
fn brings<Q: Sequence>(
    memory: Q::Memory,
    typed: &Replica<Q>,
    call: Call<'_>,
    answer: Answer,
) -> bool {
    let mut replica = Replica::<Q>::new(memory, 2);
    ask(memory, &mut replica, call, typed) == answer && are_alike(typed, &replica)
}

/// Whether a replica takes in a list one by one.
fn takes_each<Q: Sequence>(memory: Q::Memory, typed: &Replica<Q>, ops: &[Op]) -> bool {
    let mut replica = Replica::<Q>::new(memory, 3);
    takes(&mut replica, ops) && are_alike(typed, &replica)
}

/// Whether what a replica holds can be opened, taken in as a list and one by one, and merged.
fn comes_over<Q: Sequence>(memory: Q::Memory, typed: &Replica<Q>, ops: &[Op]) -> bool {
    let (new, known) = (ops.len(), 0);
    let all = Answer::Counted(Count { new, known });
    brings(memory, typed, Call::Open(ops), Answer::Opened(ops.len()))
        && brings(memory, typed, Call::TakeAll(ops), all)
        && brings(memory, typed, Call::Merge(ops), all)
        && takes_each(memory, typed, ops)
}

/// The same of all that it holds.
fn all_comes_over<Q: Sequence>(memory: Q::Memory, typed: &Replica<Q>) -> bool {
    match typed.in_order() {
        Ok(ops) => comes_over(memory, typed, ops.as_slice()),
        Err(NoMemory) => false,
    }
}

/// Whether so many symbols can be typed, then some deleted, and all of it brought to other sites.
fn is_long<Q: Sequence>(memory: Q::Memory, number: usize, some: usize) -> bool {
    let mut typed = Replica::<Q>::new(memory, 1);
    types(&mut typed, number) && deletes(&mut typed, some) && all_comes_over(memory, &typed)
}

#[test]
fn hundred_thousand(rt: HostRuntime) {
    assert!(rt; is_long::<Blocks<Global>>(rt.alloc(), 100_000, 10_000));
}
