//! The calls of a replica, and their answers, as values.
use crate::cases::{are_lawful, roman};
use desk_memory::NoMemory;
use desk_ops::{Key, Op};
use desk_replica::{Count, Refusal, Replica, Stopped, Took};
use desk_seq::Sequence;
use std::alloc::Allocator;

/// A call. `Open` replaces the replica where it succeeds, `Merge` takes in what another holds, a replica of the list.
#[derive(Clone, Copy)]
pub enum Call<'a> {
    Take(Op),
    TakeAll(&'a [Op]),
    Merge(&'a [Op]),
    Open(&'a [Op]),
    Insert(usize, char),
    Delete(usize),
    Set(u32),
    Reserve(usize),
    Copy,
    Faults,
    Order,
    Feed,
}

impl<'a> Call<'a> {
    /// The list that the call takes in.
    pub fn list(&self) -> &'a [Op] {
        match self {
            Call::TakeAll(ops) | Call::Merge(ops) | Call::Open(ops) => ops,
            _ => &[],
        }
    }
}

/// An answer. Of an opened replica it is the number held, of a list that was read its length.
#[derive(Clone, Copy, PartialEq, Eq)]
pub enum Answer {
    Took(Took),
    Counted(Count),
    Opened(usize),
    Made(Op),
    Reserved,
    Read(usize),
    Refused(Refusal),
    Stopped(Stopped),
    Unlawful,
}

/// Takes in an operation, where it is lawful.
pub fn take<Q: Sequence>(replica: &mut Replica<Q>, op: Op) -> Answer {
    if op.check().is_err() {
        return Answer::Unlawful;
    }
    match replica.take(op) {
        Ok(took) => Answer::Took(took),
        Err(refusal) => Answer::Refused(refusal),
    }
}

/// Whether each operation is lawful, and new as it is taken in.
pub fn takes<Q: Sequence>(replica: &mut Replica<Q>, ops: &[Op]) -> bool {
    for op in ops {
        if take(replica, *op) != Answer::Took(Took::New) {
            return false;
        }
    }
    true
}

/// Takes in a list of lawful operations.
pub fn take_all<Q: Sequence>(replica: &mut Replica<Q>, ops: &[Op]) -> Answer {
    if !are_lawful(ops) {
        return Answer::Unlawful;
    }
    counted(replica.take_all(ops))
}

/// Opens a replica of a list of lawful operations in place of this one.
pub fn open<Q: Sequence>(memory: Q::Memory, replica: &mut Replica<Q>, ops: &[Op]) -> Answer {
    if !are_lawful(ops) {
        return Answer::Unlawful;
    }
    match Replica::open(memory, replica.site(), ops) {
        Ok(opened) => {
            *replica = opened;
            Answer::Opened(replica.len())
        }
        Err(stopped) => Answer::Stopped(stopped),
    }
}

fn counted(answer: Result<Count, Stopped>) -> Answer {
    match answer {
        Ok(count) => Answer::Counted(count),
        Err(stopped) => Answer::Stopped(stopped),
    }
}

fn made(answer: Result<Op, Refusal>) -> Answer {
    match answer {
        Ok(op) => Answer::Made(op),
        Err(refusal) => Answer::Refused(refusal),
    }
}

/// What was read is of this length.
fn read<T: Drop, A: Allocator>(list: Result<Vec<T, A>, NoMemory>) -> Answer {
    match list {
        Ok(list) => Answer::Read(list.len()),
        Err(NoMemory) => Answer::Refused(Refusal::NoMemory),
    }
}

/// Makes a call, of a local edit.
fn edit<Q: Sequence>(replica: &mut Replica<Q>, call: Call<'_>) -> Answer {
    match call {
        Call::Insert(place, ch) => made(replica.insert_at(place, roman(ch))),
        Call::Delete(place) => made(replica.delete_at(place)),
        Call::Set(value) => made(replica.set(Key::Measure, value)),
        Call::Reserve(n) if n <= 1000 => match replica.reserve(n) {
            Ok(()) => Answer::Reserved,
            Err(NoMemory) => Answer::Refused(Refusal::NoMemory),
        },
        Call::Copy => read(replica.copy()),
        Call::Faults => read(replica.copy_faults()),
        Call::Order => read(replica.in_order()),
        Call::Feed => read(replica.write_feed()),
        _ => Answer::Unlawful,
    }
}

/// Makes a call; a merge is with the other.
pub fn ask<Q: Sequence>(
    memory: Q::Memory,
    replica: &mut Replica<Q>,
    call: Call<'_>,
    other: &Replica<Q>,
) -> Answer {
    match call {
        Call::Take(op) => take(replica, op),
        Call::TakeAll(ops) => take_all(replica, ops),
        Call::Merge(_) => counted(replica.merge(other)),
        Call::Open(ops) => open(memory, replica, ops),
        _ => edit(replica, call),
    }
}
