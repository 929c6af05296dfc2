//! The calls of a replica and what they give, as values of which the law of one run speaks.
use desk_memory::NoMemory;
use desk_ops::{CopyFault, Key, Op, Symbol};
use desk_replica::{Count, Refusal, Settings, Stopped, Took};
use std::alloc::Allocator;

/// A call. The replica that a merge reads is no part of it.
#[derive(Clone, Copy)]
pub enum Asked<'a> {
    Insert(usize, Symbol),
    Delete(usize),
    Set(Key, u32),
    Take(Op),
    TakeAll(&'a [Op]),
    Merge,
    Reserve(usize),
    Site,
    Length,
    HasAll(&'a [Op]),
    Text,
    Letters,
    Settings,
    Faults,
    Order,
    Range(usize, usize),
    Feed,
}

/// What a call gives.
#[derive(Drop)]
pub enum Given<A: Allocator> {
    Edited(Result<Op, Refusal>),
    Taken(Result<Took, Refusal>),
    Joined(Result<Count, Stopped>),
    Reserved(Result<(), NoMemory>),
    Symbols(Result<Vec<Symbol, A>, NoMemory>),
    CopyFaults(Result<Vec<CopyFault, A>, NoMemory>),
    Operations(Result<Vec<Op, A>, NoMemory>),
    Bytes(Result<Vec<u8, A>, NoMemory>),
    Number(usize),
    Truth(bool),
    Values(Settings),
}
