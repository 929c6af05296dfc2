//! A sequence in one vector.
ghost use Rattle.std.specs.Prelude.{◌≡◌, ◌-◌, vec_capacity, vec_len};
ghost use Rattle.std.specs.Prelude.{IfSome, IsNone, ◌≤◌, ◌<◌, ◌+◌, ◌^◌, length};
ghost use Rattle.std.specs.List.{insert};
ghost use Rattle.desk_seq.specs.Entries.{Listing, listing_code, AreDistinct, IsFoundAt, IsFirstBelow, stamps_of};
ghost use Rattle.desk_seq.specs.Entries.{IsAbsent};
ghost use Rattle.desk_seq.specs.contracts.Entry as entry;

use crate::{Entry, Sequence};
use desk_ops::Stamp;
use std::alloc::{AllocError, Allocator};
use std::marker::Model;

/// Entries in one vector: a put moves all that stand behind it.
#[derive(Drop)]
pub struct Flat<A: Allocator> {
    items: Vec<Entry, A>,
}

impl<A: Allocator> Model for Flat<A> {
    ghost Value = { Listing };

    ghost coded = { listing_code (entry.the_row).coded };

    ghost view = { λ a. record { entries = a.items.items; spare = vec_capacity a.items - vec_len a.items } };

    ghost invariant = { λ a. AreDistinct a.items.items };
}

impl<A: Allocator + Copy> Sequence for Flat<A> {
    type Memory = A;

    ghost entries = { λ s. s.entries };

    ghost free = { λ s. s.spare };

    fn empty(alloc: A) -> Self {
        Flat {
            items: Vec::new(alloc),
        }
    }

    fn len(&self) -> usize {
        self.items.len()
    }

    fn entry(&self, i: usize) -> Entry {
        self.items[i]
    }

    fn find(&self, stamp: Stamp) -> Option<usize> {
        find_in(&self.items, stamp)
    }

    fn spare(&self) -> usize {
        self.items.capacity() - self.items.len()
    }

    fn reserve(&mut self, n: usize) -> Result<(), AllocError> {
        self.items.reserve(n)
    }

    fn put(&mut self, i: usize, entry: Entry) {
        put_in(&mut self.items, i, entry);
    }

    fn first_below(&self, from: usize, stamp: Stamp) -> usize {
        below_in(&self.items, from, stamp)
    }

    fn mark(&mut self, i: usize) {
        self.items[i].deleted = true;
    }
}

/// The first place that bears the stamp.
fn find_in(items: &[Entry], stamp: Stamp) -> Option<usize>
    ensures found { IfSome result (λ i. IsFoundAt (stamps_of items.now) stamp i) }
    ensures fits { IfSome result (λ i. i + 1 < 2 ^ 64) }
    ensures none { IsNone result → IsAbsent stamp items.now }
{
    let mut at = 0;
    while at < items.len() {
        if items[at].stamp.is_same(stamp) {
            return Some(at);
        }
        at += 1;
    }
    None
}

/// Puts one at place i, where there is room for it.
fn put_in<A: Allocator>(items: &mut Vec<Entry, A>, i: usize, entry: Entry)
    requires within { i ≤ vec_len items.old }
    requires spare { vec_len items.old < vec_capacity items.old }
    ensures put { items.new.items ≡ insert items.old.items i entry }
    ensures len { vec_len items.new ≡ vec_len items.old + 1 }
    ensures capacity { vec_capacity items.old ≤ vec_capacity items.new }
{
    if items.insert(i, entry).is_err() {
        prove!(false);
    }
}

/// The first place from there on whose stamp is smaller, or the end.
fn below_in(items: &[Entry], from: usize, stamp: Stamp) -> usize
    requires { from ≤ length items.now }
    ensures { IsFirstBelow (stamps_of items.now) from stamp result }
{
    let mut at = from;
    while at < items.len() && !items[at].stamp.is_before(stamp) {
        at += 1;
    }
    at
}
