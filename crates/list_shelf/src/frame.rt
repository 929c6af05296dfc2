//! Frames: parts of 256 places of one piece of memory, each for one page.
ghost use Rattle.std.specs.Prelude.{◌≡◌, ◌+◌, ◌-◌, ◌*◌, ◌≤◌, ◌<◌, ◌^◌, List, ◌++◌, replicate, length, take, drop};
ghost use Rattle.std.specs.Prelude.{slice_index_or, slice_set, vec_len, vec_capacity};
ghost use Rattle.std.specs.List.{insert, remove};
ghost use Rattle.list_shelf.specs.Shelf.{frame_at, IsWritten};

use crate::summary::FULL;
use std::alloc::Allocator;

/// What is kept of a page: its frame, where in it the page begins, how many entries it has, the last of them, and a
/// summary.
#[derive(Clone, Copy)]
pub struct Head<T: Copy, S: Copy> {
    pub frame: usize,
    pub start: usize,
    pub len: usize,
    pub last: T,
    pub summary: S,
}

impl<T: Copy, S: Copy> Head<T, S> {
    /// The same page, where it begins elsewhere in its frame.
    pub fn at(self, start: usize) -> Self
        ensures { result
            ≡ record { frame = self.frame; start = start; len = self.len; last = self.last; summary = self.summary } }
    {
        Head {
            frame: self.frame,
            start,
            len: self.len,
            last: self.last,
            summary: self.summary,
        }
    }
}

/// The n entries of a frame from its place s on.
pub fn items_of<T: Copy>(cells: &[T], f: usize, s: usize, n: usize) -> &[T]
    requires within { 256 * f + 256 ≤ length cells.now }
    requires few { s + n ≤ 256 }
    ensures is { result.now ≡ take n (drop s (frame_at cells.now f)) }
    ensures len { length result.now ≡ n }
{
    &cells[FULL * f + s..FULL * f + s + n]
}

/// Puts one before the j-th of the first n, and moves those behind it to the right.
fn put_right<T: Copy>(part: &mut [T], n: usize, j: usize, x: T)
    requires within { j ≤ n }
    requires room { n < length part.old }
    ensures put { take (n + 1) part.new ≡ insert (take n part.old) j x }
    ensures len { length part.new ≡ length part.old }
{
    part.copy_within(j..n, j + 1);
    part[j] = x;
}

/// Puts one before the j-th of the n behind the first place, and moves those before it to the left.
fn put_left<T: Copy>(part: &mut [T], n: usize, j: usize, x: T)
    requires within { j ≤ n }
    requires room { n < length part.old }
    ensures put { take (n + 1) part.new ≡ insert (take n (drop 1 part.old)) j x }
    ensures len { length part.new ≡ length part.old }
{
    part.copy_within(1..j + 1, 0);
    part[j] = x;
}

/// Takes the j-th of the first n out, and moves those behind it to the left.
fn take_right<T: Copy>(part: &mut [T], n: usize, j: usize)
    requires within { j < n }
    requires few { n ≤ length part.old }
    ensures rest { take (n - 1) part.new ≡ remove (take n part.old) j }
    ensures len { length part.new ≡ length part.old }
{
    part.copy_within(j + 1..n, j);
}

/// Takes the j-th of the first n out, and moves those before it to the right.
fn take_left<T: Copy>(part: &mut [T], n: usize, j: usize)
    requires within { j < n }
    requires few { n ≤ length part.old }
    ensures rest { take (n - 1) (drop 1 part.new) ≡ remove (take n part.old) j }
    ensures len { length part.new ≡ length part.old }
{
    part.copy_within(0..j, 1);
}

/// Puts one before the j-th of the n from place s on, and moves the fewer, if there is room beside them; where they
/// begin then.
fn put_in<T: Copy>(frame: &mut [T], s: usize, n: usize, j: usize, x: T) -> usize
    requires wide { length frame.old ≡ 256 }
    requires within { j ≤ n }
    requires few { s + n ≤ 256 }
    requires room { n < 256 }
    ensures put { take (n + 1) (drop result frame.new) ≡ insert (take n (drop s frame.old)) j x }
    ensures few { result + (n + 1) ≤ 256 }
    ensures len { length frame.new ≡ 256 }
{
    if s > 0 && (2 * j < n || s + n == FULL) {
        put_left(&mut frame[s - 1..], n, j, x);
        return s - 1;
    }
    put_right(&mut frame[s..], n, j, x);
    s
}

/// Takes the j-th of the n from place s on out, and moves the fewer; where they begin then.
fn take_in<T: Copy>(frame: &mut [T], s: usize, n: usize, j: usize) -> usize
    requires wide { length frame.old ≡ 256 }
    requires within { j < n }
    requires few { s + n ≤ 256 }
    ensures rest { take (n - 1) (drop result frame.new) ≡ remove (take n (drop s frame.old)) j }
    ensures few { result + (n - 1) ≤ 256 }
    ensures len { length frame.new ≡ 256 }
{
    if 2 * j < n {
        take_left(&mut frame[s..], n, j);
        return s + 1;
    }
    take_right(&mut frame[s..], n, j);
    s
}

/// Writes these behind the first n.
fn append_in<T: Copy>(frame: &mut [T], n: usize, items: &[T])
    requires wide { length frame.old ≡ 256 }
    requires few { n + length items.now ≤ 256 }
    ensures put { take (n + length items.now) frame.new ≡ take n frame.old ++ items.now }
    ensures len { length frame.new ≡ 256 }
{
    frame[n..n + items.len()].copy_from_slice(items);
}

/// Puts one before the j-th of the n from place s of frame f on; where they begin then.
pub fn put<T: Copy, A: Allocator>(
    cells: &mut Vec<T, A>,
    f: usize,
    s: usize,
    n: usize,
    j: usize,
    x: T,
) -> usize
    requires frame { 256 * f + 256 ≤ vec_len cells.old }
    requires within { j ≤ n }
    requires few { s + n ≤ 256 }
    requires room { n < 256 }
    ensures put { take (n + 1) (drop result (frame_at cells.new.items f))
        ≡ insert (take n (drop s (frame_at cells.old.items f))) j x }
    ensures few { result + (n + 1) ≤ 256 }
    ensures others { IsWritten cells.old.items cells.new.items f }
    ensures len { vec_len cells.new ≡ vec_len cells.old }
    ensures capacity { vec_capacity cells.new ≡ vec_capacity cells.old }
{
    put_in(cells.slice_mut(FULL * f..FULL * f + FULL), s, n, j, x)
}

/// Takes the j-th of the n from place s of frame f on out; where they begin then.
pub fn take<T: Copy, A: Allocator>(
    cells: &mut Vec<T, A>,
    f: usize,
    s: usize,
    n: usize,
    j: usize,
) -> usize
    requires frame { 256 * f + 256 ≤ vec_len cells.old }
    requires within { j < n }
    requires few { s + n ≤ 256 }
    ensures rest { take (n - 1) (drop result (frame_at cells.new.items f))
        ≡ remove (take n (drop s (frame_at cells.old.items f))) j }
    ensures few { result + (n - 1) ≤ 256 }
    ensures others { IsWritten cells.old.items cells.new.items f }
    ensures len { vec_len cells.new ≡ vec_len cells.old }
    ensures capacity { vec_capacity cells.new ≡ vec_capacity cells.old }
{
    take_in(cells.slice_mut(FULL * f..FULL * f + FULL), s, n, j)
}

/// Writes another entry over the j-th of frame f.
pub fn set<T: Copy, A: Allocator>(cells: &mut Vec<T, A>, f: usize, j: usize, x: T)
    requires frame { 256 * f + 256 ≤ vec_len cells.old }
    requires within { j < 256 }
    ensures set { frame_at cells.new.items f ≡ slice_set (frame_at cells.old.items f) j x }
    ensures others { IsWritten cells.old.items cells.new.items f }
    ensures len { vec_len cells.new ≡ vec_len cells.old }
    ensures capacity { vec_capacity cells.new ≡ vec_capacity cells.old }
{
    cells.slice_mut(FULL * f..FULL * f + FULL)[j] = x;
}

/// Writes these behind the first n of frame f.
pub fn append<T: Copy, A: Allocator>(cells: &mut Vec<T, A>, f: usize, n: usize, items: &[T])
    requires frame { 256 * f + 256 ≤ vec_len cells.old }
    requires few { n + length items.now ≤ 256 }
    ensures put { take (n + length items.now) (frame_at cells.new.items f) ≡ take n (frame_at cells.old.items f)
        ++ items.now }
    ensures others { IsWritten cells.old.items cells.new.items f }
    ensures len { vec_len cells.new ≡ vec_len cells.old }
    ensures capacity { vec_capacity cells.new ≡ vec_capacity cells.old }
{
    append_in(cells.slice_mut(FULL * f..FULL * f + FULL), n, items);
}

/// Copies some of frame f behind the first n of frame g.
pub fn copy<T: Copy, A: Allocator>(
    cells: &mut Vec<T, A>,
    f: usize,
    from: usize,
    to: usize,
    g: usize,
    n: usize,
)
    requires frame { 256 * f + 256 ≤ vec_len cells.old }
    requires other { 256 * g + 256 ≤ vec_len cells.old }
    requires order { from ≤ to }
    requires within { to ≤ 256 }
    requires few { n + (to - from) ≤ 256 }
    ensures put { take (n + (to - from)) (frame_at cells.new.items g) ≡ take n (frame_at cells.old.items g)
        ++ drop from (take to (frame_at cells.old.items f)) }
    ensures others { IsWritten cells.old.items cells.new.items g }
    ensures len { vec_len cells.new ≡ vec_len cells.old }
    ensures capacity { vec_capacity cells.new ≡ vec_capacity cells.old }
{
    cells.copy_within(FULL * f + from..FULL * f + to, FULL * g + n);
}

/// Moves the n from place s of frame f on to another place of it.
pub fn shift<T: Copy, A: Allocator>(cells: &mut Vec<T, A>, f: usize, s: usize, n: usize, to: usize)
    requires frame { 256 * f + 256 ≤ vec_len cells.old }
    requires few { s + n ≤ 256 }
    requires room { to + n ≤ 256 }
    ensures same { take n (drop to (frame_at cells.new.items f)) ≡ take n (drop s (frame_at cells.old.items f)) }
    ensures others { IsWritten cells.old.items cells.new.items f }
    ensures len { vec_len cells.new ≡ vec_len cells.old }
    ensures capacity { vec_capacity cells.new ≡ vec_capacity cells.old }
{
    copy(cells, f, s, s + n, f, to);
}

/// Moves the n from place s of frame f on to its first place, where so many have no room from s on; where they begin
/// then.
pub fn settle<T: Copy, A: Allocator>(
    cells: &mut Vec<T, A>,
    f: usize,
    s: usize,
    n: usize,
    many: usize,
) -> usize
    requires frame { 256 * f + 256 ≤ vec_len cells.old }
    requires few { s + n ≤ 256 }
    requires most { many ≤ 256 }
    ensures same { take n (drop result (frame_at cells.new.items f)) ≡ take n (drop s (frame_at cells.old.items f)) }
    ensures few { result + n ≤ 256 }
    ensures room { result + many ≤ 256 }
    ensures others { IsWritten cells.old.items cells.new.items f }
    ensures len { vec_len cells.new ≡ vec_len cells.old }
    ensures capacity { vec_capacity cells.new ≡ vec_capacity cells.old }
{
    if s + many <= FULL {
        return s;
    }
    shift(cells, f, s, n, 0);
    0
}

/// One more frame, behind all others.
pub fn lay<T: Copy, A: Allocator>(cells: &mut Vec<T, A>, x: T)
    requires room { vec_len cells.old + 256 ≤ vec_capacity cells.old }
    ensures items { cells.new.items ≡ cells.old.items ++ replicate 256 x }
    ensures len { vec_len cells.new ≡ vec_len cells.old + 256 }
    ensures capacity { vec_capacity cells.old ≤ vec_capacity cells.new }
{
    let end = cells.len() + FULL;
    if cells.resize(end, x).is_err() {
        prove!(false);
    }
}
