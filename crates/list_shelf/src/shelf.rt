//! Pages in frames that lie side by side in one piece of memory; a frame which no page has needed yet is not touched.
//!
//! The pages stand in a list of heads, in order. A head says in which frame its page lies and where in it, so a page
//! that is put between two others moves heads alone. The number of its frame is the name of a page.
ghost use Rattle.std.specs.Prelude.{◌≡◌, ◌≢◌, ◌+◌, ◌-◌, ◌*◌, ◌≤◌, ◌<◌, ◌^◌, List, [], ◌∷◌, ◌++◌, length, take, drop};
ghost use Rattle.std.specs.Prelude.{slice_index_or, slice_set, vec_len, vec_capacity, max, suc, OnOk};
ghost use Rattle.std.specs.List.{insert, remove};
ghost use Rattle.list_shelf.specs.Shelf.{cut_at};
ghost use Rattle.list_shelf.specs.Shelf.{Shelved, IsShelf, framed, frame_at, pages_of};

use crate::frame::{self, Head, items_of};
use crate::summary::{FULL, HALF, QUARTER, Summary};
use std::alloc::{AllocError, Allocator};
use std::marker::Model;

/// Pages, and memory for more.
pub struct Shelf<T: Copy, S: Summary<T>, A: Allocator> {
    heads: Vec<Head<T, S>, A>,
    cells: Vec<T, A>,
    free: Vec<usize, A>,
    all: usize,
}

// Written out: what drops one calls this, and does not take it apart once more.
impl<T: Copy, S: Summary<T>, A: Allocator> Drop for Shelf<T, S, A> {
    fn drop(self) {
        let Shelf {
            heads,
            cells,
            free,
            all: _,
        } = self;
        drop(heads);
        drop(cells);
        drop(free);
    }
}

impl<T: Copy, S: Summary<T>, A: Allocator> Model for Shelf<T, S, A> {
    ghost Value = { Shelved T };

    ghost view = { λ s. record {
      pages = pages_of (framed (length s.heads.items + length s.free.items) s.cells.items) s.heads.items;
      free = s.all - length s.heads.items;
    } };

    ghost invariant = { λ s. IsShelf S.sums_up s.cells.items s.heads.items s.free.items s.all
        × (s.all ≤ vec_capacity s.heads) × (256 * s.all ≤ vec_capacity s.cells) × (s.all ≤ vec_capacity s.free) };
}

impl<T: Copy, S: Summary<T>, A: Allocator + Copy> Shelf<T, S, A> {
    pub fn new(alloc: A) -> Self
        ensures pages { result.pages ≡ [] }
        ensures free { result.free ≡ 0 }
    {
        Shelf {
            heads: Vec::new(alloc),
            cells: Vec::new(alloc),
            free: Vec::new(alloc),
            all: 0,
        }
    }
}

impl<T: Copy, S: Summary<T>, A: Allocator> Shelf<T, S, A> {
    /// How many pages there are.
    pub fn len(&self) -> usize
        ensures { result ≡ length self.now.pages }
    {
        self.heads.len()
    }

    /// How many more can be opened with no new memory.
    pub fn free(&self) -> usize
        ensures { result ≡ self.now.free }
    {
        self.all - self.heads.len()
    }

    /// How many there are and can be.
    pub fn all(&self) -> usize
        ensures { result ≡ length self.now.pages + self.now.free }
    {
        self.all
    }

    /// How many entries page p has.
    pub fn len_of(&self, p: usize) -> usize
        requires { p < length self.now.pages }
        ensures len { result ≡ length (slice_index_or self.now.pages p []) }
        ensures most { result ≤ 256 }
    {
        self.heads[p].len
    }

    /// The name of page p: the number of its frame.
    pub fn name(&self, p: usize) -> usize
        requires { p < length self.now.pages }
    {
        self.heads[p].frame
    }

    pub fn items(&self, p: usize) -> &[T]
        requires { p < length self.now.pages }
        ensures { result.now ≡ slice_index_or self.now.pages p [] }
    {
        let head = self.heads[p];
        items_of(&self.cells, head.frame, head.start, head.len)
    }

    /// The last entry of page p.
    pub fn last(&self, p: usize) -> T
        requires within { p < length self.now.pages }
        requires some { 0 < length (slice_index_or self.now.pages p []) }
        ensures { result
            ≡ slice_index_or (slice_index_or self.now.pages p []) (length (slice_index_or self.now.pages p []) - 1)
            result }
    {
        self.heads[p].last
    }

    pub fn summary(&self, p: usize) -> S
        requires { p < length self.now.pages }
        ensures { S.sums_up result (slice_index_or self.now.pages p []) }
    {
        self.heads[p].summary
    }

    /// Puts an entry at the j-th place of page p, where it has room.
    pub fn insert(&mut self, p: usize, j: usize, x: T)
        requires within { p < length self.old.pages }
        requires inside { j ≤ length (slice_index_or self.old.pages p []) }
        requires room { length (slice_index_or self.old.pages p []) < 256 }
        ensures put { self.new.pages ≡ slice_set self.old.pages p (insert (slice_index_or self.old.pages p []) j x) }
        ensures free { self.new.free ≡ self.old.free }
    {
        let head = self.heads[p];
        let start = frame::put(&mut self.cells, head.frame, head.start, head.len, j, x);
        let last = last_with(j, head.len, x, head.last);
        self.heads[p] = Head {
            frame: head.frame,
            start,
            len: head.len + 1,
            last,
            summary: head.summary.with(x),
        };
    }

    /// Takes the j-th entry of page p out.
    pub fn remove(&mut self, p: usize, j: usize) -> T
        requires within { p < length self.old.pages }
        requires inside { j < length (slice_index_or self.old.pages p []) }
        ensures rest { self.new.pages ≡ slice_set self.old.pages p (remove (slice_index_or self.old.pages p []) j) }
        ensures out { result ≡ slice_index_or (slice_index_or self.old.pages p []) j result }
        ensures free { self.new.free ≡ self.old.free }
    {
        let head = self.heads[p];
        let out = items_of(&self.cells, head.frame, head.start, head.len)[j];
        let start = frame::take(&mut self.cells, head.frame, head.start, head.len, j);
        let items = items_of(&self.cells, head.frame, start, head.len - 1);
        self.heads[p] = head_of(head.frame, start, items, out);
        out
    }

    /// Writes another entry over the j-th of page p.
    pub fn set(&mut self, p: usize, j: usize, x: T)
        requires within { p < length self.old.pages }
        requires inside { j < length (slice_index_or self.old.pages p []) }
        ensures set { self.new.pages ≡ slice_set self.old.pages p (slice_set (slice_index_or self.old.pages p []) j x) }
        ensures free { self.new.free ≡ self.old.free }
    {
        let head = self.heads[p];
        let old = items_of(&self.cells, head.frame, head.start, head.len)[j];
        frame::set(&mut self.cells, head.frame, head.start + j, x);
        let last = last_with(j + 1, head.len, x, head.last);
        self.heads[p] = Head {
            frame: head.frame,
            start: head.start,
            len: head.len,
            last,
            summary: head.summary.replaced(old, x),
        };
    }

    /// Copies what stands in page p from one place up to another behind the first n of page q, which then ends.
    fn copy(&mut self, p: usize, from: usize, to: usize, q: usize, n: usize)
        requires within { p < length self.old.pages }
        requires other { q < length self.old.pages }
        requires order { from ≤ to }
        requires inside { to ≤ length (slice_index_or self.old.pages p []) }
        requires some { n ≤ length (slice_index_or self.old.pages q []) }
        requires few { n + (to - from) ≤ 256 }
        ensures put { self.new.pages ≡ slice_set self.old.pages q (take n (slice_index_or self.old.pages q [])
            ++ drop from (take to (slice_index_or self.old.pages p []))) }
        ensures free { self.new.free ≡ self.old.free }
    {
        let many = n + (to - from);
        let old = self.heads[q];
        let start = frame::settle(&mut self.cells, old.frame, old.start, old.len, many);
        let head = old.at(start);
        self.heads[q] = head;
        let source = self.heads[p];
        let (first, end) = (source.start + from, source.start + to);
        frame::copy(
            &mut self.cells,
            source.frame,
            first,
            end,
            head.frame,
            start + n,
        );
        let items = items_of(&self.cells, head.frame, start, many);
        self.heads[q] = head_of(head.frame, start, items, head.last);
    }

    /// Keeps of page p what stands from one place up to another.
    fn keep(&mut self, p: usize, from: usize, to: usize)
        requires within { p < length self.old.pages }
        requires order { from ≤ to }
        requires inside { to ≤ length (slice_index_or self.old.pages p []) }
        ensures kept { self.new.pages
            ≡ slice_set self.old.pages p (drop from (take to (slice_index_or self.old.pages p []))) }
        ensures free { self.new.free ≡ self.old.free }
    {
        let head = self.heads[p];
        let start = head.start + from;
        let items = items_of(&self.cells, head.frame, start, to - from);
        self.heads[p] = head_of(head.frame, start, items, head.last);
    }

    /// Moves page p to another place of its frame.
    fn move_to(&mut self, p: usize, start: usize)
        requires within { p < length self.old.pages }
        requires room { start + length (slice_index_or self.old.pages p []) ≤ 256 }
        ensures same { self.new.pages ≡ self.old.pages }
        ensures free { self.new.free ≡ self.old.free }
    {
        let head = self.heads[p];
        frame::shift(&mut self.cells, head.frame, head.start, head.len, start);
        self.heads[p] = head.at(start);
    }

    /// Opens a page with one entry before page p, or behind all.
    pub fn open(&mut self, p: usize, x: T)
        requires within { p ≤ length self.old.pages }
        requires free { 0 < self.old.free }
        ensures put { self.new.pages ≡ insert self.old.pages p (x ∷ []) }
        ensures free { self.new.free + 1 ≡ self.old.free }
    {
        let start = first_start(p, self.heads.len());
        if self.free.len() == 0 {
            let f = self.heads.len();
            frame::lay(&mut self.cells, x);
            let items = items_of(&self.cells, f, start, 1);
            insert_reserved(&mut self.heads, p, head_of(f, start, items, x));
            return;
        }
        let f = self.free.take_last();
        frame::set(&mut self.cells, f, start, x);
        let items = items_of(&self.cells, f, start, 1);
        insert_reserved(&mut self.heads, p, head_of(f, start, items, x));
    }

    /// Appends these to page p.
    pub fn extend(&mut self, p: usize, items: &[T])
        requires within { p < length self.old.pages }
        requires room { length (slice_index_or self.old.pages p []) + length items.now ≤ 256 }
        ensures put { self.new.pages ≡ slice_set self.old.pages p (slice_index_or self.old.pages p [] ++ items.now) }
        ensures free { self.new.free ≡ self.old.free }
    {
        let head = self.heads[p];
        let many = head.len + items.len();
        let start = frame::settle(&mut self.cells, head.frame, head.start, head.len, many);
        frame::append(&mut self.cells, head.frame, start + head.len, items);
        let whole = items_of(&self.cells, head.frame, start, many);
        self.heads[p] = head_of(head.frame, start, whole, head.last);
    }

    /// Opens a page with these entries behind all.
    pub fn push(&mut self, items: &[T])
        requires some { 0 < length items.now }
        requires few { length items.now ≤ 256 }
        requires free { 0 < self.old.free }
        ensures put { self.new.pages ≡ self.old.pages ++ items.now ∷ [] }
        ensures free { self.new.free + 1 ≡ self.old.free }
    {
        let p = self.heads.len();
        let (first, rest) = items.split_at(1);
        self.open(p, first[0]);
        self.extend(p, rest);
    }

    /// Closes page p: its entries are gone, and its frame is free.
    pub fn close(&mut self, p: usize)
        requires { p < length self.old.pages }
        ensures rest { self.new.pages ≡ remove self.old.pages p }
        ensures free { self.new.free ≡ self.old.free + 1 }
    {
        let head = self.heads.remove(p);
        self.free.push_reserved(head.frame);
    }

    /// Cuts a full page in two; the place of the new page.
    pub fn cut(&mut self, p: usize) -> usize
        requires within { p < length self.old.pages }
        requires full { length (slice_index_or self.old.pages p []) ≡ 256 }
        requires free { 0 < self.old.free }
        ensures cut { self.new.pages ≡ cut_at self.old.pages p }
        ensures free { self.new.free + 1 ≡ self.old.free }
        ensures next { result ≡ p + 1 }
    {
        let head = self.heads[p];
        let next = p + 1;
        self.open(next, head.last);
        self.move_to(next, QUARTER);
        self.copy(p, HALF, FULL, next, 0);
        self.keep(p, 0, HALF);
        self.move_to(p, QUARTER);
        next
    }

    /// Joins page p and the next.
    pub fn join(&mut self, p: usize, next: usize)
        requires next { next ≡ p + 1 }
        requires within { next < length self.old.pages }
        requires few { length (slice_index_or self.old.pages p []) + length (slice_index_or self.old.pages next []) ≤
            256 }
        ensures joined { self.new.pages
            ≡ remove (slice_set self.old.pages p (slice_index_or self.old.pages p []
            ++ slice_index_or self.old.pages next [])) next }
        ensures free { self.new.free ≡ self.old.free + 1 }
    {
        let n = self.len_of(next);
        self.copy(next, 0, n, p, self.len_of(p));
        self.close(next);
    }

    /// Moves the first n of the next page to the end of page p.
    pub fn share(&mut self, p: usize, next: usize, n: usize)
        requires next { next ≡ p + 1 }
        requires within { next < length self.old.pages }
        requires some { n ≤ length (slice_index_or self.old.pages next []) }
        requires few { length (slice_index_or self.old.pages p []) + n ≤ 256 }
        ensures shared { self.new.pages
            ≡ slice_set (slice_set self.old.pages p (slice_index_or self.old.pages p []
            ++ take n (slice_index_or self.old.pages next []))) next (drop n (slice_index_or self.old.pages next [])) }
        ensures free { self.new.free ≡ self.old.free }
    {
        let len = self.len_of(next);
        self.copy(next, 0, n, p, self.len_of(p));
        self.keep(next, n, len);
    }

    /// Memory for so many pages in all.
    pub fn stock(&mut self, target: usize) -> Result<(), AllocError>
        requires { target ≤ 2 ^ 41 }
        ensures same { self.new.pages ≡ self.old.pages }
        ensures grows { self.old.free ≤ self.new.free }
        ensures most { length self.new.pages + self.new.free ≤ max (length self.old.pages + self.old.free) target }
        ensures enough { OnOk result (target ≤ length self.new.pages + self.new.free) }
    {
        if target <= self.all {
            return Ok(());
        }
        self.heads.reserve(target - self.heads.len())?;
        self.cells.reserve(FULL * target - self.cells.len())?;
        self.free.reserve(target - self.free.len())?;
        self.all = target;
        Ok(())
    }
}

/// Where in its frame a page begins that is opened before page p of so many: one before all others is to grow to the
/// left.
fn first_start(p: usize, pages: usize) -> usize
    ensures { result < 256 }
{
    if p == 0 && pages > 0 { FULL - 1 } else { 0 }
}

/// The last entry of a page that x came to: x itself at its end, and otherwise the one that was last.
fn last_with<T: Copy>(place: usize, end: usize, x: T, last: T) -> T
    ensures new { place ≡ end → result ≡ x }
    ensures kept { place ≢ end → result ≡ last }
{
    if place == end { x } else { last }
}

/// The head of a page in a frame of that number, from that place on.
fn head_of<T: Copy, S: Summary<T>>(
    frame: usize,
    start: usize,
    items: &[T],
    otherwise: T,
) -> Head<T, S>
    requires { length items.now ≤ 256 }
    ensures frame { result.frame ≡ frame }
    ensures start { result.start ≡ start }
    ensures len { result.len ≡ length items.now }
    ensures sums_up { S.sums_up result.summary items.now }
    ensures last { 0 < length items.now → result.last ≡ slice_index_or items.now (length items.now - 1) result.last }
{
    let n = items.len();
    Head {
        frame,
        start,
        len: n,
        last: if n == 0 { otherwise } else { items[n - 1] },
        summary: S::of(items),
    }
}

/// Puts one where there is room for it.
fn insert_reserved<X: Drop, A: Allocator>(items: &mut Vec<X, A>, i: usize, x: X)
    requires within { i ≤ vec_len items.old }
    requires room { vec_len items.old < vec_capacity items.old }
    ensures items { items.new.items ≡ insert items.old.items i x }
    ensures len { vec_len items.new ≡ vec_len items.old + 1 }
    ensures capacity { vec_capacity items.old ≤ vec_capacity items.new }
{
    if items.insert(i, x).is_err() {
        prove!(false);
    }
}
