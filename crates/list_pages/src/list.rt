//! A list in pages.
ghost use Rattle.std.specs.Prelude.{◌≡◌, ◌+◌, ◌≤◌, ◌<◌, ◌^◌, ℕ, [], length, take, drop, slice_index_or, slice_set};
ghost use Rattle.std.specs.Prelude.{IfSome, IsNone, OnOk, IfOk, IfErr, IsOk, true, false};
ghost use Rattle.std.specs.List.{count_by, insert, remove};
ghost use Rattle.list_pages.specs.Pages.{Kept, joined, spare_of, IsKept, IsGroups, IsNth, IsShort, IsEdge};

use crate::groups::{self, Groups, find_groups};
use crate::pages;
use crate::search::{self, Pick};
use crate::starts::GROUP;
use list_shelf::{HALF, Shelf, Summary};
use std::alloc::{AllocError, Allocator};
use std::marker::Model;

/// More entries than any machine can keep.
const MOST: usize = 1 << 47;

/// Where an entry was put: two hints, and no part of the list.
#[derive(Clone, Copy, Debug, PartialEq, Eq)]
pub struct Placed {
    /// The name of its page.
    pub page: usize,
    /// Where a page was cut in two to make room, the place from which on the new one stands.
    pub cut: Option<usize>,
}

/// A list in pages of at most 256, seen as its entries and how many more it takes with no new memory.
pub struct Pages<T: Copy, S: Summary<T>, A: Allocator> {
    pages: Shelf<T, S, A>,
    len: usize,
    groups: Groups<S, A>,
    order: Vec<usize, A>,
}

// Written out: what drops one calls this, and does not take it apart once more.
impl<T: Copy, S: Summary<T>, A: Allocator> Drop for Pages<T, S, A> {
    fn drop(self) {
        let Pages {
            pages,
            len: _,
            groups,
            order,
        } = self;
        drop(pages);
        drop(groups);
        drop(order);
    }
}

impl<T: Copy, S: Summary<T>, A: Allocator> Model for Pages<T, S, A> {
    ghost Value = { Kept T };

    ghost view = { λ a. record {
      entries = joined a.pages.pages;
      spare = spare_of a.pages.free (length a.pages.pages + a.pages.free) a.len;
    } };

    ghost invariant = { λ a. IsKept a.pages.pages a.len (length a.pages.pages + a.pages.free)
        × IsGroups S.sums_up a.pages.pages a.groups.starts.items a.groups.sums.items };
}

impl<T: Copy, S: Summary<T>, A: Allocator + Copy> Pages<T, S, A> {
    pub fn new(alloc: A) -> Self
        ensures { result.entries ≡ [] }
    {
        Pages {
            pages: Shelf::new(alloc),
            len: 0,
            groups: Groups {
                starts: Vec::new(alloc),
                sums: Vec::new(alloc),
            },
            order: Vec::new(alloc),
        }
    }

    /// A list that holds these.
    pub fn from_slice(alloc: A, items: &[T]) -> Result<Self, AllocError>
        ensures { IfOk result (λ list. list.entries ≡ items.now) }
    {
        if items.len() > MOST {
            return Err(AllocError);
        }
        let pages = pages::fill(alloc, items)?;
        let count = pages.len() / GROUP + 1;
        let mut groups = Groups {
            starts: Vec::with_capacity(alloc, count)?,
            sums: Vec::with_capacity(alloc, count)?,
        };
        find_groups(&pages, &mut groups, 0);
        let mut order = Vec::new(alloc);
        order.resize(pages.len(), 0)?;
        pages::find_order(&pages, &mut order, 0);
        Ok(Pages {
            pages,
            len: items.len(),
            groups,
            order,
        })
    }

    pub fn len(&self) -> usize
        ensures { result ≡ length self.now.entries }
    {
        self.len
    }

    /// The i-th entry.
    pub fn entry(&self, i: usize) -> T
        requires { i < length self.now.entries }
        ensures { result ≡ slice_index_or self.now.entries i result }
    {
        let (p, j) = pages::locate(&self.pages, &self.groups.starts, self.len, i);
        pages::read(&self.pages, p, j)
    }

    /// The entries from place i on that stand side by side: one at least.
    pub fn stretch(&self, i: usize) -> &[T]
        requires { i < length self.now.entries }
        ensures is { result.now ≡ take (length result.now) (drop i self.now.entries) }
        ensures some { 0 < length result.now }
    {
        pages::stretch(&self.pages, &self.groups.starts, self.len, i)
    }

    /// The name of the page in which the i-th entry stands. It is a hint, and no part of the list.
    pub fn name_at(&self, i: usize) -> usize
        requires { i < length self.now.entries }
    {
        let (p, _) = pages::locate(&self.pages, &self.groups.starts, self.len, i);
        pages::name_of(&self.pages, p)
    }

    /// A page and the place of its first entry: the page of that name, where the hints that are kept of names lead to
    /// it.
    pub fn named(&self, name: usize) -> Option<(usize, &[T])>
        ensures is { IfSome result (λ r. r.1.now ≡ take (length r.1.now) (drop r.0 self.now.entries)) }
        ensures few { length self.now.entries < 2 ^ 48 }
    {
        pages::named(
            &self.pages,
            &self.groups.starts,
            &self.order,
            self.len,
            name,
        )
    }

    /// How many more it takes with no new memory.
    pub fn spare(&self) -> usize
        ensures { result ≡ self.now.spare }
    {
        let all = self.pages.all();
        let half_full = (all.saturating_sub(2) * HALF).saturating_sub(self.len);
        self.pages
            .free()
            .max(half_full)
            .min(MOST.saturating_sub(self.len))
    }

    pub fn reserve(&mut self, n: usize) -> Result<(), AllocError>
        ensures same { self.new.entries ≡ self.old.entries }
        ensures grows { self.old.spare ≤ self.new.spare }
        ensures enough { OnOk result (n ≤ self.new.spare) }
        ensures succeeds { n ≤ self.old.spare → IsOk result }
    {
        if n <= self.spare() {
            return Ok(());
        }
        if self.len > MOST || n > MOST - self.len {
            return Err(AllocError);
        }
        let half_full = (self.len + n) / HALF + 3;
        let count = half_full.min(self.pages.len() + n);
        self.groups.make_room(count / GROUP + 1)?;
        pages::name_room(&mut self.order, count)?;
        self.pages.stock(count)
    }

    /// Writes another over the i-th entry.
    pub fn set(&mut self, i: usize, x: T)
        requires { i < length self.old.entries }
        ensures set { self.new.entries ≡ slice_set self.old.entries i x }
        ensures spare { self.new.spare ≡ self.old.spare }
    {
        let (p, j) = pages::locate(&self.pages, &self.groups.starts, self.len, i);
        groups::set(&mut self.pages, &mut self.groups, p, j, x);
    }

    /// Puts one at place i.
    pub fn insert(&mut self, i: usize, x: T) -> Placed
        requires within { i ≤ length self.old.entries }
        requires spare { 1 ≤ self.old.spare }
        ensures put { self.new.entries ≡ insert self.old.entries i x }
        ensures spare { self.old.spare ≤ self.new.spare + 1 }
        ensures few { length self.new.entries < 2 ^ 48 }
    {
        let count = self.pages.len();
        let (p, j) = pages::locate_to_end(&self.pages, &self.groups.starts, self.len, i);
        pages::put(
            &mut self.pages,
            &mut self.groups,
            &mut self.order,
            (p, j),
            self.len,
            x,
        );
        self.len += 1;
        if p < count && count < self.pages.len() {
            let at = if j <= HALF { p } else { p + 1 };
            let lower = self.pages.len_of(p);
            let cut = if lower < HALF {
                None
            } else {
                Some((i - j).saturating_add(lower))
            };
            return Placed {
                page: pages::name_of(&self.pages, at),
                cut,
            };
        }
        Placed {
            page: pages::name_of(&self.pages, p),
            cut: None,
        }
    }

    /// Takes out the i-th entry.
    pub fn remove(&mut self, i: usize) -> T
        requires { i < length self.old.entries }
        ensures rest { self.new.entries ≡ remove self.old.entries i }
        ensures out { result ≡ slice_index_or self.old.entries i result }
        ensures spare { self.old.spare ≤ self.new.spare }
    {
        let (p, j) = pages::locate(&self.pages, &self.groups.starts, self.len, i);
        let out = pages::take(
            &mut self.pages,
            &mut self.groups,
            &mut self.order,
            p,
            j,
            self.len,
        );
        self.len -= 1;
        out
    }

    /// The place of the n-th, from a place on, that is picked, or how many are missing.
    pub fn nth<P: Pick<T, S>>(&self, from: usize, pick: &P, n: usize) -> Result<usize, usize>
        requires { from ≤ length self.now.entries }
        ensures found { IfOk result (λ place. IsNth (P.picked pick.now) self.now.entries from n place) }
        ensures short { IfErr result (λ left. IsShort (P.picked pick.now) self.now.entries from n left) }
    {
        if from == self.len {
            return Err(n);
        }
        search::nth(&self.pages, &self.groups, self.len, from, pick, n)
    }

    /// The place of the n-th of all that is picked, or how many are missing, where it is known how many are picked:
    /// looked for from the nearer end, or n itself where all are.
    pub fn nth_of_all<P: Pick<T, S>>(&self, pick: &P, all: usize, n: usize) -> Result<usize, usize>
        requires { all ≡ count_by (P.picked pick.now) self.now.entries }
        ensures found { IfOk result (λ place. IsNth (P.picked pick.now) self.now.entries 0 n place) }
        ensures short { IfErr result (λ left. IsShort (P.picked pick.now) self.now.entries 0 n left) }
    {
        if n < all / 2 && all != self.len {
            return self.nth(0, pick, n);
        }
        search::nth_from_end(&self.pages, &self.groups, self.len, pick, all, n)
    }

    /// The first that is not picked, where those that are picked stand first.
    pub fn seek<P: Pick<T, S>>(&self, pick: &P) -> Option<T>
        ensures found { IfSome result (λ x. (i : ℕ) × IsEdge (P.picked pick.now) self.now.entries i
            × (i < length self.now.entries) × (x ≡ slice_index_or self.now.entries i x)) }
        ensures none { IsNone result → IsEdge (P.picked pick.now) self.now.entries (length self.now.entries) }
    {
        let (p, j) = search::edge(&self.pages, pick);
        if p == self.pages.len() {
            return None;
        }
        Some(pages::read(&self.pages, p, j))
    }

    /// Writes another over the first that is not picked, where those that are picked stand first and a second search
    /// picks that; whether it did.
    pub fn overwrite<P: Pick<T, S>, Q: Pick<T, S>>(&mut self, pick: &P, only: &Q, x: T) -> bool
        ensures set { result ≡ true → (i : ℕ) × IsEdge (P.picked pick.now) self.old.entries i
            × (i < length self.old.entries) × (Q.picked only.now (slice_index_or self.old.entries i x) ≡ true)
            × (self.new.entries ≡ slice_set self.old.entries i x) }
        ensures none { result ≡ false
            → (i : ℕ) × IsEdge (P.picked pick.now) self.old.entries i
            × (i < length self.old.entries → Q.picked only.now (slice_index_or self.old.entries i x) ≡ false)
            × (self.new.entries ≡ self.old.entries) }
        ensures spare { self.new.spare ≡ self.old.spare }
    {
        let (p, j) = search::edge(&self.pages, pick);
        if p == self.pages.len() {
            return false;
        }
        if only.picks(pages::read(&self.pages, p, j)) {
            groups::set(&mut self.pages, &mut self.groups, p, j, x);
            return true;
        }
        false
    }

    /// Puts one before the first that is not picked, where those that are picked stand first.
    pub fn insert_in_order<P: Pick<T, S>>(&mut self, pick: &P, x: T)
        requires spare { 1 ≤ self.old.spare }
        ensures put { (i : ℕ) × IsEdge (P.picked pick.now) self.old.entries i
            × (self.new.entries ≡ insert self.old.entries i x) }
        ensures spare { self.old.spare ≤ self.new.spare + 1 }
    {
        let (p, j) = search::edge(&self.pages, pick);
        pages::put(
            &mut self.pages,
            &mut self.groups,
            &mut self.order,
            (p, j),
            self.len,
            x,
        );
        self.len += 1;
    }

    /// Takes out the first that is not picked, where there is one and those that are picked stand first.
    pub fn remove_in_order<P: Pick<T, S>>(&mut self, pick: &P) -> Option<T>
        ensures some { IfSome result (λ x. (i : ℕ) × IsEdge (P.picked pick.now) self.old.entries i
            × (i < length self.old.entries) × (x ≡ slice_index_or self.old.entries i x)
            × (self.new.entries ≡ remove self.old.entries i)) }
        ensures none { IsNone result → IsEdge (P.picked pick.now) self.old.entries (length self.old.entries)
            × (self.new.entries ≡ self.old.entries) }
        ensures spare { self.old.spare ≤ self.new.spare }
    {
        let (p, j) = search::edge(&self.pages, pick);
        if p == self.pages.len() {
            return None;
        }
        let out = pages::take(
            &mut self.pages,
            &mut self.groups,
            &mut self.order,
            p,
            j,
            self.len,
        );
        self.len -= 1;
        Some(out)
    }
}
