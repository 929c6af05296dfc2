//! The n-th entry that is picked, found by passing pages by.
ghost use Rattle.std.specs.Prelude.{◌≡◌, ◌+◌, ◌-◌, ◌≤◌, ◌<◌, ◌^◌, ℕ, List, [], length, take, slice_index_or, IfSome};
ghost use Rattle.std.specs.Prelude.{IsSome, IfOk, IfErr, Bool, true};
ghost use Rattle.std.specs.List.{count_by};
ghost use Rattle.list_pages.specs.Pages.{joined, start_of, ends_in, IsSpotOrEnd, IsHalfFull, IsGroups, IsNth, IsShort};
ghost use Rattle.list_pages.specs.Pages.{IsEdge};

use crate::groups::Groups;
use crate::pages::locate;
use crate::probe::{NEAR, Probe};
use crate::starts::GROUP;
use list_shelf::{Shelf, Summary};
use std::alloc::Allocator;

/// Which entries a search is for.
pub trait Pick<T: Copy, S: Summary<T>> {
    ghost picked: { Self → T → Bool };

    fn picks(&self, x: T) -> bool
        ensures { result ≡ picked self.now x };

    /// How many of a page, where the page's summary and length say it.
    fn count(&self, _summary: S, _len: usize) -> Option<usize>
        ensures { IfSome result (λ n. (xs : List T) → S.sums_up _summary xs → length xs ≡ _len
            → count_by (picked self.now) xs ≡ n) }
    {
        None
    }

    /// Where in a page those that are picked may end, by the last entry before the page and the page's own last: a
    /// hint, by which a search begins there and not in the middle.
    fn guess(&self, _before: T, _last: T, _len: usize) -> Option<usize> {
        None
    }
}

/// The n-th from a place on in one page, entry by entry, or how many are missing.
fn nth_by_one<T: Copy, S: Summary<T>, P: Pick<T, S>>(
    items: &[T],
    from: usize,
    pick: &P,
    n: usize,
) -> Result<usize, usize>
    requires { from ≤ length items.now }
    ensures found { IfOk result (λ place. IsNth (P.picked pick.now) items.now from n place) }
    ensures short { IfErr result (λ left. IsShort (P.picked pick.now) items.now from n left) }
{
    let mut left = n;
    for j in from..items.len() {
        if pick.picks(items[j]) {
            if left == 0 {
                return Ok(j);
            }
            left -= 1;
        }
    }
    Err(left)
}

/// How many are picked from one place of a page up to another.
fn count_between<T: Copy, S: Summary<T>, P: Pick<T, S>>(
    items: &[T],
    from: usize,
    to: usize,
    pick: &P,
) -> usize
    requires order { from ≤ to }
    requires within { to ≤ length items.now }
    ensures { count_by (P.picked pick.now) (take from items.now) + result
        ≡ count_by (P.picked pick.now) (take to items.now) }
{
    let mut count: usize = 0;
    for j in from..to {
        count += pick.picks(items[j]) as usize;
    }
    count
}

/// So many entries are counted before one of them is looked at.
const STRIDE: usize = 16;

/// The n-th from a place on in one page, or how many are missing: strides that do not reach it are counted.
pub fn nth_in<T: Copy, S: Summary<T>, P: Pick<T, S>>(
    items: &[T],
    from: usize,
    pick: &P,
    n: usize,
) -> Result<usize, usize>
    requires { from ≤ length items.now }
    ensures found { IfOk result (λ place. IsNth (P.picked pick.now) items.now from n place) }
    ensures short { IfErr result (λ left. IsShort (P.picked pick.now) items.now from n left) }
{
    let mut left = n;
    let mut at = from;
    while left > 0 && items.len() - at >= STRIDE {
        let count = count_between(items, at, at + STRIDE, pick);
        if count > left {
            break;
        }
        left -= count;
        at += STRIDE;
    }
    nth_by_one(items, at, pick, left)
}

/// The n-th from the end of those that stand before a place of one page, counted from 1, entry by entry.
fn nth_back_by_one<T: Copy, S: Summary<T>, P: Pick<T, S>>(
    items: &[T],
    before: usize,
    pick: &P,
    n: usize,
) -> usize
    requires within { before ≤ length items.now }
    requires some { 1 ≤ n }
    requires enough { n ≤ count_by (P.picked pick.now) (take before items.now) }
    ensures within { result < length items.now }
    ensures picked { (d : T) → P.picked pick.now (slice_index_or items.now result d) ≡ true }
    ensures count { count_by (P.picked pick.now) (take result items.now) + n
        ≡ count_by (P.picked pick.now) (take before items.now) }
{
    let mut left = n;
    let mut at = before;
    while left > 0 {
        at -= 1;
        left -= pick.picks(items[at]) as usize;
    }
    at
}

/// The same of all of one page: strides that do not reach it are counted.
fn nth_back<T: Copy, S: Summary<T>, P: Pick<T, S>>(items: &[T], pick: &P, n: usize) -> usize
    requires some { 1 ≤ n }
    requires enough { n ≤ count_by (P.picked pick.now) items.now }
    ensures within { result < length items.now }
    ensures picked { (d : T) → P.picked pick.now (slice_index_or items.now result d) ≡ true }
    ensures count { count_by (P.picked pick.now) (take result items.now) + n ≡ count_by (P.picked pick.now) items.now }
{
    let mut left = n;
    let mut at = items.len();
    while at >= STRIDE {
        let count = count_between(items, at - STRIDE, at, pick);
        if count >= left {
            break;
        }
        left -= count;
        at -= STRIDE;
    }
    nth_back_by_one(items, at, pick, left)
}

/// The n-th of page p, or how many are missing: counted from the nearer end, where it is known how many there are.
fn nth_of<T: Copy, S: Summary<T>, A: Allocator, P: Pick<T, S>>(
    pages: &Shelf<T, S, A>,
    p: usize,
    pick: &P,
    n: usize,
) -> Result<usize, usize>
    requires { p < length pages.now.pages }
    ensures found { IfOk result (λ place. IsNth (P.picked pick.now) (slice_index_or pages.now.pages p []) 0 n place) }
    ensures short { IfErr result (λ left. IsShort (P.picked pick.now) (slice_index_or pages.now.pages p []) 0 n left) }
{
    let len = pages.len_of(p);
    if let Some(count) = pick.count(pages.summary(p), len) {
        if count <= n {
            return Err(n - count);
        }
        if count == len {
            return Ok(n);
        }
        if n >= count / 2 {
            return Ok(nth_back(pages.items(p), pick, count - n));
        }
    }
    nth_in(pages.items(p), 0, pick, n)
}

/// How many are missing behind a group that begins at a page, and where the next begins, where the group may be passed
/// by.
fn pass<T: Copy, S: Summary<T>, A: Allocator, P: Pick<T, S>>(
    pages: &Shelf<T, S, A>,
    groups: &Groups<S, A>,
    at: usize,
    pick: &P,
    n: usize,
) -> Option<(usize, usize)>
    requires { IsGroups S.sums_up pages.now.pages groups.now.starts.items groups.now.sums.items }
    ensures within { IsSome result → at + 32 ≤ length pages.now.pages }
    ensures less { IfSome result (λ r. r.0 ≤ n) }
    ensures start { IfSome result (λ r. r.1 ≡ start_of pages.now.pages (at + 32)) }
    ensures count { IfSome result (λ r. count_by (P.picked pick.now) (joined (take (at + 32) pages.now.pages)) + r.0
        ≡ count_by (P.picked pick.now) (joined (take at pages.now.pages)) + n) }
{
    let _ = pages;
    let g = at / GROUP;
    if at % GROUP != 0 || g >= groups.sums.len() || groups.starts.len() <= g + 1 {
        return None;
    }
    let next = groups.starts[g + 1];
    let Some(count) = pick.count(groups.sums[g], next.saturating_sub(groups.starts[g])) else {
        return None;
    };
    if count <= n {
        Some((n - count, next))
    } else {
        None
    }
}

/// The n-th from a page on, or how many are missing.
fn nth_from<T: Copy, S: Summary<T>, A: Allocator, P: Pick<T, S>>(
    pages: &Shelf<T, S, A>,
    groups: &Groups<S, A>,
    p: usize,
    start: usize,
    pick: &P,
    n: usize,
) -> Result<usize, usize>
    requires within { p ≤ length pages.now.pages }
    requires start { start ≡ start_of pages.now.pages p }
    requires groups { IsGroups S.sums_up pages.now.pages groups.now.starts.items groups.now.sums.items }
    requires fits { length (joined pages.now.pages) < 2 ^ 64 }
    ensures found { IfOk result (λ place. IsNth (P.picked pick.now) (joined pages.now.pages) start n place) }
    ensures short { IfErr result (λ left. IsShort (P.picked pick.now) (joined pages.now.pages) start n left) }
{
    let mut left = n;
    let mut start = start;
    let mut at = p;
    while at < pages.len() {
        if let Some((rest, next)) = pass(pages, groups, at, pick, left) {
            left = rest;
            start = next;
            at += GROUP;
            continue;
        }
        match nth_of(pages, at, pick, left) {
            Ok(j) => return Ok(start + j),
            Err(rest) => left = rest,
        }
        start += pages.len_of(at);
        at += 1;
    }
    Err(left)
}

/// The n-th from a place on, or how many are missing.
pub fn nth<T: Copy, S: Summary<T>, A: Allocator, P: Pick<T, S>>(
    pages: &Shelf<T, S, A>,
    groups: &Groups<S, A>,
    len: usize,
    from: usize,
    pick: &P,
    n: usize,
) -> Result<usize, usize>
    requires len { len ≡ length (joined pages.now.pages) }
    requires within { from < length (joined pages.now.pages) }
    requires groups { IsGroups S.sums_up pages.now.pages groups.now.starts.items groups.now.sums.items }
    requires fits { length (joined pages.now.pages) < 2 ^ 64 }
    ensures found { IfOk result (λ place. IsNth (P.picked pick.now) (joined pages.now.pages) from n place) }
    ensures short { IfErr result (λ left. IsShort (P.picked pick.now) (joined pages.now.pages) from n left) }
{
    let (p, j) = locate(pages, &groups.starts, len, from);
    if j == 0 {
        return nth_from(pages, groups, p, from, pick, n);
    }
    match nth_in(pages.items(p), j, pick, n) {
        Ok(k) => Ok(from - j + k),
        Err(left) => nth_from(pages, groups, p + 1, from - j + pages.len_of(p), pick, left),
    }
}

/// How many of page p are picked.
fn count_in<T: Copy, S: Summary<T>, A: Allocator, P: Pick<T, S>>(
    pages: &Shelf<T, S, A>,
    p: usize,
    pick: &P,
) -> usize
    requires { p < length pages.now.pages }
    ensures { result ≡ count_by (P.picked pick.now) (slice_index_or pages.now.pages p []) }
{
    let len = pages.len_of(p);
    match pick.count(pages.summary(p), len) {
        Some(count) => count,
        None => count_between(pages.items(p), 0, len, pick),
    }
}

/// How many are picked in the group that ends before a page, and where it begins, where its summary says it.
fn group_before<T: Copy, S: Summary<T>, A: Allocator, P: Pick<T, S>>(
    pages: &Shelf<T, S, A>,
    groups: &Groups<S, A>,
    at: usize,
    end: usize,
    pick: &P,
) -> Option<(usize, usize)>
    requires groups { IsGroups S.sums_up pages.now.pages groups.now.starts.items groups.now.sums.items }
    requires end { end ≡ start_of pages.now.pages at }
    ensures within { IsSome result → 32 ≤ at }
    ensures start { IfSome result (λ r. r.1 ≡ start_of pages.now.pages (at - 32)) }
    ensures count { IfSome result (λ r. count_by (P.picked pick.now) (joined (take at pages.now.pages))
        ≡ count_by (P.picked pick.now) (joined (take (at - 32) pages.now.pages)) + r.0) }
{
    let _ = pages;
    if at < GROUP || at % GROUP != 0 {
        return None;
    }
    let g = at / GROUP - 1;
    if g >= groups.sums.len() || g >= groups.starts.len() {
        return None;
    }
    let start = groups.starts[g];
    let Some(count) = pick.count(groups.sums[g], end - start) else {
        return None;
    };
    Some((count, start))
}

/// A page before which n are picked at most, where it begins, and how many are picked before it: the last such, or the
/// first of its group.
fn page_before<T: Copy, S: Summary<T>, A: Allocator, P: Pick<T, S>>(
    pages: &Shelf<T, S, A>,
    groups: &Groups<S, A>,
    len: usize,
    pick: &P,
    all: usize,
    n: usize,
) -> (usize, usize, usize)
    requires len { len ≡ length (joined pages.now.pages) }
    requires all { all ≡ count_by (P.picked pick.now) (joined pages.now.pages) }
    requires groups { IsGroups S.sums_up pages.now.pages groups.now.starts.items groups.now.sums.items }
    ensures within { result.0 ≤ length pages.now.pages }
    ensures start { result.1 ≡ start_of pages.now.pages result.0 }
    ensures count { result.2 ≡ count_by (P.picked pick.now) (joined (take result.0 pages.now.pages)) }
    ensures few { result.2 ≤ n }
{
    let mut at = pages.len();
    let mut start = len;
    let mut before = all;
    while before > n {
        if let Some((count, first)) = group_before(pages, groups, at, start, pick)
            && count / 2 < before - n
        {
            at -= GROUP;
            start = first;
            before -= count;
            continue;
        }
        at -= 1;
        start -= pages.len_of(at);
        before -= count_in(pages, at, pick);
    }
    (at, start, before)
}

/// The n-th of all, or how many are missing: looked for from the end, by how many are picked in all.
pub fn nth_from_end<T: Copy, S: Summary<T>, A: Allocator, P: Pick<T, S>>(
    pages: &Shelf<T, S, A>,
    groups: &Groups<S, A>,
    len: usize,
    pick: &P,
    all: usize,
    n: usize,
) -> Result<usize, usize>
    requires len { len ≡ length (joined pages.now.pages) }
    requires all { all ≡ count_by (P.picked pick.now) (joined pages.now.pages) }
    requires groups { IsGroups S.sums_up pages.now.pages groups.now.starts.items groups.now.sums.items }
    requires fits { length (joined pages.now.pages) < 2 ^ 64 }
    ensures found { IfOk result (λ place. IsNth (P.picked pick.now) (joined pages.now.pages) 0 n place) }
    ensures short { IfErr result (λ left. IsShort (P.picked pick.now) (joined pages.now.pages) 0 n left) }
{
    if all == len {
        return if n < len { Ok(n) } else { Err(n - len) };
    }
    let (p, start, before) = page_before(pages, groups, len, pick, all, n);
    nth_from(pages, groups, p, start, pick, n - before)
}

/// Where those that are picked end, in one page: looked for near a guess first, where there is one.
pub fn edge_in<T: Copy, S: Summary<T>, P: Pick<T, S>>(
    items: &[T],
    pick: &P,
    guess: Option<usize>,
) -> usize
    ensures { IsEdge (P.picked pick.now) items.now result }
{
    let mut probe = Probe::new(items.len(), guess);
    while probe.low < probe.high {
        let place = probe.place();
        if pick.picks(items[place]) {
            probe.rise(place);
        } else {
            probe.fall(place);
        }
    }
    probe.low
}

/// The first page whose last entry is not picked, as far as the one before it shows. What is newest stands last in most
/// lists, so the last page is looked at first; and then the first one, where what comes in falling order belongs.
fn edge_page<T: Copy, S: Summary<T>, A: Allocator, P: Pick<T, S>>(
    pages: &Shelf<T, S, A>,
    pick: &P,
) -> usize
    requires { IsHalfFull pages.now.pages }
    ensures { IsEdge (ends_in (P.picked pick.now)) pages.now.pages result }
{
    let count = pages.len();
    if count > 0 && pick.picks(pages.last(count - 1)) {
        return count;
    }
    if count > 0 && !pick.picks(pages.last(0)) {
        return 0;
    }
    edge_among(pages, pick, guess_among(pages, pick))
}

/// The page that is looked for: a hint, as if all entries were one page of the last of each. A few pages are
/// sooner halved than guessed at.
fn guess_among<T: Copy, S: Summary<T>, A: Allocator, P: Pick<T, S>>(
    pages: &Shelf<T, S, A>,
    pick: &P,
) -> Option<usize>
    requires { IsHalfFull pages.now.pages }
{
    let count = pages.len();
    if count < NEAR {
        return None;
    }
    match pick.guess(pages.last(0), pages.last(count - 1), count - 1) {
        Some(behind) => Some(behind.saturating_add(2)),
        None => None,
    }
}

/// The first page whose last entry is not picked, as far as the one before it shows: looked for near a guess first,
/// where there is one.
fn edge_among<T: Copy, S: Summary<T>, A: Allocator, P: Pick<T, S>>(
    pages: &Shelf<T, S, A>,
    pick: &P,
    guess: Option<usize>,
) -> usize
    requires { IsHalfFull pages.now.pages }
    ensures { IsEdge (ends_in (P.picked pick.now)) pages.now.pages result }
{
    let mut probe = Probe::new(pages.len(), guess);
    while probe.low < probe.high {
        let place = probe.place();
        if pick.picks(pages.last(place)) {
            probe.rise(place);
        } else {
            probe.fall(place);
        }
    }
    probe.low
}

/// Where those that are picked end.
pub fn edge<T: Copy, S: Summary<T>, A: Allocator, P: Pick<T, S>>(
    pages: &Shelf<T, S, A>,
    pick: &P,
) -> (usize, usize)
    requires { IsHalfFull pages.now.pages }
    ensures spot { IsSpotOrEnd pages.now.pages result.0 result.1 }
    ensures edge { IsEdge (P.picked pick.now) (joined pages.now.pages) (start_of pages.now.pages result.0 + result.1) }
{
    let p = edge_page(pages, pick);
    if p == pages.len() {
        return (p, 0);
    }
    let guess = guess_in(pages, p, pick);
    (p, edge_in(pages.items(p), pick, guess))
}

/// Where in a page those that are picked may end: a hint. In the first page that is its front.
fn guess_in<T: Copy, S: Summary<T>, A: Allocator, P: Pick<T, S>>(
    pages: &Shelf<T, S, A>,
    p: usize,
    pick: &P,
) -> Option<usize>
    requires half { IsHalfFull pages.now.pages }
    requires within { p < length pages.now.pages }
{
    if p == 0 {
        return Some(0);
    }
    pick.guess(pages.last(p - 1), pages.last(p), pages.len_of(p))
}
