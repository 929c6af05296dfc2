//! Places in pages, and pages that are cut, opened and joined.
ghost use Rattle.std.specs.Prelude.{◌≡◌, ◌+◌, ◌≤◌, ◌<◌, List, [], ◌∷◌, ◌++◌, take, drop, length, slice_index_or, OnOk};
ghost use Rattle.std.specs.Prelude.{IfOk, ◌-◌, ◌^◌, IfSome, IsNone, true};
ghost use Rattle.std.specs.List.{insert, remove};
ghost use Rattle.list_pages.specs.Pages.{joined, start_of, HasMore, IsShortAt, IsStarts, IsGroups, IsSpot, IsSpotOrEnd};
ghost use Rattle.list_pages.specs.Pages.{IsGap, IsHalfFull, IsClosed, IsKept, spare_of};
ghost use Rattle.list_shelf.specs.Shelf.{cut_at};

use crate::groups::{Groups, find_groups, put_inside, take_inside};
use crate::starts::{GROUP, group_before, start_at};
use list_shelf::{FULL, HALF, Shelf, Summary};
use std::alloc::{AllocError, Allocator};

/// The page of the i-th entry and its place there, where that is the last page; the number of pages at the end.
fn locate_last<T: Copy, S: Summary<T>, A: Allocator>(
    pages: &Shelf<T, S, A>,
    len: usize,
    i: usize,
) -> Option<(usize, usize)>
    requires len { len ≡ length (joined pages.now.pages) }
    requires within { i ≤ length (joined pages.now.pages) }
    ensures spot { IfSome result (λ s. IsSpotOrEnd pages.now.pages s.0 s.1) }
    ensures is { IfSome result (λ s. i ≡ start_of pages.now.pages s.0 + s.1) }
{
    let count = pages.len();
    if i == len {
        return Some((count, 0));
    }
    if count == 0 {
        return None;
    }
    let start = len - pages.len_of(count - 1);
    if i < start {
        None
    } else {
        Some((count - 1, i - start))
    }
}

/// The page of the i-th entry and its place there, looked for from a page backwards, which begins behind it.
fn locate_back<T: Copy, S: Summary<T>, A: Allocator>(
    pages: &Shelf<T, S, A>,
    behind: usize,
    end: usize,
    i: usize,
) -> (usize, usize)
    requires within { behind ≤ length pages.now.pages }
    requires end { end ≡ start_of pages.now.pages behind }
    requires before { i < end }
    ensures spot { IsSpotOrEnd pages.now.pages result.0 result.1 }
    ensures is { i ≡ start_of pages.now.pages result.0 + result.1 }
{
    let mut p = behind - 1;
    let mut start = end - pages.len_of(p);
    while i < start {
        p -= 1;
        start -= pages.len_of(p);
    }
    (p, i - start)
}

/// The page of the i-th entry and its place there, looked for from a page onwards, which begins no later.
fn locate_on<T: Copy, S: Summary<T>, A: Allocator>(
    pages: &Shelf<T, S, A>,
    first: usize,
    start: usize,
    i: usize,
) -> (usize, usize)
    requires within { first ≤ length pages.now.pages }
    requires start { start ≡ start_of pages.now.pages first }
    requires behind { start ≤ i }
    requires before { i ≤ length (joined pages.now.pages) }
    ensures spot { IsSpotOrEnd pages.now.pages result.0 result.1 }
    ensures is { i ≡ start_of pages.now.pages result.0 + result.1 }
{
    let count = pages.len();
    let mut left = i - start;
    let mut p = first;
    while p < count && left >= pages.len_of(p) {
        left -= pages.len_of(p);
        p += 1;
    }
    (p, left)
}

/// The page of the i-th entry, and its place there; the number of pages at the end. The last page is looked at first,
/// and then its group, from the nearer end.
pub fn locate_to_end<T: Copy, S: Summary<T>, A: Allocator>(
    pages: &Shelf<T, S, A>,
    starts: &[usize],
    len: usize,
    i: usize,
) -> (usize, usize)
    requires len { len ≡ length (joined pages.now.pages) }
    requires within { i ≤ length (joined pages.now.pages) }
    requires starts { IsStarts pages.now.pages starts.now }
    ensures spot { IsSpotOrEnd pages.now.pages result.0 result.1 }
    ensures is { i ≡ start_of pages.now.pages result.0 + result.1 }
    ensures count { length pages.now.pages < 2 ^ 64 }
{
    let count = pages.len();
    if let Some(spot) = locate_last(pages, len, i) {
        return spot;
    }
    let (first, start) = group_before(pages, starts, i);
    let next = first / GROUP + 1;
    if count - first >= GROUP && next < starts.len() {
        let end = starts[next];
        if i < end && i - start > end - i {
            return locate_back(pages, GROUP * next, end, i);
        }
    }
    locate_on(pages, first, start, i)
}

/// The page of the i-th entry, and its place there.
pub fn locate<T: Copy, S: Summary<T>, A: Allocator>(
    pages: &Shelf<T, S, A>,
    starts: &[usize],
    len: usize,
    i: usize,
) -> (usize, usize)
    requires len { len ≡ length (joined pages.now.pages) }
    requires within { i < length (joined pages.now.pages) }
    requires starts { IsStarts pages.now.pages starts.now }
    ensures spot { IsSpot pages.now.pages i result.0 result.1 }
    ensures count { length pages.now.pages < 2 ^ 64 }
{
    locate_to_end(pages, starts, len, i)
}

/// The j-th entry of page p.
pub fn read<T: Copy, S: Summary<T>, A: Allocator>(pages: &Shelf<T, S, A>, p: usize, j: usize) -> T
    requires within { p < length pages.now.pages }
    requires inside { j < length (slice_index_or pages.now.pages p []) }
    ensures { result ≡ slice_index_or (joined pages.now.pages) (start_of pages.now.pages p + j) result }
{
    pages.items(p)[j]
}

/// The j-th place of page p, in a page with room for one more.
fn gap<T: Copy, S: Summary<T>, A: Allocator>(
    pages: &mut Shelf<T, S, A>,
    p: usize,
    j: usize,
) -> (usize, usize)
    requires within { p < length pages.old.pages }
    requires inside { j < length (slice_index_or pages.old.pages p []) }
    requires half { IsHalfFull pages.old.pages }
    requires some { 0 < pages.old.free }
    ensures gap { IsGap pages.new.pages (start_of pages.old.pages p + j) result.0 result.1 }
    ensures same { joined pages.new.pages ≡ joined pages.old.pages }
    ensures half { IsHalfFull pages.new.pages }
    ensures count { length pages.new.pages + pages.new.free ≡ length pages.old.pages + pages.old.free }
    ensures fewer { pages.old.free ≤ pages.new.free + 1 }
    ensures before { take p pages.new.pages ≡ take p pages.old.pages }
    ensures behind { p ≤ result.0 }
{
    if pages.len_of(p) < FULL {
        return (p, j);
    }
    let next = pages.cut(p);
    if j <= HALF { (p, j) } else { (next, j - HALF) }
}

/// The place behind the last entry, where its page is not full.
fn end<T: Copy, S: Summary<T>, A: Allocator>(pages: &Shelf<T, S, A>) -> Option<(usize, usize)>
    ensures gap { IfSome result (λ s. IsGap pages.now.pages (length (joined pages.now.pages)) s.0 s.1) }
    ensures closed { IsNone result → IsClosed pages.now.pages }
    ensures last { IfSome result (λ s. s.0 + 1 ≡ length pages.now.pages) }
{
    let count = pages.len();
    if count == 0 {
        return None;
    }
    let len = pages.len_of(count - 1);
    if len == FULL {
        None
    } else {
        Some((count - 1, len))
    }
}

/// One more page, with one entry, behind all, where there is none or the last is full.
fn open<T: Copy, S: Summary<T>, A: Allocator>(pages: &mut Shelf<T, S, A>, x: T)
    requires half { IsHalfFull pages.old.pages }
    requires closed { IsClosed pages.old.pages }
    requires some { 0 < pages.old.free }
    ensures put { joined pages.new.pages ≡ joined pages.old.pages ++ x ∷ [] }
    ensures half { IsHalfFull pages.new.pages }
    ensures count { length pages.new.pages + pages.new.free ≡ length pages.old.pages + pages.old.free }
    ensures fewer { pages.old.free ≤ pages.new.free + 1 }
    ensures before { take (length pages.old.pages) pages.new.pages ≡ pages.old.pages }
{
    pages.open(pages.len(), x);
}

/// One more page, with one entry, before a full one.
fn open_first<T: Copy, S: Summary<T>, A: Allocator>(pages: &mut Shelf<T, S, A>, x: T)
    requires half { IsHalfFull pages.old.pages }
    requires full { 128 ≤ length (slice_index_or pages.old.pages 0 []) }
    requires some { 0 < pages.old.free }
    ensures put { joined pages.new.pages ≡ x ∷ joined pages.old.pages }
    ensures half { IsHalfFull pages.new.pages }
    ensures count { length pages.new.pages + pages.new.free ≡ length pages.old.pages + pages.old.free }
    ensures fewer { pages.old.free ≤ pages.new.free + 1 }
{
    pages.open(0, x);
}

/// Puts an entry at the j-th place of page p, or behind all pages, and cuts a page or takes a free one where there is
/// no room. What comes before all opens a page, so that a list that grows there is kept in full pages.
fn put_anywhere<T: Copy, S: Summary<T>, A: Allocator>(
    pages: &mut Shelf<T, S, A>,
    p: usize,
    j: usize,
    len: usize,
    x: T,
)
    requires kept { IsKept pages.old.pages len (length pages.old.pages + pages.old.free) }
    requires spot { IsSpotOrEnd pages.old.pages p j }
    requires spare { 1 ≤ spare_of pages.old.free (length pages.old.pages + pages.old.free) len }
    ensures kept { IsKept pages.new.pages (len + 1) (length pages.new.pages + pages.new.free) }
    ensures put { joined pages.new.pages ≡ insert (joined pages.old.pages) (start_of pages.old.pages p + j) x }
    ensures count { length pages.new.pages + pages.new.free ≡ length pages.old.pages + pages.old.free }
    ensures fewer { pages.old.free ≤ pages.new.free + 1 }
    ensures before { take (p - 1) pages.new.pages ≡ take (p - 1) pages.old.pages }
{
    if p < pages.len() {
        if p == 0 && j == 0 && pages.len_of(0) == FULL {
            open_first(pages, x);
            return;
        }
        let (q, k) = gap(pages, p, j);
        pages.insert(q, k, x);
        return;
    }
    match end(pages) {
        Some((q, k)) => pages.insert(q, k, x),
        None => open(pages, x),
    }
}

/// The page and the place in it that are this place and have room: its own, or right behind the last entry.
fn room_at<T: Copy, S: Summary<T>, A: Allocator>(
    pages: &Shelf<T, S, A>,
    p: usize,
    j: usize,
) -> Option<(usize, usize)>
    requires { IsSpotOrEnd pages.now.pages p j }
    ensures { IfSome result (λ s. IsGap pages.now.pages (start_of pages.now.pages p + j) s.0 s.1) }
{
    if p >= pages.len() {
        return end(pages);
    }
    if pages.len_of(p) < FULL {
        Some((p, j))
    } else {
        None
    }
}

/// Puts an entry at a page and a place in it, or behind all pages.
pub fn put<T: Copy, S: Summary<T>, A: Allocator>(
    pages: &mut Shelf<T, S, A>,
    groups: &mut Groups<S, A>,
    order: &mut Vec<usize, A>,
    at: (usize, usize),
    len: usize,
    x: T,
)
    requires kept { IsKept pages.old.pages len (length pages.old.pages + pages.old.free) }
    requires groups { IsGroups S.sums_up pages.old.pages groups.old.starts.items groups.old.sums.items }
    requires spot { IsSpotOrEnd pages.old.pages at.0 at.1 }
    requires spare { 1 ≤ spare_of pages.old.free (length pages.old.pages + pages.old.free) len }
    ensures kept { IsKept pages.new.pages (len + 1) (length pages.new.pages + pages.new.free) }
    ensures groups { IsGroups S.sums_up pages.new.pages groups.new.starts.items groups.new.sums.items }
    ensures put { joined pages.new.pages ≡ insert (joined pages.old.pages) (start_of pages.old.pages at.0 + at.1) x }
    ensures count { length pages.new.pages + pages.new.free ≡ length pages.old.pages + pages.old.free }
    ensures fewer { pages.old.free ≤ pages.new.free + 1 }
{
    match room_at(pages, at.0, at.1) {
        Some((q, k)) => put_inside(pages, groups, q, k, x),
        None => {
            put_anywhere(pages, at.0, at.1, len, x);
            find_groups(pages, groups, at.0.saturating_sub(1) / GROUP);
            find_order(pages, order, at.0);
        }
    }
}

/// The entries from place i to the end of its page.
pub fn stretch<'a, T: Copy, S: Summary<T>, A: Allocator>(
    pages: &'a Shelf<T, S, A>,
    starts: &[usize],
    len: usize,
    i: usize,
) -> &'a [T]
    requires len { len ≡ length (joined pages.now.pages) }
    requires within { i < length (joined pages.now.pages) }
    requires starts { IsStarts pages.now.pages starts.now }
    ensures is { result.now ≡ take (length result.now) (drop i (joined pages.now.pages)) }
    ensures some { 0 < length result.now }
{
    let (p, j) = locate(pages, starts, len, i);
    let (_, tail) = pages.items(p).split_at(j);
    tail
}

/// The entries in pages, all but the last of them full.
pub fn fill<T: Copy, S: Summary<T>, A: Allocator + Copy>(
    alloc: A,
    items: &[T],
) -> Result<Shelf<T, S, A>, AllocError>
    requires { length items.now ≤ 2 ^ 47 }
    ensures filled { IfOk result (λ s. (joined s.pages ≡ items.now) × IsHalfFull s.pages) }
    ensures few { IfOk result (λ s. length s.pages + s.free ≤ 2 ^ 41) }
{
    let mut pages = Shelf::new(alloc);
    pages.stock(items.len() / FULL + 1)?;
    let mut rest = items;
    while rest.len() > 0 {
        let (part, tail) = rest.split_at(rest.len().min(FULL));
        pages.stock(pages.len() + 1)?;
        pages.push(part);
        rest = tail;
    }
    Ok(pages)
}

/// Fills a page that has become short from the next, or joins the two; frees the last where it is empty.
fn level<T: Copy, S: Summary<T>, A: Allocator>(pages: &mut Shelf<T, S, A>, p: usize)
    requires within { p < length pages.old.pages }
    requires short { IsShortAt pages.old.pages p }
    ensures same { joined pages.new.pages ≡ joined pages.old.pages }
    ensures half { IsHalfFull pages.new.pages }
    ensures count { length pages.new.pages + pages.new.free ≡ length pages.old.pages + pages.old.free }
    ensures freed { pages.old.free ≤ pages.new.free }
    ensures before { take p pages.new.pages ≡ take p pages.old.pages }
{
    let count = pages.len();
    let len = pages.len_of(p);
    let next = p + 1;
    if next == count {
        if len == 0 {
            pages.close(p);
        }
        return;
    }
    if len >= HALF {
        return;
    }
    let more = pages.len_of(next);
    if len + more <= FULL {
        pages.join(p, next);
    } else {
        pages.share(p, next, (more - HALF) / 2);
    }
}

/// Whether a page may lose an entry and stay long enough.
fn has_more<T: Copy, S: Summary<T>, A: Allocator>(pages: &Shelf<T, S, A>, p: usize) -> bool
    requires { p < length pages.now.pages }
    ensures { result ≡ true → HasMore pages.now.pages p }
{
    let count = pages.len();
    let len = pages.len_of(p);
    if p == 0 {
        return len > 1;
    }
    let least = if p + 1 == count { 1 } else { HALF };
    len > least
}

/// Takes out the j-th entry of page p.
pub fn take<T: Copy, S: Summary<T>, A: Allocator>(
    pages: &mut Shelf<T, S, A>,
    groups: &mut Groups<S, A>,
    order: &mut Vec<usize, A>,
    p: usize,
    j: usize,
    len: usize,
) -> T
    requires kept { IsKept pages.old.pages len (length pages.old.pages + pages.old.free) }
    requires groups { IsGroups S.sums_up pages.old.pages groups.old.starts.items groups.old.sums.items }
    requires within { p < length pages.old.pages }
    requires inside { j < length (slice_index_or pages.old.pages p []) }
    ensures kept { IsKept pages.new.pages (len - 1) (length pages.new.pages + pages.new.free) }
    ensures groups { IsGroups S.sums_up pages.new.pages groups.new.starts.items groups.new.sums.items }
    ensures rest { joined pages.new.pages ≡ remove (joined pages.old.pages) (start_of pages.old.pages p + j) }
    ensures out { result ≡ slice_index_or (joined pages.old.pages) (start_of pages.old.pages p + j) result }
    ensures count { length pages.new.pages + pages.new.free ≡ length pages.old.pages + pages.old.free }
    ensures freed { pages.old.free ≤ pages.new.free }
{
    if has_more(pages, p) {
        return take_inside(pages, groups, p, j);
    }
    let out = take_short(pages, p, j, len);
    find_groups(pages, groups, p / GROUP);
    find_order(pages, order, p);
    out
}

/// Takes out the j-th entry of page p, and fills the page from the next.
fn take_short<T: Copy, S: Summary<T>, A: Allocator>(
    pages: &mut Shelf<T, S, A>,
    p: usize,
    j: usize,
    len: usize,
) -> T
    requires kept { IsKept pages.old.pages len (length pages.old.pages + pages.old.free) }
    requires within { p < length pages.old.pages }
    requires inside { j < length (slice_index_or pages.old.pages p []) }
    ensures kept { IsKept pages.new.pages (len - 1) (length pages.new.pages + pages.new.free) }
    ensures rest { joined pages.new.pages ≡ remove (joined pages.old.pages) (start_of pages.old.pages p + j) }
    ensures out { result ≡ slice_index_or (joined pages.old.pages) (start_of pages.old.pages p + j) result }
    ensures count { length pages.new.pages + pages.new.free ≡ length pages.old.pages + pages.old.free }
    ensures freed { pages.old.free ≤ pages.new.free }
    ensures before { take p pages.new.pages ≡ take p pages.old.pages }
{
    let out = pages.remove(p, j);
    level(pages, p);
    out
}

/// The page of that name, and where it starts, as far as `order` says where it stands.
pub fn named<'a, T: Copy, S: Summary<T>, A: Allocator>(
    pages: &'a Shelf<T, S, A>,
    starts: &[usize],
    order: &[usize],
    len: usize,
    name: usize,
) -> Option<(usize, &'a [T])>
    requires half { IsHalfFull pages.now.pages }
    requires starts { IsStarts pages.now.pages starts.now }
    requires len { len ≡ length (joined pages.now.pages) }
    ensures { IfSome result (λ r. r.1.now ≡ take (length r.1.now) (drop r.0 (joined pages.now.pages))) }
{
    if name >= order.len() {
        return None;
    }
    let p = order[name];
    if p >= pages.len() {
        return None;
    }
    Some((start_at(pages, starts, p), pages.items(p)))
}

/// Room to keep where so many pages stand.
pub fn name_room<A: Allocator>(order: &mut Vec<usize, A>, count: usize) -> Result<(), AllocError> {
    if order.len() < count {
        order.resize(count, 0)?;
    }
    Ok(())
}

/// Where each page from `first` on stands, by its name, as far as there is room to keep it.
pub fn find_order<T: Copy, S: Summary<T>, A: Allocator>(
    pages: &Shelf<T, S, A>,
    order: &mut Vec<usize, A>,
    first: usize,
) {
    for p in first..pages.len() {
        let name = pages.name(p);
        if name < order.len() {
            order[name] = p;
        }
    }
}

/// The name of page p, or of the last, where there is one.
pub fn name_of<T: Copy, S: Summary<T>, A: Allocator>(pages: &Shelf<T, S, A>, p: usize) -> usize {
    let last = p.min(pages.len().saturating_sub(1));
    if last < pages.len() {
        pages.name(last)
    } else {
        0
    }
}
