//! Where the groups of pages begin, so that a look-up by place goes over few pages.
ghost use Rattle.std.specs.Prelude.{◌≡◌, ◌+◌, ◌-◌, ◌≤◌, ◌<◌, ◌^◌, ℕ, length, take, slice_index_or};
ghost use Rattle.list_pages.specs.Pages.{joined, start_of, IsStarts};

use crate::probe::Probe;
use list_shelf::{Shelf, Summary};
use std::alloc::Allocator;

/// How many pages are in a group.
pub const GROUP: usize = 32;

/// The first page of the last group that is known to begin no later, and where it begins.
pub fn group_before<T: Copy, S: Summary<T>, A: Allocator>(
    pages: &Shelf<T, S, A>,
    starts: &[usize],
    i: usize,
) -> (usize, usize)
    requires { IsStarts pages.now.pages starts.now }
    ensures within { result.0 ≤ length pages.now.pages }
    ensures start { result.1 ≡ start_of pages.now.pages result.0 }
    ensures before { result.1 ≤ i }
{
    let g = begun(starts, i).saturating_sub(1);
    if g < starts.len() && starts[g] <= i && g <= pages.len() / GROUP {
        return (GROUP * g, starts[g]);
    }
    (0, 0)
}

/// How many of these begin no later: looked for near where it would be if they rose evenly.
fn begun(starts: &[usize], i: usize) -> usize {
    let mut probe = Probe::new(starts.len(), guess(starts, i));
    while probe.low < probe.high {
        let place = probe.place();
        if starts[place] <= i {
            probe.rise(place);
        } else {
            probe.fall(place);
        }
    }
    probe.low
}

/// Where it would be if they rose evenly: a hint.
fn guess(starts: &[usize], i: usize) -> Option<usize> {
    let count = starts.len();
    if count < 8 {
        return None;
    }
    let last = starts[count - 1];
    if last == 0 {
        return None;
    }
    Some((i.saturating_mul(count - 1) / last).saturating_add(1))
}

/// The first page of a page's group, and where it begins; the first of all pages where that is not known.
fn group_of<T: Copy, S: Summary<T>, A: Allocator>(
    pages: &Shelf<T, S, A>,
    starts: &[usize],
    p: usize,
) -> (usize, usize)
    requires { IsStarts pages.now.pages starts.now }
    ensures within { result.0 ≤ p }
    ensures start { result.1 ≡ start_of pages.now.pages result.0 }
{
    let g = p / GROUP;
    if g < starts.len() {
        return (GROUP * g, starts[g]);
    }
    (0, 0)
}

/// Where page p begins.
pub fn start_at<T: Copy, S: Summary<T>, A: Allocator>(
    pages: &Shelf<T, S, A>,
    starts: &[usize],
    p: usize,
) -> usize
    requires starts { IsStarts pages.now.pages starts.now }
    requires within { p ≤ length pages.now.pages }
    requires fits { length (joined pages.now.pages) < 2 ^ 64 }
    ensures { result ≡ start_of pages.now.pages p }
{
    let (first, before) = group_of(pages, starts, p);
    let mut start = before;
    for at in first..p {
        start += pages.len_of(at);
    }
    start
}

/// Keeps where page p begins, where it is the first of the next group and there is room.
fn keep_start<T: Copy, S: Summary<T>, A: Allocator>(
    pages: &Shelf<T, S, A>,
    starts: &mut Vec<usize, A>,
    p: usize,
    start: usize,
)
    requires starts { IsStarts pages.now.pages starts.old.items }
    requires within { p ≤ length pages.now.pages }
    requires start { start ≡ start_of pages.now.pages p }
    ensures { IsStarts pages.now.pages starts.new.items }
{
    let _ = pages;
    if p % GROUP == 0 && p / GROUP == starts.len() && starts.len() < starts.capacity() {
        starts.push_reserved(start);
    }
}

/// Finds where each group begins, as far as there is room to keep it. Of the groups as they were, the first `kept`
/// still begin where they did.
pub fn find_starts<T: Copy, S: Summary<T>, A: Allocator>(
    pages: &Shelf<T, S, A>,
    starts: &mut Vec<usize, A>,
    kept: usize,
)
    requires fits { length (joined pages.now.pages) < 2 ^ 64 }
    requires kept { IsStarts pages.now.pages (take kept starts.old.items) }
    ensures { IsStarts pages.now.pages starts.new.items }
{
    starts.truncate(kept);
    let (first, before) = group_before(pages, starts, usize::MAX);
    let mut start = before;
    for p in first..pages.len() {
        keep_start(pages, starts, p, start);
        start += pages.len_of(p);
    }
}

/// One more in each.
fn raise_all(starts: &mut [usize])
    requires { (n : ℕ) → n < length starts.old → slice_index_or starts.old n 0 < 2 ^ 48 }
    ensures len { length starts.new ≡ length starts.old }
    ensures raised { (n : ℕ) → n < length starts.old
        → slice_index_or starts.new n 0 ≡ slice_index_or starts.old n 0 + 1 }
{
    for start in starts.iter_mut() {
        *start += 1;
    }
}

/// One less in each.
fn lower_all(starts: &mut [usize])
    ensures len { length starts.new ≡ length starts.old }
    ensures lowered { (n : ℕ) → n < length starts.old
        → slice_index_or starts.new n 0 ≡ slice_index_or starts.old n 0 - 1 }
{
    for start in starts.iter_mut() {
        *start = start.saturating_sub(1);
    }
}

/// One more in each from the g-th on.
pub fn raise<A: Allocator>(starts: &mut Vec<usize, A>, g: usize)
    requires { (n : ℕ) → n < length starts.old.items → slice_index_or starts.old.items n 0 < 2 ^ 48 }
    ensures len { length starts.new.items ≡ length starts.old.items }
    ensures below { (n : ℕ) → n < g → slice_index_or starts.new.items n 0 ≡ slice_index_or starts.old.items n 0 }
    ensures raised { (n : ℕ) → g ≤ n → n < length starts.old.items
        → slice_index_or starts.new.items n 0 ≡ slice_index_or starts.old.items n 0 + 1 }
{
    let count = starts.len();
    if g < count {
        raise_all(starts.slice_mut(g..count));
    }
}

/// One less in each from the g-th on.
pub fn lower<A: Allocator>(starts: &mut Vec<usize, A>, g: usize)
    ensures len { length starts.new.items ≡ length starts.old.items }
    ensures below { (n : ℕ) → n < g → slice_index_or starts.new.items n 0 ≡ slice_index_or starts.old.items n 0 }
    ensures lowered { (n : ℕ) → g ≤ n → n < length starts.old.items
        → slice_index_or starts.new.items n 0 ≡ slice_index_or starts.old.items n 0 - 1 }
{
    let count = starts.len();
    if g < count {
        lower_all(starts.slice_mut(g..count));
    }
}
