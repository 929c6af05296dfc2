//! What is kept of each group of pages, so that a look-up by place and a search by summaries go over few pages.
ghost use Rattle.std.specs.Prelude.{◌≡◌, ◌≢◌, ◌+◌, ◌*◌, ◌≤◌, ◌<◌, ◌^◌, ℕ, List, [], length, take, drop, slice_index_or};
ghost use Rattle.std.specs.Prelude.{slice_set, vec_len, vec_capacity};
ghost use Rattle.std.specs.List.{insert, remove};
ghost use Rattle.list_pages.specs.Pages.{joined, start_of, HasMore, IsGap, IsHalfFull, IsSumReplaced, IsSums, IsGroups};

use crate::pages::read;
use crate::starts::{GROUP, find_starts, lower, raise};
use list_shelf::{Shelf, Summary};
use std::alloc::{AllocError, Allocator};

/// Where each group of pages begins, and a summary of each, as far as there is room to keep it.
pub struct Groups<S: Copy, A: Allocator> {
    pub starts: Vec<usize, A>,
    pub sums: Vec<S, A>,
}

// Written out: what drops one calls this, and does not take it apart once more.
impl<S: Copy, A: Allocator> Drop for Groups<S, A> {
    fn drop(self) {
        let Groups { starts, sums } = self;
        drop(starts);
        drop(sums);
    }
}

impl<S: Copy, A: Allocator> Groups<S, A> {
    /// Room for so many groups, and what is known of them as it was.
    pub fn make_room(&mut self, n: usize) -> Result<(), AllocError>
        ensures starts { self.new.starts.items ≡ self.old.starts.items }
        ensures sums { self.new.sums.items ≡ self.old.sums.items }
    {
        self.starts.reserve(n)?;
        self.sums.reserve(n)
    }
}

/// Finds where each group begins, and sums each whole one up, as far as there is room to keep it. What is known of the
/// first `kept` groups is still right.
pub fn find_groups<T: Copy, S: Summary<T>, A: Allocator>(
    pages: &Shelf<T, S, A>,
    groups: &mut Groups<S, A>,
    kept: usize,
)
    requires fits { length (joined pages.now.pages) < 2 ^ 48 }
    requires kept { IsGroups S.sums_up pages.now.pages (take kept groups.old.starts.items)
        (take kept groups.old.sums.items) }
    ensures { IsGroups S.sums_up pages.now.pages groups.new.starts.items groups.new.sums.items }
{
    find_starts(pages, &mut groups.starts, kept);
    find_sums(pages, &mut groups.sums, kept);
}

/// Sums up each whole group but the first `kept`, as far as there is room to keep it.
fn find_sums<T: Copy, S: Summary<T>, A: Allocator>(
    pages: &Shelf<T, S, A>,
    sums: &mut Vec<S, A>,
    kept: usize,
)
    requires fits { length (joined pages.now.pages) < 2 ^ 48 }
    requires kept { IsSums S.sums_up pages.now.pages (take kept sums.old.items) }
    ensures { IsSums S.sums_up pages.now.pages sums.new.items }
{
    sums.truncate(kept);
    while sums.len() < pages.len() / GROUP && sums.len() < sums.capacity() {
        let sum = sum_of(pages, sums.len());
        sums.push_reserved(sum);
    }
}

/// The summary of a whole group.
fn sum_of<T: Copy, S: Summary<T>, A: Allocator>(pages: &Shelf<T, S, A>, g: usize) -> S
    requires within { 32 * g + 32 ≤ length pages.now.pages }
    requires number { 32 * g < 2 ^ 64 }
    requires fits { length (joined pages.now.pages) < 2 ^ 48 }
    ensures { S.sums_up result (joined (take 32 (drop (32 * g) pages.now.pages))) }
{
    let first = GROUP * g;
    let mut sum = S::of(&[]);
    for k in 0..GROUP {
        sum = sum.join(pages.summary(first + k));
    }
    sum
}

/// Puts an entry where a page has room: each group behind it begins one later.
pub fn put_inside<T: Copy, S: Summary<T>, A: Allocator>(
    pages: &mut Shelf<T, S, A>,
    groups: &mut Groups<S, A>,
    q: usize,
    k: usize,
    x: T,
)
    requires gap { IsGap pages.old.pages (start_of pages.old.pages q + k) q k }
    requires half { IsHalfFull pages.old.pages }
    requires groups { IsGroups S.sums_up pages.old.pages groups.old.starts.items groups.old.sums.items }
    requires fits { length (joined pages.old.pages) < 2 ^ 48 }
    ensures put { joined pages.new.pages ≡ insert (joined pages.old.pages) (start_of pages.old.pages q + k) x }
    ensures half { IsHalfFull pages.new.pages }
    ensures groups { IsGroups S.sums_up pages.new.pages groups.new.starts.items groups.new.sums.items }
    ensures len { length pages.new.pages ≡ length pages.old.pages }
    ensures free { pages.new.free ≡ pages.old.free }
{
    pages.insert(q, k, x);
    raise(&mut groups.starts, q / GROUP + 1);
    sum_with(&mut groups.sums, q / GROUP, x);
}

/// One entry more in the summary of a group.
fn sum_with<T: Copy, S: Summary<T>, A: Allocator>(sums: &mut Vec<S, A>, g: usize, x: T)
    ensures len { length sums.new.items ≡ length sums.old.items }
    ensures others { (n : ℕ) (d : S) → n ≢ g → slice_index_or sums.new.items n d ≡ slice_index_or sums.old.items n d }
    ensures more { (xs : List T) (i : ℕ) (d : S) → g < length sums.old.items → length xs < 2 ^ 48 → i ≤ length xs
        → S.sums_up (slice_index_or sums.old.items g d) xs
        → S.sums_up (slice_index_or sums.new.items g d) (insert xs i x) }
{
    if g < sums.len() {
        sums[g] = sums[g].with(x);
    }
}

/// Writes another entry over the j-th of page p.
pub fn set<T: Copy, S: Summary<T>, A: Allocator>(
    pages: &mut Shelf<T, S, A>,
    groups: &mut Groups<S, A>,
    p: usize,
    j: usize,
    x: T,
)
    requires within { p < length pages.old.pages }
    requires inside { j < length (slice_index_or pages.old.pages p []) }
    requires half { IsHalfFull pages.old.pages }
    requires groups { IsGroups S.sums_up pages.old.pages groups.old.starts.items groups.old.sums.items }
    requires fits { length (joined pages.old.pages) < 2 ^ 48 }
    ensures set { joined pages.new.pages ≡ slice_set (joined pages.old.pages) (start_of pages.old.pages p + j) x }
    ensures groups { IsGroups S.sums_up pages.new.pages groups.new.starts.items groups.new.sums.items }
    ensures half { IsHalfFull pages.new.pages }
    ensures len { length pages.new.pages ≡ length pages.old.pages }
    ensures free { pages.new.free ≡ pages.old.free }
{
    let old = read(pages, p, j);
    pages.set(p, j, x);
    sum_replaced(&mut groups.sums, p / GROUP, old, x);
}

/// One entry written over another in the summary of a group.
fn sum_replaced<T: Copy, S: Summary<T>, A: Allocator>(
    sums: &mut Vec<S, A>,
    g: usize,
    old: T,
    new: T,
)
    ensures len { length sums.new.items ≡ length sums.old.items }
    ensures others { (n : ℕ) (d : S) → n ≢ g → slice_index_or sums.new.items n d ≡ slice_index_or sums.old.items n d }
    ensures replaced { IsSumReplaced S.sums_up sums.old.items sums.new.items g old new }
{
    if g < sums.len() {
        sums[g] = sums[g].replaced(old, new);
    }
}

/// Takes out an entry where its page stays long enough: each group behind it begins one earlier.
pub fn take_inside<T: Copy, S: Summary<T>, A: Allocator>(
    pages: &mut Shelf<T, S, A>,
    groups: &mut Groups<S, A>,
    p: usize,
    j: usize,
) -> T
    requires within { p < length pages.old.pages }
    requires inside { j < length (slice_index_or pages.old.pages p []) }
    requires more { HasMore pages.old.pages p }
    requires half { IsHalfFull pages.old.pages }
    requires groups { IsGroups S.sums_up pages.old.pages groups.old.starts.items groups.old.sums.items }
    requires fits { length (joined pages.old.pages) < 2 ^ 48 }
    ensures rest { joined pages.new.pages ≡ remove (joined pages.old.pages) (start_of pages.old.pages p + j) }
    ensures out { result ≡ slice_index_or (joined pages.old.pages) (start_of pages.old.pages p + j) result }
    ensures half { IsHalfFull pages.new.pages }
    ensures groups { IsGroups S.sums_up pages.new.pages groups.new.starts.items groups.new.sums.items }
    ensures len { length pages.new.pages ≡ length pages.old.pages }
    ensures free { pages.new.free ≡ pages.old.free }
{
    let out = pages.remove(p, j);
    lower(&mut groups.starts, p / GROUP + 1);
    sum_again(pages, &mut groups.sums, p / GROUP);
    out
}

/// Sums up a group again.
fn sum_again<T: Copy, S: Summary<T>, A: Allocator>(
    pages: &Shelf<T, S, A>,
    sums: &mut Vec<S, A>,
    g: usize,
)
    requires within { g < length sums.old.items → 32 * g + 32 ≤ length pages.now.pages }
    requires number { 32 * g < 2 ^ 64 }
    requires fits { length (joined pages.now.pages) < 2 ^ 48 }
    ensures len { length sums.new.items ≡ length sums.old.items }
    ensures others { (n : ℕ) (d : S) → n ≢ g → slice_index_or sums.new.items n d ≡ slice_index_or sums.old.items n d }
    ensures summed { (d : S) → g < length sums.old.items
        → S.sums_up (slice_index_or sums.new.items g d) (joined (take 32 (drop (32 * g) pages.now.pages))) }
{
    if g < sums.len() {
        sums[g] = sum_of(pages, g);
    }
}
