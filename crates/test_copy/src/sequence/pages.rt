//! Pages against a list in one piece.
use crate::sequence::numbers::{next, pick};
use list_pages::{FULL, Pages, Pick};
use std::alloc::{AllocError, Allocator, Global};
use std::test::Fail;

/// Those below a number.
#[derive(Clone, Copy)]
struct Under(u32);

impl Pick<u32, ()> for Under {
    ghost use Rattle.std.specs.Prelude.{nat_lt};

    ghost picked = { λ s x. nat_lt x s.0 };

    fn picks(&self, x: u32) -> bool {
        x < self.0
    }
}

/// Whether the list is this one, read by stretches and by entries, and no page holds more than 256.
fn is_list<A: Allocator + Copy>(pages: &Pages<u32, (), A>, list: &[u32]) -> bool {
    let mut at = 0usize;
    for _ in 0..list.len() {
        if at >= pages.len() || at >= list.len() {
            break;
        }
        let part = pages.stretch(at);
        if part.len() > FULL || pages.entry(at) != list[at] || !list[at..].starts_with(part) {
            return false;
        }
        at = at.saturating_add(part.len());
    }
    at == list.len() && pages.len() == list.len()
}

/// Writes a number at a place of both, where there is one.
fn write<A: Allocator + Copy>(pages: &mut Pages<u32, (), A>, list: &mut [u32], i: usize, x: u32) {
    if i < list.len() && i < pages.len() {
        list[i] = x;
        pages.set(i, x);
    }
}

/// Puts a number at a place of both, where there is one.
fn insert<A: Allocator + Copy, B: Allocator>(
    pages: &mut Pages<u32, (), A>,
    list: &mut Vec<u32, B>,
    i: usize,
    x: u32,
) -> Result<(), AllocError> {
    if pages.spare() == 0 {
        pages.reserve(1)?;
    }
    if i <= list.len() && i <= pages.len() {
        list.insert(i, x)?;
        pages.insert(i, x);
    }
    Ok(())
}

/// Puts a number at a place of both, or writes it there.
fn put<A: Allocator + Copy, B: Allocator>(
    pages: &mut Pages<u32, (), A>,
    list: &mut Vec<u32, B>,
    seed: u64,
) -> Result<(), AllocError> {
    let i = pick(seed, list.len().saturating_add(1));
    let x = (seed >> 32) as u32;
    if seed % 8 == 0 && i < list.len() && i < pages.len() {
        write(pages, list, i, x);
        return Ok(());
    }
    insert(pages, list, i, x)
}

/// Takes out what stands at a place of both; whether it was the same.
fn take<A: Allocator + Copy, B: Allocator>(
    pages: &mut Pages<u32, (), A>,
    list: &mut Vec<u32, B>,
    seed: u64,
) -> bool {
    let i = pick(seed, list.len());
    if i >= list.len() || i >= pages.len() {
        return false;
    }
    list.remove(i) == pages.remove(i)
}

#[test]
fn pages_are_the_list(rt: HostRuntime) -> Result<(), Fail> {
    let mut list = Vec::new(rt.alloc());
    let mut pages = Pages::new(rt.alloc());
    let mut seed = 1;
    for k in 0..8_000u32 {
        seed = next(seed);
        put(&mut pages, &mut list, seed)?;
        if k % 500 == 0 {
            assert!(rt; is_list(&pages, &list));
        }
    }
    assert!(rt; is_list(&Pages::from_slice(rt.alloc(), &list)?, &list));
    for k in 0..list.len() {
        seed = next(seed);
        assert!(rt; take(&mut pages, &mut list, seed));
        if k % 500 == 0 {
            assert!(rt; is_list(&pages, &list));
        }
    }
    assert_eq!(rt; pages.len(), 0);
    // 6,000 entries and more stood in 24 pages at least, and each of these but two has room for 128.
    assert!(rt; pages.spare() >= 2_816);
    Ok(())
}

/// Puts so many at the front, the last of them first.
fn put_at_the_front<A: Allocator + Copy>(
    pages: &mut Pages<u32, (), A>,
    many: u32,
) -> Result<(), AllocError> {
    for k in 0..many {
        pages.reserve(1)?;
        if pages.spare() > 0 {
            pages.insert(0, many - k);
        }
    }
    Ok(())
}

/// How many stand side by side from a place on.
fn stretch_len<A: Allocator + Copy>(pages: &Pages<u32, (), A>, i: usize) -> usize {
    if i < pages.len() {
        pages.stretch(i).len()
    } else {
        0
    }
}

/// Takes out the first, where there is one.
fn take_first<A: Allocator + Copy>(pages: &mut Pages<u32, (), A>) -> Option<u32> {
    if pages.len() == 0 {
        return None;
    }
    Some(pages.remove(0))
}

/// A list that grows at its front is kept in full pages, and shrinks there.
#[test]
fn front_pages_are_full(rt: HostRuntime) -> Result<(), Fail> {
    let mut pages = Pages::new(rt.alloc());
    put_at_the_front(&mut pages, 2_100)?;
    assert_eq!(rt; pages.len(), 2_100);
    // 52 stand in the first page, and behind it are eight full ones
    assert_eq!(rt; stretch_len(&pages, 0), 52);
    for page in 0..8usize {
        assert_eq!(rt; stretch_len(&pages, 52 + page * FULL), FULL);
    }
    for k in 0..2_100u32 {
        assert_eq!(rt; take_first(&mut pages), Some(k + 1));
    }
    assert_eq!(rt; take_first(&mut pages), None);
    Ok(())
}

/// Puts the even numbers below 6,000 in order.
fn fill_in_order<A: Allocator + Copy>(pages: &mut Pages<u32, (), A>) -> Result<(), AllocError> {
    pages.reserve(3_000)?;
    for k in 0..3_000u32 {
        let x = k * 7 % 3_000 * 2;
        if pages.spare() > 0 {
            pages.insert_in_order(&Under(x), x);
        }
    }
    Ok(())
}

/// Whether the even number with so many below it is found by its size and by its place.
fn is_found<A: Allocator + Copy>(pages: &Pages<u32, (), A>, k: u32) -> bool {
    let x = k.wrapping_mul(2);
    pages.seek(&Under(x)) == Some(x)
        && pages.nth(0, &Under(x), k as usize) == Err(0)
        && pages.nth(k as usize, &Under(6_000), 0) == Ok(k as usize)
}

/// Whether nothing is found above all, and the last number is written over where it is asked for.
fn is_last_overwritten<A: Allocator + Copy>(pages: &mut Pages<u32, (), A>) -> bool {
    pages.seek(&Under(6_000)) == None
        && pages.remove_in_order(&Under(6_000)) == None
        && !pages.overwrite(&Under(5_998), &Under(5_998), 5_999)
        && pages.overwrite(&Under(5_998), &Under(5_999), 5_999)
}

/// Whether the first number that is not below this one is taken out, and is so great.
fn is_taken<A: Allocator + Copy>(pages: &mut Pages<u32, (), A>, least: u32, x: u32) -> bool {
    pages.remove_in_order(&Under(least)) == Some(x)
}

/// Numbers put in order, found, written over and taken out by their size.
#[test]
fn pages_in_order(rt: HostRuntime) -> Result<(), Fail> {
    let mut pages = Pages::new(rt.alloc());
    fill_in_order(&mut pages)?;
    assert!(rt; pages.len() == 3_000);
    for k in 0..3_000u32 {
        assert!(rt; is_found(&pages, k));
    }
    assert!(rt; is_last_overwritten(&mut pages));
    for k in 0..2_999u32 {
        assert!(rt; is_taken(&mut pages, k, k * 2));
    }
    assert!(rt; is_taken(&mut pages, 0, 5_999));
    assert!(rt; pages.len() == 0);
    Ok(())
}

/// Whether a number is put under the number of the page that its place has, where there is room.
fn is_placed<A: Allocator + Copy>(pages: &mut Pages<u32, (), A>, x: u32) -> bool {
    let i = pages.len() / 3;
    if pages.spare() == 0 {
        return true;
    }
    let placed = pages.insert(i, x);
    placed.page == pages.name_at(i)
}

/// Whether the place stands in the page of its number.
fn is_in_page<A: Allocator + Copy>(pages: &Pages<u32, (), A>, i: usize) -> bool {
    if i >= pages.len() {
        return false;
    }
    match pages.named(pages.name_at(i)) {
        Some((start, part)) => start <= i && i < start.saturating_add(part.len()),
        None => false,
    }
}

/// What stands under a page's number is there, after every cut.
#[test]
fn pages_by_name(rt: HostRuntime) -> Result<(), Fail> {
    let mut pages: Pages<u32, (), Global> = Pages::new(rt.alloc());
    pages.reserve(4_000)?;
    for x in 0..4_000u32 {
        assert!(rt; is_placed(&mut pages, x));
    }
    for i in 0..pages.len() {
        assert!(rt; is_in_page(&pages, i));
    }
    assert!(rt; pages.named(usize::MAX).is_none());
    Ok(())
}
