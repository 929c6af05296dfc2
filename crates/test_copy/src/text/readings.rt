//! Readings that are open after a merge, worked out by hand from operations.

ghost use Rattle.std.specs.Prelude.{◌≡◌, IfOk};
ghost use Rattle.desk_ops.specs.OpSet.{union};

use desk_memory::NoMemory;
use desk_ops::{Stamp, Style, Symbol};
use desk_replica::Replica;
use desk_seq::Flat;
use feed_readings::{
    Point, Reading, Shown, before_of, open_readings, readings_of, report_after, report_readings,
};
use linked_list_allocator::LocalHeap;
use std::alloc::{Allocator, Global};
use std::test::Fail;

pub type Room = Replica<Flat<Global>>;

/// Types Roman symbols at a place, one behind the other.
pub fn type_at(room: &mut Room, place: usize, text: &str) -> Result<(), Fail> {
    let mut at = place;
    for ch in text.chars() {
        let symbol = Symbol {
            style: Style::Roman,
            ch,
        };
        if room.insert_at(at, symbol).is_err() {
            return Err(Fail::new("a symbol was refused"));
        }
        at = at.saturating_add(1);
    }
    Ok(())
}

/// Deletes some symbols from a place on.
pub fn delete_at(room: &mut Room, place: usize, count: usize) -> Result<(), Fail> {
    for _ in 0..count {
        if room.delete_at(place).is_err() {
            return Err(Fail::new("a delete was refused"));
        }
    }
    Ok(())
}

/// A room of a site that has typed a text.
pub fn room_of(alloc: Global, text: &str) -> Result<Room, Fail> {
    let mut room = Replica::new(alloc, 1);
    type_at(&mut room, 0, text)?;
    Ok(room)
}

/// Another site's room with the operations of one.
pub fn other_room(alloc: Global, room: &Room, site: u16) -> Result<Room, Fail> {
    if site == 0 {
        return Err(Fail::new("no site has the number 0"));
    }
    let mut other = Replica::new(alloc, site);
    other.merge(room)?;
    Ok(other)
}

/// What two rooms make together.
pub fn both_of(alloc: Global, one: &Room, other: &Room) -> Result<Room, Fail>
    ensures { IfOk result (λ both. both.ops ≡ union one.now.ops other.now.ops) }
{
    let mut both = Replica::new(alloc, 9);
    both.merge(one)?;
    both.merge(other)?;
    Ok(both)
}

/// Whether the copy of a room is a text of Roman symbols.
fn reads(room: &Room, text: &str) -> Result<bool, Fail> {
    let copy = room.copy()?;
    let mut place = 0usize;
    for ch in text.chars() {
        let symbol = Symbol {
            style: Style::Roman,
            ch,
        };
        if copy.get(place).copied() != Some(symbol) {
            return Ok(false);
        }
        place = place.saturating_add(1);
    }
    Ok(place == copy.len())
}

/// A point by its places in what both have in common, in the one, in the other and in what both make.
fn point(base: usize, one: usize, other: usize, both: usize) -> Point {
    Point {
        base,
        one,
        other,
        both,
    }
}

/// The readings of two rooms, whose copy together is a text.
fn readings(
    alloc: Global,
    one: &Room,
    other: &Room,
    merged: &str,
) -> Result<Vec<Reading, Global>, Fail> {
    let both = both_of(alloc, one, other)?;
    if !reads(&both, merged)? {
        return Err(Fail::new("the merged copy is another"));
    }
    let readings = readings_of(alloc, one, other, &both)?;
    Ok(readings)
}

/// What is reported where the operations of another room are joined to what a room holds.
fn joined(alloc: Global, one: &Room, other: &Room) -> Result<(Vec<u8, Global>, usize), Fail> {
    let mut both: Room = Replica::new(alloc, 9);
    both.merge(one)?;
    let ops = other.in_order()?;
    let before = before_of(alloc, &both, &ops)?;
    both.take_all(&ops)?;
    let told = report_after(alloc, before, ops, &both)?;
    Ok(told)
}

/// Whether this is reported of two rooms, with so many readings, and also where the operations of the other are joined.
fn is_reported(
    alloc: Global,
    one: &Room,
    other: &Room,
    text: &str,
    count: usize,
) -> Result<bool, Fail> {
    let both = both_of(alloc, one, other)?;
    let (lines, readings) = report_readings(alloc, one, other, &both)?;
    let (after, open) = joined(alloc, one, other)?;
    let is_told = lines.as_slice() == text.as_bytes() && readings == count;
    Ok(is_told && after.as_slice() == text.as_bytes() && open == count)
}

/// Whether one reading is open, from one point to another.
fn is_open(readings: &[Reading], from: Point, to: Point) -> bool {
    match readings {
        [reading] => *reading == Reading { from, to },
        _ => false,
    }
}

/// `agian` made `again` by a room: the first `i` goes, and one comes behind the `a`.
pub fn mend_again(room: &mut Room, place: usize) -> Result<(), Fail> {
    delete_at(room, place.saturating_add(2), 1)?;
    type_at(room, place.saturating_add(3), "i")
}

#[test]
fn typo_mended_twice(rt: HostRuntime) -> Result<(), Fail> {
    let mut one = room_of(rt.alloc(), "so agian. Yes")?;
    let mut other = other_room(rt.alloc(), &one, 2)?;
    mend_again(&mut one, 3)?;
    mend_again(&mut other, 3)?;
    assert!(rt; reads(&one, "so again. Yes")? && reads(&other, "so again. Yes")?);
    let open = readings(rt.alloc(), &one, &other, "so agaiin. Yes")?;
    assert!(rt; is_open(&open, point(3, 3, 3, 3), point(9, 9, 9, 10)));
    let text = "open at 3\n  now   agaiin.\n  here  again.\n  there again.\n  was   agian.\n";
    assert!(rt; is_reported(rt.alloc(), &one, &other, text, 1)?);
    Ok(())
}

/// `Teh` made `The` by a room, at the beginning: the `e` goes, and one comes behind the `h`.
fn mend_the(room: &mut Room) -> Result<(), Fail> {
    delete_at(room, 1, 1)?;
    type_at(room, 2, "e")
}

#[test]
fn first_word_mended_twice(rt: HostRuntime) -> Result<(), Fail> {
    let mut one = room_of(rt.alloc(), "Teh end")?;
    let mut other = other_room(rt.alloc(), &one, 2)?;
    mend_the(&mut one)?;
    mend_the(&mut other)?;
    let open = readings(rt.alloc(), &one, &other, "Thee end")?;
    assert!(rt; is_open(&open, point(0, 0, 0, 0), point(3, 3, 3, 4)));
    Ok(())
}

#[test]
fn last_word_made_two_others(rt: HostRuntime) -> Result<(), Fail> {
    let mut one = room_of(rt.alloc(), "on Friday")?;
    let mut other = other_room(rt.alloc(), &one, 2)?;
    delete_at(&mut one, 3, 3)?;
    type_at(&mut one, 3, "Mon")?;
    delete_at(&mut other, 3, 3)?;
    type_at(&mut other, 3, "Tues")?;
    let open = readings(rt.alloc(), &one, &other, "on TuesMonday")?;
    assert!(rt; is_open(&open, point(3, 3, 3, 3), point(9, 9, 10, 13)));
    let open = readings(rt.alloc(), &other, &one, "on TuesMonday")?;
    assert!(rt; is_open(&open, point(3, 3, 3, 3), point(9, 10, 9, 13)));
    Ok(())
}

/// `reach us` made `come to us` by a room: the `c` and ` us` stay.
fn come(room: &mut Room) -> Result<(), Fail> {
    delete_at(room, 0, 3)?;
    type_at(room, 1, "ome")?;
    delete_at(room, 4, 1)?;
    type_at(room, 5, "to ")
}

#[test]
fn two_words_that_are_neighbours(rt: HostRuntime) -> Result<(), Fail> {
    let mut one = room_of(rt.alloc(), "reach us")?;
    let mut other = other_room(rt.alloc(), &one, 2)?;
    come(&mut one)?;
    come(&mut other)?;
    assert!(rt; reads(&one, "come to us")?);
    let open = readings(rt.alloc(), &one, &other, "comeome to to us")?;
    assert!(rt; is_open(&open, point(0, 0, 0, 0), point(8, 10, 10, 16)));
    Ok(())
}

#[test]
fn two_words_apart(rt: HostRuntime) -> Result<(), Fail> {
    let mut one = room_of(rt.alloc(), "Teh sheets agian")?;
    let mut other = other_room(rt.alloc(), &one, 2)?;
    mend_the(&mut one)?;
    mend_the(&mut other)?;
    mend_again(&mut one, 11)?;
    mend_again(&mut other, 11)?;
    let open = readings(rt.alloc(), &one, &other, "Thee sheets agaiin")?;
    assert!(rt; open.len() == 2);
    assert!(rt; is_open(&open[..1], point(0, 0, 0, 0), point(3, 3, 3, 4)));
    assert!(rt; is_open(&open[1..], point(11, 11, 11, 12), point(16, 16, 16, 18)));
    let text = "open at 0\n  now   Thee\n  here  The\n  there The\n  was   Teh\n\
open at 12\n  now   agaiin\n  here  again\n  there again\n  was   agian\n";
    assert!(rt; is_reported(rt.alloc(), &one, &other, text, 2)?);
    Ok(())
}

#[test]
fn long_word_shortened(rt: HostRuntime) -> Result<(), Fail> {
    let mut one = room_of(rt.alloc(), "abcdefghijklmnopqrstuvwxyz0123456789")?;
    let mut other = other_room(rt.alloc(), &one, 2)?;
    type_at(&mut one, 20, "X")?;
    type_at(&mut other, 20, "Y")?;
    let text =
        "open at 0\n  now   ..mnopqrstYXuvwxyz01234567..\n  here  ..mnopqrstXuvwxyz012345678..\n  \
        there ..mnopqrstYuvwxyz012345678..\n  was   ..mnopqrstuvwxyz0123456789\n";
    assert!(rt; is_reported(rt.alloc(), &one, &other, text, 1)?);
    Ok(())
}

#[test]
fn other_words_changed(rt: HostRuntime) -> Result<(), Fail> {
    let mut one = room_of(rt.alloc(), "one two three")?;
    let mut other = other_room(rt.alloc(), &one, 2)?;
    delete_at(&mut one, 0, 3)?;
    type_at(&mut one, 0, "six")?;
    delete_at(&mut other, 4, 3)?;
    type_at(&mut other, 4, "ten or so")?;
    assert!(rt; readings(rt.alloc(), &one, &other, "six ten or so three")?.is_empty());
    Ok(())
}

#[test]
fn word_deleted_twice(rt: HostRuntime) -> Result<(), Fail> {
    let mut one = room_of(rt.alloc(), "one two three")?;
    let mut other = other_room(rt.alloc(), &one, 2)?;
    delete_at(&mut one, 4, 3)?;
    delete_at(&mut other, 4, 3)?;
    assert!(rt; readings(rt.alloc(), &one, &other, "one  three")?.is_empty());
    Ok(())
}

#[test]
fn one_holds_the_other(rt: HostRuntime) -> Result<(), Fail> {
    let one = room_of(rt.alloc(), "so agian")?;
    let mut other = other_room(rt.alloc(), &one, 2)?;
    mend_again(&mut other, 3)?;
    assert!(rt; readings(rt.alloc(), &one, &other, "so again")?.is_empty());
    assert!(rt; readings(rt.alloc(), &other, &one, "so again")?.is_empty());
    assert!(rt; readings(rt.alloc(), &one, &one, "so agian")?.is_empty());
    assert!(rt; is_reported(rt.alloc(), &one, &other, "", 0)?);
    Ok(())
}

#[test]
fn fork_that_hides_a_letter(rt: HostRuntime) -> Result<(), Fail> {
    let mut one = room_of(rt.alloc(), "so it")?;
    let mut other = other_room(rt.alloc(), &one, 1)?;
    type_at(&mut one, 5, "s")?;
    type_at(&mut other, 5, "t")?;
    let open = readings(rt.alloc(), &one, &other, "so it")?;
    assert!(rt; is_open(&open, point(3, 3, 3, 3), point(5, 6, 6, 5)));
    let text = "open at 3\n  now   it\n  here  its\n  there itt\n  was   it\n";
    assert!(rt; is_reported(rt.alloc(), &one, &other, text, 1)?);
    Ok(())
}

/// The last operation of a room is taken in by another, which lacks what it hangs on.
fn take_last(room: &mut Room, other: &Room) -> Result<(), Fail> {
    let ops = other.in_order()?;
    let Some(last) = ops.last().copied() else {
        return Err(Fail::new("nothing is held"));
    };
    if room.take(last).is_err() {
        return Err(Fail::new("the last operation was refused"));
    }
    Ok(())
}

#[test]
fn insert_that_waits_in_one(rt: HostRuntime) -> Result<(), Fail> {
    let mut one = room_of(rt.alloc(), "so agian")?;
    let mut other = other_room(rt.alloc(), &one, 2)?;
    mend_again(&mut one, 3)?;
    mend_again(&mut other, 3)?;
    type_at(&mut other, 8, "st")?;
    take_last(&mut one, &other)?;
    assert!(rt; reads(&one, "so again")? && reads(&other, "so against")?);
    let text = "open at 3\n  now   agaiinst\n  here  again\n  there against\n  was   agian\n";
    assert!(rt; is_reported(rt.alloc(), &one, &other, text, 1)?);
    let text = "open at 3\n  now   agaiinst\n  here  against\n  there again\n  was   agian\n";
    assert!(rt; is_reported(rt.alloc(), &other, &one, text, 1)?);
    Ok(())
}

/// A text as elements of which each has a stamp of its own, from a counter on.
fn shown(alloc: Global, text: &str) -> Result<Vec<Shown, Global>, Fail> {
    let mut list = Vec::new(alloc);
    let mut counter = 1u64;
    for ch in text.chars() {
        list.push(Shown {
            stamp: Stamp { counter, site: 1 },
            symbol: Symbol {
                style: Style::Roman,
                ch,
            },
        })?;
        counter = counter.saturating_add(1);
    }
    Ok(list)
}

/// Whether readings are out of memory in a cut heap; any other answer is the wanted one.
fn are_refused(alloc: Global, base: &[Shown], both: &[Shown], cut: usize) -> Result<bool, Fail> {
    let heap = LocalHeap::new(alloc, 8192)?;
    let kept = 8192usize.saturating_sub(cut.saturating_mul(64));
    let ballast: Option<Vec<u8, &LocalHeap>> = Vec::with_capacity(&heap, kept).ok();
    let (from, to) = (point(2, 2, 2, 2), point(3, 3, 3, 3));
    let refused = match open_readings(&heap, base, base, base, both) {
        Ok(made) if is_open(&made, from, to) => false,
        Ok(_) => return Err(Fail::new("other readings")),
        Err(NoMemory) => true,
    };
    drop(ballast);
    if !is_open(&open_readings(&heap, base, base, base, both)?, from, to) {
        return Err(Fail::new("other readings with memory"));
    }
    Ok(refused)
}

#[test]
fn growths_of_readings_refused(rt: HostRuntime) -> Result<(), Fail> {
    let base = shown(rt.alloc(), "a b c")?;
    let both = shown(rt.alloc(), "a x c")?;
    let mut refused = 0u32;
    for cut in 0..128usize {
        refused = refused.saturating_add(u32::from(are_refused(rt.alloc(), &base, &both, cut)?));
    }
    assert!(rt; 4 <= refused && refused <= 120, "refused {refused} times");
    Ok(())
}
