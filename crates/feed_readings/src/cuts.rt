//! The cuts of four lists.

ghost use Rattle.std.specs.Prelude.{◌≡◌, IfOk, List};
ghost use Rattle.feed_readings.specs.Cuts.{cut_of, point_of};
ghost use Rattle.feed_readings.specs.Finding.{ArePlaces, AreThree, place_in};

use crate::reading::{Point, Shown, is_white};
use desk_memory::NoMemory;
use desk_ops::Stamp;
use std::alloc::Allocator;
use std::collections::BTreeMap;

/// The places of a list's white elements, by their stamps.
type Places<A> = BTreeMap<Stamp, usize, A>;

/// The places of the white elements of the first three of four lists.
#[derive(Drop)]
pub struct Index<A: Allocator + Copy> {
    base: Places<A>,
    one: Places<A>,
    other: Places<A>,
}

/// The places of a list's white elements: it is passed from its end, so that of one stamp the first stays.
fn places_of<A: Allocator + Copy>(alloc: A, list: &[Shown]) -> Result<Places<A>, NoMemory>
    ensures { IfOk result (ArePlaces list.now) }
{
    let mut places = BTreeMap::new(alloc);
    let mut at = list.len();
    while at > 0 {
        at -= 1;
        if is_white(list[at].symbol) {
            places.insert(list[at].stamp, at)?;
        }
    }
    Ok(places)
}

/// The places of the white elements of three lists.
pub fn index_of<A: Allocator + Copy>(
    alloc: A,
    base: &[Shown],
    one: &[Shown],
    other: &[Shown],
) -> Result<Index<A>, NoMemory>
    ensures { IfOk result (AreThree base.now one.now other.now) }
{
    Ok(Index {
        base: places_of(alloc, base)?,
        one: places_of(alloc, one)?,
        other: places_of(alloc, other)?,
    })
}

/// The place of the white element with the stamp.
fn place_in<A: Allocator + Copy>(places: &Places<A>, stamp: Stamp) -> Option<usize>
    ensures { result ≡ place_in places.now stamp }
{
    places.get(&stamp).copied()
}

/// The point of these places, where there are all of them.
fn point_of(
    base: Option<usize>,
    one: Option<usize>,
    other: Option<usize>,
    both: usize,
) -> Option<Point>
    ensures { result ≡ point_of base one other both }
{
    Some(Point {
        base: base?,
        one: one?,
        other: other?,
        both,
    })
}

/// The cut that an element is, which stands at a place of the fourth list.
pub fn cut_of<A: Allocator + Copy>(index: &Index<A>, both: usize, element: &Shown) -> Option<Point>
    ensures { (base one other : List Shown) → AreThree base one other index.now
        → result ≡ cut_of base one other both element.now }
{
    if !is_white(element.symbol) {
        return None;
    }
    let base = place_in(&index.base, element.stamp);
    let one = place_in(&index.one, element.stamp);
    let other = place_in(&index.other, element.stamp);
    point_of(base, one, other, both)
}
