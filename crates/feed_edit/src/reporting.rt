//! The places at which a text is exchanged, or what is reported where there are none.

ghost use Rattle.std.specs.Prelude.{◌≡◌, ◌≢◌, ◌∷◌, ◌+◌, ◌<◌, ◌^◌, [], All, IfErr, IfOk, OnOk, length};
ghost use Rattle.text_copy.specs.Places.{places_of};
ghost use Rattle.feed_edit.specs.Reporting.{AreApart, IsReported, TakenCoverAll, apart, only, taken, taken_of};
ghost use Rattle.feed_edit.specs.Reporting.{this};

use crate::replace_fault::PlaceFault;
use crate::texts::Where;
use desk_memory::NoMemory;
use desk_ops::Symbol;
use feed_stored::write_out;
use std::alloc::Allocator;
use std::io::Write;
use text_copy::{places_of, reported_places};

/// The place, where there is one alone.
fn only<A: Allocator + Copy>(alloc: A, places: &[usize]) -> Result<Vec<usize, A>, NoMemory>
    ensures { IfOk result (λ v. v.items ≡ only places.now) }
{
    let mut taken = Vec::new(alloc);
    if places.len() == 1 {
        taken.extend_from_slice(places)?;
    }
    Ok(taken)
}

/// This place, where it is one of them.
fn this<A: Allocator + Copy>(
    alloc: A,
    place: usize,
    places: &[usize],
) -> Result<Vec<usize, A>, NoMemory>
    ensures { IfOk result (λ v. v.items ≡ this place places.now) }
{
    let mut taken = Vec::new(alloc);
    if places.contains(&place) {
        taken.push(place)?;
    }
    Ok(taken)
}

/// From the left those places of so many symbols that do not begin within the last one taken.
fn apart<A: Allocator + Copy>(
    alloc: A,
    count: usize,
    places: &[usize],
) -> Result<Vec<usize, A>, NoMemory>
    requires { All (λ place. place + count < 2 ^ 64) places.now }
    ensures { IfOk result (λ v. v.items ≡ apart count 0 places.now) }
{
    let mut taken = Vec::new(alloc);
    let mut from = 0;
    for place in places {
        if *place >= from {
            taken.push(*place)?;
            from = *place + count;
        }
    }
    Ok(taken)
}

/// Of places that rise those that are taken from the left are such, and each place begins within one that is taken, or
/// at it. So none is passed over but for one that overlaps it on its left.
pub fn taken_cover_all()
    ensures { TakenCoverAll }
{}

/// Of the places of a text of so many symbols those that are taken.
fn taken_of<A: Allocator + Copy>(
    alloc: A,
    at: Where,
    count: usize,
    places: &[usize],
) -> Result<Vec<usize, A>, NoMemory>
    requires { All (λ place. place + count < 2 ^ 64) places.now }
    ensures { IfOk result (λ v. v.items ≡ taken_of at count places.now) }
{
    match at {
        Where::Once => only(alloc, places),
        Where::At(place) => this(alloc, place, places),
        Where::All => {
            if count == 0 {
                only(alloc, places)
            } else {
                apart(alloc, count, places)
            }
        }
    }
}

/// Writes what is reported of the places of a text of which none is taken.
fn report<W: Write, A: Allocator + Copy>(
    alloc: A,
    writer: &mut W,
    at: Where,
    old: &[Symbol],
    copy: &[Symbol],
    places: &[usize],
) -> PlaceFault
    requires all { places.now ≡ places_of old.now copy.now }
    requires none { taken at old.now copy.now ≡ [] }
    ensures { IsReported at old.now copy.now (W.contents writer.old) (W.contents writer.new) result }
{
    let text = match reported_places(alloc, old.len(), copy, places) {
        Ok(text) => text,
        Err(_) => return PlaceFault::NoMemory,
    };
    if write_out(writer, &text).is_err() {
        return PlaceFault::Write;
    }
    if places.is_empty() {
        PlaceFault::NoPlace
    } else {
        PlaceFault::ManyPlaces(places.len())
    }
}

/// The places of a copy at which a text is exchanged, one at least, in their order, none of which overlaps another.
/// Where there are none, the places of the text are reported.
pub fn places_taken<W: Write, A: Allocator + Copy>(
    alloc: A,
    writer: &mut W,
    at: Where,
    old: &[Symbol],
    copy: &[Symbol],
) -> Result<Vec<usize, A>, PlaceFault>
    ensures ok { IfOk result (λ v. v.items ≡ taken at old.now copy.now) }
    ensures some { IfOk result (λ v. v.items ≢ []) }
    ensures apart { IfOk result (λ v. AreApart (length old.now) 0 (length copy.now) v.items) }
    ensures silent { OnOk result (writer.new ≡ writer.old) }
    ensures err { IfErr result (IsReported at old.now copy.now (W.contents writer.old) (W.contents writer.new)) }
{
    let places = places_of(alloc, old, copy)?;
    let taken = taken_of(alloc, at, old.len(), &places)?;
    if taken.is_empty() {
        return Err(report(alloc, writer, at, old, copy, &places));
    }
    Ok(taken)
}
