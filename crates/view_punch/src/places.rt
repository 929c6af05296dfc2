//! The places of the symbols that a case lacks.

ghost use Rattle.std.specs.Prelude.{◌≡◌, IfOk, OnOk};
ghost use Rattle.view_punch.specs.Places.{Adds, AreFound, found_of};

use crate::cells::lacks;
use desk_case::MatrixCase;
use desk_ops::Symbol;
use std::alloc::{AllocError, Allocator};
use std::collections::BTreeMap;

/// The places that were found of symbols.
pub type Found<A> = BTreeMap<Symbol, Vec<usize, A>, A>;

/// Adds a place to those of a symbol.
fn add<A: Allocator + Copy>(
    alloc: A,
    found: &mut Found<A>,
    symbol: Symbol,
    place: usize,
) -> Result<(), AllocError>
    ensures { OnOk result (Adds found.old found.new symbol place) }
{
    if let Some(places) = found.get_mut(&symbol) {
        places.push(place)?;
        return Ok(());
    }
    let mut places = Vec::new(alloc);
    places.push(place)?;
    found.insert(symbol, places)?;
    Ok(())
}

/// All places of each symbol that the case lacks, in one pass over the copy.
pub fn find<A: Allocator + Copy>(
    alloc: A,
    copy: &[Symbol],
    case: &MatrixCase,
) -> Result<Found<A>, AllocError>
    ensures { IfOk result (AreFound copy.now case.now) }
{
    let mut found = BTreeMap::new(alloc);
    for (place, symbol) in copy.iter().enumerate() {
        if lacks(case, *symbol) {
            add(alloc, &mut found, *symbol, place)?;
        }
    }
    Ok(found)
}

/// The places of a symbol.
pub fn places_in<'a, A: Allocator + Copy>(found: &'a Found<A>, symbol: Symbol) -> &'a [usize]
    ensures { result.now ≡ found_of found.now symbol }
{
    match found.get(&symbol) {
        Some(places) => places.as_slice(),
        None => &[],
    }
}
