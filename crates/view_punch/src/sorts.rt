//! The sorts that a copy needs.

ghost use Rattle.std.specs.Prelude.{◌≡◌, ◌+◌, ◌<◌, ◌^◌, IfOk, IfSome, OnOk};
ghost use Rattle.std.specs.BTreeMap.{get};
ghost use Rattle.view_punch.specs.Sorts.{AreSortsOf, symbol_cmp};
ghost use Rattle.view_punch.specs.Counting.{AreTallies, Counts, counted};

use desk_memory::NoMemory;
use desk_ops::Symbol;
use std::alloc::Allocator;
use std::collections::BTreeMap;

/// A symbol of a style that a copy needs, a matrix for each.
#[derive(Clone, Copy, Debug, PartialEq, Eq)]
pub struct Sort {
    pub symbol: Symbol,
    /// At how many places of the copy it stands, 1 or more.
    pub wanted: usize,
    /// The first of these places, from 0.
    pub first: usize,
}

/// A sort with one more place, or with its first.
fn counted(symbol: Symbol, place: usize, known: Option<Sort>) -> Sort
    requires { IfSome known (λ sort. sort.wanted + 1 < 2 ^ 64) }
    ensures { result ≡ counted symbol place known }
{
    match known {
        Some(sort) => Sort {
            symbol: sort.symbol,
            wanted: sort.wanted + 1,
            first: sort.first,
        },
        None => Sort {
            symbol,
            wanted: 1,
            first: place,
        },
    }
}

/// Counts the symbol at a place.
fn count<A: Allocator + Copy>(
    tallies: &mut BTreeMap<Symbol, Sort, A>,
    symbol: Symbol,
    place: usize,
) -> Result<(), NoMemory>
    requires { IfSome (get symbol_cmp tallies.old symbol) (λ sort. sort.wanted + 1 < 2 ^ 64) }
    ensures { OnOk result (Counts tallies.old tallies.new symbol place) }
{
    let known = tallies.get(&symbol).copied();
    tallies.insert(symbol, counted(symbol, place, known))?;
    Ok(())
}

/// What is known of each symbol of a copy but the line feed.
fn tallies_of<A: Allocator + Copy>(
    alloc: A,
    copy: &[Symbol],
) -> Result<BTreeMap<Symbol, Sort, A>, NoMemory>
    ensures { IfOk result (AreTallies copy.now) }
{
    let mut tallies = BTreeMap::new(alloc);
    for (place, symbol) in copy.iter().enumerate() {
        if !symbol.is_line_feed() {
            count(&mut tallies, *symbol, place)?;
        }
    }
    Ok(tallies)
}

/// The sorts that a copy needs, in the order of their symbols: by style, and then by character. A line feed ends a
/// paragraph, and no matrix is cast for it, so it is none of them; the space is one. The steps are as many as the
/// symbols of the copy times the logarithm of the number of sorts.
pub fn sorts_of<A: Allocator + Copy>(alloc: A, copy: &[Symbol]) -> Result<Vec<Sort, A>, NoMemory>
    ensures { IfOk result (λ sorts. AreSortsOf copy.now sorts.items) }
{
    let tallies = tallies_of(alloc, copy)?;
    let mut sorts = Vec::new(alloc);
    for sort in tallies.values() {
        sorts.push(*sort)?;
    }
    Ok(sorts)
}
