//! Where a text stands in a copy.

ghost use Rattle.std.specs.Prelude.{◌≡◌, ◌≤◌, length, IfOk};
ghost use Rattle.text_copy.specs.Places.{places_of, stands};

use desk_memory::NoMemory;
use desk_ops::Symbol;
use std::alloc::Allocator;

/// Whether a text stands at a place of a copy. It compares no further than the first difference.
fn stands(text: &[Symbol], copy: &[Symbol], place: usize) -> bool
    requires { place ≤ length copy.now }
    ensures { result ≡ stands text.now copy.now place }
{
    copy[place..].starts_with(text)
}

/// All places of a copy at which a text stands, in their order. Places that overlap are places of their own, and an
/// empty text stands at each, the end included.
pub fn places_of<A: Allocator + Copy>(
    alloc: A,
    text: &[Symbol],
    copy: &[Symbol],
) -> Result<Vec<usize, A>, NoMemory>
    ensures { IfOk result (λ v. v.items ≡ places_of text.now copy.now) }
{
    let mut places = Vec::new(alloc);
    for place in 0..=copy.len() {
        if stands(text, copy, place) {
            places.push(place)?;
        }
    }
    Ok(places)
}
