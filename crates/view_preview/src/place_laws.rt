//! The law over the definitions of places, the contract of a function that does nothing.

ghost use Rattle.view_preview.specs.Places.{EachHasPlace};

/// A text that is a copy has a place for each symbol of it, and no other.
pub fn each_symbol_has_a_place()
    ensures { EachHasPlace }
{}
