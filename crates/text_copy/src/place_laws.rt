//! What holds of the places of a text, whoever looks for them.

ghost use Rattle.text_copy.specs.PlaceLaws.{AreAllPlaces};

/// The places that are found rise, and are those at which the text stands: it ends within the copy, and the symbols
/// from there on are its own.
pub fn all_places_are_found()
    ensures { AreAllPlaces }
{}
