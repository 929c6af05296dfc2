//! What holds of the places of a symbol, whoever finds them.

ghost use Rattle.view_punch.specs.SortsLaws.{AreAllPlaces};

/// The places of a symbol rise, they are those at which it stands, and there are as many as it is wanted.
pub fn places_are_all()
    ensures { AreAllPlaces }
{}
