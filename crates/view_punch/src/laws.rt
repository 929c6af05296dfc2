//! What holds of the ribbons that are stored.

ghost use Rattle.view_punch.specs.Laws.{AreCastInOrder, RibbonsAreKnown};

/// A ribbon that was stored is known by its first bytes, so the next punch takes its place.
pub fn ribbons_are_known()
    ensures { RibbonsAreKnown }
{}

/// Where each of two lists of rows is cast without a fault, they cast, one after the other, the lines of the first and
/// then those of the second. So the ribbon of several feeds casts the lines of each, in order.
pub fn ribbons_are_cast_in_order()
    ensures { AreCastInOrder }
{}
