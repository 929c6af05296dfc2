//! What holds of the text of FEED.last, and of greatest counters.

ghost use Rattle.feed_stored.specs.Laws.{GreatestIsReached, StampsTakeTheirPlace, TextsAreOfOneList};

/// A text is that of one list of stamps alone.
pub fn texts_are_of_one_list()
    ensures { TextsAreOfOneList }
{}

/// A stamp takes the place of its site's, and leaves the others.
pub fn stamps_take_their_place()
    ensures { StampsTakeTheirPlace }
{}

/// The greatest counter of a site is that of an operation, and no other has a greater one.
pub fn greatest_is_reached()
    ensures { GreatestIsReached }
{}
