//! What holds of the pictures of galleys.

ghost use Rattle.view_picture.specs.Laws.{PicturesAreKnown, RefusalsAreKnown};

/// A picture that was stored is known by its first bytes, so the next one takes its place.
pub fn pictures_are_known()
    ensures galleys { PicturesAreKnown }
    ensures refusals { RefusalsAreKnown }
{}
