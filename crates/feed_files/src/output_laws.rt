//! What holds of the kinds of files.

ghost use Rattle.feed_files.specs.OutputLaws.{DocumentsAreDocuments, FeedsAreFeeds, NoneIsEmpty, PicturesArePictures};
ghost use Rattle.feed_files.specs.OutputLaws.{RibbonsAreRibbons, ShortOnesAreOthers};

/// Bytes are of a kind by what it begins with: four bytes, or the first lines of a document. Fewer than four are of none.
#[tactic(auto, unfolding(crate::specs::Kinds::document_head))]
pub fn kinds_are_of_first_bytes()
    ensures feeds { FeedsAreFeeds }
    ensures ribbons { RibbonsAreRibbons }
    ensures pictures { PicturesArePictures }
    ensures documents { DocumentsAreDocuments }
    ensures short { ShortOnesAreOthers }
{}

/// Only no bytes have no kind.
pub fn only_empty_ones_have_no_kind()
    ensures { NoneIsEmpty }
{}
