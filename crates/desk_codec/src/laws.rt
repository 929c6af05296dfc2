//! What holds of feeds, whoever writes or reads them.

ghost use Rattle.desk_codec.specs.Laws.{Sizes, PrefixFree, OneList, OneFeed, ItemOrFault, FeedOrFault};
ghost use Rattle.desk_codec.specs.Order.{OrderOfBytes};
ghost use Rattle.desk_codec.specs.PieceSteps.{PiecesAreTheFeed};
ghost use Rattle.desk_codec.specs.RunLaws.{RunsAreRead};

/// An insert takes 26 bytes, a delete 21, and a setting 16.
#[tactic(auto, using(crate::proofs::Grammar::sizes))]
pub fn each_kind_has_its_size()
    ensures { Sizes }
{}

/// No operation's bytes begin another's.
#[tactic(auto, using(crate::proofs::Grammar::prefix_free))]
pub fn operations_are_prefix_free()
    ensures { PrefixFree }
{}

/// Bytes are the feed of at most one list of operations.
pub fn feeds_are_of_one_list()
    ensures { OneList }
{}

/// A list of lawful operations has one feed of single operations.
#[tactic(auto, using(crate::proofs::Grammar::one_feed))]
pub fn operations_have_one_feed()
    ensures { OneFeed }
{}

/// At the start of bytes, where there are any, an operation or a run stands or one thing is wrong, and never both.
pub fn item_or_fault_holds()
    ensures { ItemOrFault }
{}

/// Any bytes are a feed or have a first fault, and never both; and they have one first fault.
pub fn feed_or_fault_holds()
    ensures { FeedOrFault }
{}

/// Operations stand by stamp, and those of one stamp by their bytes.
pub fn order_goes_by_bytes()
    ensures { OrderOfBytes }
{}

/// However bytes are cut into pieces, the lists that the pieces give, joined, are the list of all, or the one fault is
/// theirs.
pub fn pieces_are_the_feed()
    ensures { PiecesAreTheFeed }
{}

/// What is written is read: as a list that has the operations, each once.
pub fn runs_are_read()
    ensures { RunsAreRead }
{}
