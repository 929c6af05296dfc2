//! What holds of a set that is renumbered.

ghost use Rattle.feed_sites.specs.Laws.{HoldsWhatTheyBecome, MergesWithNoFork, NoneIsLost, NothingCollides, OthersStay};

/// A set that is renumbered holds exactly what its operations become: so many as before, and those that are not moved
/// as they are. No stamp of it collides with the other set any more, and where neither had a fork, a merge of the two
/// has none.
pub fn both_stand_after_a_merge()
    ensures becomes { HoldsWhatTheyBecome }
    ensures stay { OthersStay }
    ensures none_lost { NoneIsLost }
    ensures apart { NothingCollides }
    ensures merge { MergesWithNoFork }
{}
