//! The laws of the definitions, each on a function with an empty body. What a law says of a set it says of one whose
//! operations are lawful.
ghost use Rattle.std.specs.Prelude.{◌≡◌, ◌^◌};
ghost use Rattle.desk_ops.specs.Stamp.{head, max_counter};
ghost use Rattle.desk_ops.specs.Op.{line_feed, space};
ghost use Rattle.desk_ops.specs.Worked.{ConcurrentDeleteAndInsert, FiveArrivals, ForkedStamp, LaterSiblingFirst};
ghost use Rattle.desk_ops.specs.Worked.{SettingsByStamps, TombstonesKept, WaitingThenLive};
ghost use Rattle.desk_ops.specs.Laws.{DrainGivesWalk, FaultsByEnds, HeldByMembers, LawfulByTests, LiveByParents};
ghost use Rattle.desk_ops.specs.Laws.{MergingIsUnion, NewestActs, OneOrder, OrderGoesByStamp, OrderIsKept};
ghost use Rattle.desk_ops.specs.Laws.{PlaceGivesWalk};
ghost use Rattle.desk_ops.specs.Laws.{ScanGivesWalk, SettingsByStamp, ShownIsWhatIsLeft, WalkGoesByKids};
ghost use Rattle.desk_ops.specs.Laws.{WalkHoldsTheLive};

use crate::op::{MAX_COUNTER, Stamp, Symbol};

/// An operation is lawful exactly where no cause against it is found.
pub fn lawful_goes_by_tests()
    ensures { LawfulByTests }
{}

/// The constants are the head, the space, the line feed and the greatest counter, 2^62.
pub fn constants_have_their_values()
    ensures head { Stamp.HEAD ≡ head }
    ensures space { Symbol.SPACE ≡ space }
    ensures line_feed { Symbol.LINE_FEED ≡ line_feed }
    ensures counter { (MAX_COUNTER ≡ max_counter) × (max_counter ≡ 2 ^ 62) }
{}

/// Operations stand by stamp, and those of one stamp by kind and fields.
pub fn order_goes_by_stamp()
    ensures { OrderGoesByStamp }
{}

/// Which operations of a set bear a stamp, and the greatest counter that it holds.
pub fn held_goes_by_members()
    ensures { HeldByMembers }
{}

/// An insert is live exactly if it is clear and its parent is the head or a live insert.
pub fn live_goes_by_parents()
    ensures { LiveByParents }
{}

/// The walk holds each live insert once, and nothing else.
pub fn walk_holds_the_live()
    ensures { WalkHoldsTheLive }
{}

/// The walk gives each child in turn, each directly followed by its own walk.
pub fn walk_goes_by_kids()
    ensures { WalkGoesByKids }
{}

/// What is shown is the walk without the elements that a live delete targets.
pub fn shown_is_what_is_left()
    ensures { ShownIsWhatIsLeft }
{}

/// A setting is the value of the live set of its key with the greatest stamp.
pub fn settings_go_by_stamp()
    ensures { SettingsByStamp }
{}

/// A stamp has a fault exactly where it is forked or its operation is stuck: void or waiting by where its way ends.
pub fn faults_go_by_ends()
    ensures { FaultsByEnds }
{}

/// Elements that two sets of lawful operations show, the one within the other, stand in one order.
pub fn order_is_kept()
    ensures { OrderIsKept }
{}

/// Where no stamp is forked, one order holds what each part of the set shows.
pub fn one_order_holds()
    ensures { OneOrder }
{}

/// One insert more, whose stamp is new and on which no clear insert hangs, put by the scan, gives the walk with it.
pub fn scan_gives_walk()
    ensures { ScanGivesWalk }
{}

/// With one insert more, whose stamp is new, on which none hangs and whose parent is older, the place that the walk's
/// stamps say gives the walk with it.
pub fn place_gives_walk()
    ensures { PlaceGivesWalk }
{}

/// A drain takes in one insert after another, and at its end has the set's walk.
pub fn drain_gives_walk()
    ensures { DrainGivesWalk }
{}

/// What a new operation of a site does to what is shown and set.
pub fn newest_acts()
    ensures { NewestActs }
{}

/// Merging is commutative, associative and idempotent.
pub fn merging_is_union()
    ensures { MergingIsUnion }
{}

/// Worked sets: what they show, their faults and settings.
pub fn worked_sets()
    ensures later_sibling_first { LaterSiblingFirst }
    ensures five_arrivals { FiveArrivals }
    ensures forked_stamp { ForkedStamp }
    ensures waiting_then_live { WaitingThenLive }
    ensures tombstones_kept { TombstonesKept }
    ensures concurrent_delete_and_insert { ConcurrentDeleteAndInsert }
    ensures settings_by_stamp { SettingsByStamps }
{}
