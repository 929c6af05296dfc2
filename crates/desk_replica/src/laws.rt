//! What replicas of equal sets answer.
ghost use Rattle.desk_replica.specs.Laws.{Convergence, OneRun};
ghost use Rattle.desk_replica.specs.Orders.{OneOrderOfSets};

/// Replicas that hold the same operations have the same copy, copy faults, settings, order of operations and feed.
/// Which
/// operations they hold does not depend on the order in which these came, nor on how often, nor on which replica was
/// merged into which.
pub fn convergence()
    ensures { Convergence }
{}

/// A path goes from a parent to what hangs on it, and a walk stands in path order. Elements that a set and a part of it
/// show stand in one order, forks and all. Where no stamp of the set is forked, one order holds what all its parts
/// show, so
/// that any two of these show what they share in the same order.
pub fn one_order_of_sets()
    ensures { OneOrderOfSets }
{}

/// A list of calls has the same answers over every kind of sequence, spare and refusals for memory aside. Two replicas
/// of
/// one site that hold the same operations begin it, and after it they do so again.
pub fn one_run()
    ensures { OneRun }
{}
