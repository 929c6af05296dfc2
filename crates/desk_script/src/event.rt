//! The site that a command names, and the events that happen there.

ghost use Rattle.std.specs.Prelude.{◌≡◌, IfErr, IfOk, MatchResult, None, Some};
ghost use Rattle.desk_ops.specs.OpSet.{OpSet};
ghost use Rattle.script_answers.specs.NotDone.{reply_to};
ghost use Rattle.desk_script.specs.Event.{Happens, set_of};
ghost use Rattle.script_world.specs.World.{IsSound, event_values};

use desk_blocks::Blocks;
use desk_replica::Replica;
use script_answers::{Failure, NotDone, Refusal, Reply};
use script_world::{Event, World};
use std::alloc::Allocator;

/// The replica of the site that a command names.
pub fn replica_of<A: Allocator + Copy>(
    world: &World<A>,
    site: u32,
) -> Result<&Replica<Blocks<A>>, Failure>
    ensures there { MatchResult result (λ replica. Some replica.now.ops ≡ set_of world.now site)
        (λ _. None ≡ set_of world.now site) }
    ensures number { IfOk result (λ replica. replica.now.site ≡ site) }
    ensures refused { IfErr result (λ end. end ≡ Failure.Refused Refusal.Site) }
{
    let Ok(number) = u16::try_from(site) else {
        return Err(Failure::Refused(Refusal::Site));
    };
    let Some(replica) = world.replica(number) else {
        return Err(Failure::Refused(Refusal::Site));
    };
    Ok(replica)
}

/// The number of a site that is there.
pub fn number_of<A: Allocator + Copy>(world: &World<A>, site: u32) -> Result<u16, Failure>
    ensures there { MatchResult result (λ _. (set : OpSet)
        × (Some set ≡ set_of world.now site)) (λ _. None ≡ set_of world.now site) }
    ensures number { IfOk result (λ number. number ≡ site) }
    ensures refused { IfErr result (λ end. end ≡ Failure.Refused Refusal.Site) }
{
    let replica = replica_of(world, site)?;
    Ok(replica.site())
}

/// Lets an event happen.
pub fn happen<A: Allocator + Copy>(
    world: &mut World<A>,
    event: &Event<'_>,
) -> Result<Reply<A>, NotDone>
    requires { IsSound (event_values event.now) }
    ensures { Happens world.old (event_values event.now) (reply_to result) world.new }
{
    let answer = world.step(event)?;
    Ok(Reply::from(answer))
}
