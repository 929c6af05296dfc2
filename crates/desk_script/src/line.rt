//! A line, carried out and answered.

ghost use Rattle.std.specs.Prelude.{◌≡◌, true};
ghost use Rattle.script_answers.specs.NotDone.{reply_to};
ghost use Rattle.script_answers.specs.Reply.{is_long, reply_values};
ghost use Rattle.feed_files.specs.Files.{Stays};
ghost use Rattle.desk_script.specs.Desk.{KeepsSites, desk};
ghost use Rattle.desk_script.specs.Line.{Allows, line_of};

use crate::act::act;
use feed_files::Files;
use script_answers::{Memory, NotDone, Refusal, Reply, parse};
use script_world::World;
use std::alloc::Allocator;

/// The most bytes of a command's line, without its end: a longer one is refused.
pub const MAX_LINE: usize = 65_536;

/// Does what a line says.
fn do_line<F: Files, A: Allocator + Copy>(
    memory: Memory<A>,
    world: &mut World<A>,
    files: &mut F,
    line: &[u8],
) -> Result<Reply<A>, NotDone>
    ensures done { Allows (desk world.old (F.shelf files.old)) (line_of line.now) (reply_to result)
        (desk world.new (F.shelf files.new)) }
    ensures stays { Stays (F.shelf files.old) (F.shelf files.new) }
{
    if line.len() > MAX_LINE {
        return Err(NotDone::from(Refusal::Line));
    }
    let command = parse(memory.own, line)?;
    act(memory, world, files, command)
}

/// Does what a line says, and returns its answer. Where memory is refused before anything has changed the answer is
/// that refusal, and after k operations that these stand. A line that is too long is refused as such. No line takes a
/// site away. Where the answer may be long nothing has changed, and no device has failed.
pub fn answer<F: Files, A: Allocator + Copy>(
    memory: Memory<A>,
    world: &mut World<A>,
    files: &mut F,
    line: &[u8],
) -> Reply<A>
    ensures answered { Allows (desk world.old (F.shelf files.old)) (line_of line.now) (reply_values result)
        (desk world.new (F.shelf files.new)) }
    ensures unchanged { is_long (reply_values result) ≡ true → world.new ≡ world.old }
    ensures still { is_long (reply_values result) ≡ true → F.shelf files.new ≡ F.shelf files.old }
    ensures sites { KeepsSites world.old world.new }
    ensures stays { Stays (F.shelf files.old) (F.shelf files.new) }
{
    match do_line(memory, world, files, line) {
        Ok(reply) => reply,
        Err(end) => Reply::from(end),
    }
}
