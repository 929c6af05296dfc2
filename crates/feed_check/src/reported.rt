//! What is said of the bytes of a file.

ghost use Rattle.std.specs.Prelude.{◌≡◌, IfOk, string_bytes};
ghost use Rattle.feed_check.specs.Lines.{SaysBytes};
ghost use Rattle.feed_check.specs.Metal.{found_in};

use crate::cases::case_reported;
use crate::feeds::feed_reported;
use crate::kinds::{Kind, kind_of};
use crate::metal::Found;
use crate::ribbons::ribbon_reported;
use crate::strange::strange_reported;
use crate::wedges::wedge_reported;
use desk_memory::NoMemory;
use script_answers::Memory;
use std::alloc::Allocator;

/// What is said of a file, without its name, and whether it is in order.
#[derive(Drop)]
pub struct Reported<A: Allocator + Copy> {
    pub text: String<A>,
    pub well: bool,
}

/// What is said of bytes by their kind, and what they give for a cast.
pub fn reported_of<A: Allocator + Copy>(
    memory: Memory<A>,
    bytes: Vec<u8, A>,
) -> Result<(Reported<A>, Found), NoMemory>
    ensures said { IfOk result (λ t. SaysBytes bytes.items (string_bytes t.0.text) t.0.well) }
    ensures found { IfOk result (λ t. t.1 ≡ found_in bytes.items) }
{
    match kind_of(memory.global, &bytes)? {
        Kind::Feed => Ok((feed_reported(memory.own, bytes)?, Found::Neither)),
        Kind::Ribbon => Ok((ribbon_reported(memory.own, &bytes)?, Found::Neither)),
        Kind::Case => case_reported(memory.own, memory.global, &bytes),
        Kind::Wedge => wedge_reported(memory.own, memory.global, &bytes),
        Kind::Strange => Ok((
            strange_reported(memory.own, memory.global, &bytes)?,
            Found::Neither,
        )),
    }
}
