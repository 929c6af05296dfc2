//! The words of the command line, read.

ghost use Rattle.std.specs.Prelude.{◌≡◌, IfOk, map, string_bytes};
ghost use Rattle.clap.specs.Words.{FailsBy, fault_of};
ghost use Rattle.program_words.specs.Words.{IsAsked, copydesk};

use crate::commands::command;
use crate::wishes::{Wish, wish_of};
use clap::Error;
use std::alloc::Global;

/// What the words after the program's name ask for; none where they have no fault and ask for nothing that can be done.
/// Help and the version, and every word that is refused, are errors of `clap`, with their text.
pub fn read_words<'a>(alloc: Global, words: &'a [String]) -> Result<Option<Wish<'a>>, Error>
    ensures kinds { FailsBy (fault_of copydesk (map string_bytes words.entry.now)) result }
    ensures wish { IfOk result (IsAsked (map string_bytes words.entry.now)) }
{
    let command = command(alloc)?;
    let matches = command.try_get_matches_from(words)?;
    Ok(wish_of(alloc, &matches)?)
}
