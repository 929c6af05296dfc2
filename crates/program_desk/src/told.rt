//! Lines on standard error, and whether they were written whole.

ghost use Rattle.std.specs.Prelude.{◌≡◌, true};
ghost use Rattle.std.specs.Fmt.{decimal};
ghost use Rattle.program_desk.specs.Told.{GoesOn, Tells};

use feed_stored::{Unsent, send};
use std::io::Write;

/// Whether lines were written whole. Only the functions of this module make one, so none else can report that standard
/// error failed.
#[derive(Clone, Copy)]
pub struct Told {
    is_whole: bool,
}

/// How a run ended: its status, and whether the lines on it were written whole.
#[derive(Clone, Copy)]
pub struct Ending {
    pub status: u8,
    pub told: Told,
}

/// Nothing is to be written.
pub fn silent() -> Told
    ensures { result.is_whole ≡ true }
{
    Told { is_whole: true }
}

/// A run that ended with this status, and writes nothing on standard error.
pub fn ended(status: u8) -> Ending
    ensures { (result.status ≡ status) × (result.told.is_whole ≡ true) }
{
    Ending {
        status,
        told: silent(),
    }
}

/// Writes a text.
fn tell<E: Write>(faults: &mut E, text: &[u8]) -> Told
    ensures { Tells result.is_whole (E.contents faults.old) (E.contents faults.new) text.now }
{
    match send(faults, text) {
        Ok(()) => Told { is_whole: true },
        Err(Unsent) => Told { is_whole: false },
    }
}

/// Writes a text after what was written, unless that was cut off.
pub fn tell_more<E: Write>(faults: &mut E, told: Told, text: &[u8]) -> Told
    ensures { GoesOn told.is_whole result.is_whole (E.contents faults.old) (E.contents faults.new) text.now }
{
    if told.is_whole {
        tell(faults, text)
    } else {
        told
    }
}

/// Writes a number in decimal after what was written, unless that was cut off.
pub fn tell_number<E: Write>(faults: &mut E, told: Told, number: u64) -> Told
    ensures { GoesOn told.is_whole result.is_whole (E.contents faults.old) (E.contents faults.new) (decimal number) }
{
    let digit = b'0' + (number % 10) as u8;
    if number < 10 {
        return tell_more(faults, told, &[digit]);
    }
    let begun = tell_number(faults, told, number / 10);
    tell_more(faults, begun, &[digit])
}
