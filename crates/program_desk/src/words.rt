//! What is said of a case, a wedge or a number that is refused.

use desk_ops::Stamp;
use feed_sites::NumberFault;
use program_host::{Explains, Plain};
use script_answers::Refusal;
use std::io::{self, Write};

/// Why a case file is refused, by the number of its fault.
fn case_words(number: u8) -> &'static str {
    match number {
        1 => "it is not TOML",
        2 => "a key of a case is missing",
        3 => "a key of a case is of another type, number, length or name",
        4 => "the text of a cell is no symbol",
        5 => "a symbol stands in two cells",
        6 => "the space or a fill holds a symbol",
        _ => "by this wedge the units of the fills do not descend",
    }
}

/// Why a wedge file is refused, by the number of its fault.
fn wedge_words(number: u8) -> &'static str {
    match number {
        1 => "it is not TOML",
        2 => "a key of a wedge is missing",
        3 => "a key of a wedge is of another type, length or value",
        _ => "a row has fewer units than the row before",
    }
}

/// Writes a line on why a case does not come in: the file, and the cause.
pub fn explain_case<E: Write, F: Explains>(
    faults: &mut E,
    files: &F,
    case: &str,
    why: Refusal,
) -> io::Result<()> {
    match why {
        Refusal::Case(number) => writeln!(faults, "{}: {}", Plain(case), case_words(number)),
        _ => files.explain(case, faults),
    }
}

/// Writes a line on why a case and a wedge do not come in: the file, and the cause. Files know which of them they
/// refused.
pub fn explain_input<E: Write, F: Explains>(
    faults: &mut E,
    files: &F,
    case: &str,
    wedge: &str,
    why: Refusal,
) -> io::Result<()> {
    match why {
        Refusal::Case(_) => explain_case(faults, files, case, why),
        Refusal::Wedge(number) => writeln!(faults, "{}: {}", Plain(wedge), wedge_words(number)),
        _ => files.explain(wedge, faults),
    }
}

/// Writes a line on why a number does not serve.
pub fn explain_number<E: Write>(faults: &mut E, site: u16, why: NumberFault) -> io::Result<()> {
    match why {
        NumberFault::Seen(stamp) => {
            let Stamp { counter, site } = stamp;
            writeln!(
                faults,
                "operation {counter}.{site} builds on one that would get another number"
            )
        }
        NumberFault::Clash => {
            writeln!(
                faults,
                "site {site}: two operations of one counter would get this number"
            )
        }
        NumberFault::InUse | NumberFault::NoMemory => {
            writeln!(faults, "site {site}: one of the feeds has stamps of it")
        }
    }
}
