//! What holds of scripts, whoever runs them.

ghost use Rattle.std.specs.Prelude.{◌≡◌};
ghost use Rattle.desk_script.specs.OneReply.{OneReply};
ghost use Rattle.desk_script.specs.Line.{max_line};
ghost use Rattle.desk_script.specs.Sheet.{max_sheet};
ghost use Rattle.desk_script.specs.Taking.{max_reads};

use crate::{MAX_LINE, MAX_READS, MAX_SHEET};

/// Memory aside, and where the files give the same, the lines of a script have one list of replies and leave the same
/// desk. This is said of sites that hold no more than 1,048,576 operations each. Every line keeps them so.
pub fn one_reply()
    ensures { OneReply }
{}

/// The constants are the bounds that the contracts of runs, lines and sheets speak of.
pub fn constants_have_their_values()
    ensures reads { MAX_READS ≡ max_reads }
    ensures line { MAX_LINE ≡ max_line }
    ensures sheet { MAX_SHEET ≡ max_sheet }
{}
