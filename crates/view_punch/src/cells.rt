//! What a case has for a symbol.

ghost use Rattle.std.specs.Prelude.{◌≡◌};
ghost use Rattle.view_punch.specs.Places.{cell_for, lacks};

use desk_case::MatrixCase;
use desk_ops::Symbol;
use desk_signals::Cell;

/// The cell that a symbol is cast from.
pub fn cell_for(case: &MatrixCase, symbol: Symbol) -> Option<Cell>
    ensures { result ≡ cell_for case.now symbol }
{
    if symbol.is_space() {
        Some(case.space())
    } else {
        case.cell_of(symbol)
    }
}

/// Whether a symbol, which is no line feed, can be cast from no cell of the case.
pub fn lacks(case: &MatrixCase, symbol: Symbol) -> bool
    ensures { result ≡ lacks case.now symbol }
{
    !(symbol.is_line_feed() || cell_for(case, symbol).is_some())
}
