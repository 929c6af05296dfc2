//! The laws over the definitions alone, each the contract of a function that does nothing.

ghost use Rattle.desk_case.specs.Laws.{CellsAndSymbolsAreInverse, DescentIsOfAllPairs, DoubledIsFirst};
ghost use Rattle.desk_case.specs.Laws.{NamesAreOneToOne, NarrowCasesLackColumns, NarrowFilesLackNiAndNl};

/// A symbol's cell is the cell that holds it, in every case.
pub fn cells_and_symbols_are_inverse()
    ensures { CellsAndSymbolsAreInverse }
{}

/// Each text names at most one cell, and each cell has one name.
pub fn names_are_one_to_one()
    ensures { NamesAreOneToOne }
{}

/// The symbol that a file's fault names is the first in its order that stands in an earlier cell.
pub fn doubled_is_first()
    ensures { DoubledIsFirst }
{}

/// Units that descend are each above all later ones.
pub fn descent_is_of_all_pairs()
    ensures { DescentIsOfAllPairs }
{}

/// The columns that a narrow file has not are NI and NL.
pub fn narrow_files_lack_ni_and_nl()
    ensures { NarrowFilesLackNiAndNl }
{}

/// Where a file has not the columns NI and NL, its case holds nothing there, and has neither its space nor a fill
/// there.
pub fn narrow_cases_lack_columns()
    ensures { NarrowCasesLackColumns }
{}
