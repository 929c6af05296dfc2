//! The matrix case: which symbol each of its cells holds, read from the case's file.
//!
//! In the Monotype system the case is moved until the wanted matrix stands over the mould; a row of the ribbon names
//! its column and its row. The file is TOML; of several faults the first in a fixed order is reported.
#![tactic(auto)]

pub mod laws;
pub mod names;
mod read;
mod texts;

ghost use Rattle.std.specs.Prelude.{◌≡◌, ◌≢◌, Ok, Err, Some, None, IfOk, IfErr, IfSome, All};
ghost use Rattle.toml.specs.Errors.{IsBlank};
ghost use Rattle.desk_case.specs.File.{key_name, fault_number, table_fault, case_of, checked, is_descending};
ghost use Rattle.desk_case.specs.File.{units_of_cells};
ghost use Rattle.desk_case.specs.Case.{symbol_at, cell_of, is_fill, IsCase};
ghost use Rattle.desk_case.specs.declared.CaseFault.TheVariants as fault;

use desk_ops::Symbol;
use desk_signals::Cell;
use desk_wedge::{TableFault, Wedge};
use indexmap::IndexMap;
use std::alloc::{AllocError, AllocFailed, Global};
use std::marker::Model;
use thiserror::Error;

/// The columns of a case: A to O, NI and NL. The last two are blank where the case's file does not have them.
pub const COLUMNS: usize = 17;

/// The columns of a file without NI and NL.
const NARROW: usize = 15;

/// The rows of a case.
pub const ROWS: usize = 15;

/// A key of a case file.
#[derive(Clone, Copy, Debug, PartialEq, Eq)]
pub enum CaseKey {
    Case,
    Rows,
    Space,
    Fill,
}

impl CaseKey {
    /// What the file calls it.
    pub fn name(self) -> &'static str
        ensures { result.now ≡ key_name self }
    {
        match self {
            CaseKey::Case => "case",
            CaseKey::Rows => "rows",
            CaseKey::Space => "space",
            CaseKey::Fill => "fill",
        }
    }
}

/// Why a file is no case, or a case does not go with a wedge: the first fault that holds, or out of memory.
#[derive(Clone, Copy, Debug, PartialEq, Eq, Error)]
pub enum CaseFault {
    #[error("the file is not TOML")]
    NotToml,
    #[error("`{}` is missing", .0.name())]
    Missing(CaseKey),
    #[error("`{}` is of another type, number, length or name", .0.name())]
    Shape(CaseKey),
    #[error("cell {0} has a text that is no symbol")]
    BadText(Cell),
    #[error("{0} stands in two cells")]
    Doubled(Symbol),
    #[error("cell {0}, the space or a fill, holds a symbol")]
    NotBlank(Cell),
    #[error("the units of the fills do not descend")]
    FillOrder,
    #[error("no memory")]
    NoMemory,
}

impl CaseFault {
    /// The number of the fault; out of memory has none.
    pub fn number(self) -> Option<u8>
        ensures { result ≡ fault_number self }
    {
        match self {
            CaseFault::NotToml => Some(1),
            CaseFault::Missing(_) => Some(2),
            CaseFault::Shape(_) => Some(3),
            CaseFault::BadText(_) => Some(4),
            CaseFault::Doubled(_) => Some(5),
            CaseFault::NotBlank(_) => Some(6),
            CaseFault::FillOrder => Some(7),
            CaseFault::NoMemory => None,
        }
    }
}

impl From<TableFault> for CaseFault {
    ghost use Rattle.std.specs.Prelude.{◌≡◌};
    ghost use Rattle.desk_case.specs.File.{table_fault};

    ghost from_gives = { λ table fault. fault ≡ table_fault table };

    fn from(fault: TableFault) -> CaseFault {
        match fault {
            TableFault::NotToml => CaseFault::NotToml,
            TableFault::NoMemory => CaseFault::NoMemory,
        }
    }
}

impl From<AllocError> for CaseFault {
    ghost use Rattle.std.specs.Prelude.{◌≡◌};
    ghost use Rattle.desk_case.specs.declared.CaseFault.TheVariants as fault;

    ghost from_gives = { λ _ why. why ≡ fault.NoMemory };

    fn from(_error: AllocError) -> CaseFault {
        CaseFault::NoMemory
    }
}

impl<T: Drop> From<AllocFailed<T>> for CaseFault {
    ghost use Rattle.std.specs.Prelude.{◌≡◌};
    ghost use Rattle.desk_case.specs.declared.CaseFault.TheVariants as fault;

    ghost from_gives = { λ _ why. why ≡ fault.NoMemory };

    fn from(_error: AllocFailed<T>) -> CaseFault {
        CaseFault::NoMemory
    }
}

/// A matrix case: its number and its cells are in their ranges, no symbol stands in two cells, and the cells of its
/// space and of its 1 to 4 fills are blank.
pub struct MatrixCase {
    number: u16,
    grid: Vec<Option<Symbol>>,
    cells: IndexMap<Symbol, Cell>,
    space: Cell,
    fill: Vec<Cell>,
}

// Written out: what drops one calls this, and does not take it apart once more.
impl Drop for MatrixCase {
    fn drop(self) {
        let MatrixCase {
            number: _,
            grid,
            cells,
            space: _,
            fill,
        } = self;
        drop(grid);
        drop(cells);
        drop(fill);
    }
}

impl Model for MatrixCase {
    ghost use Rattle.desk_case.specs.Case.{CaseValues, IsCase, IsIndexOf};

    ghost Value = { CaseValues };

    ghost view = { λ c. record { number = c.number; grid = c.grid.items; space = c.space; fill = c.fill.items } };

    ghost invariant = { λ c. IsCase (record {
      number = c.number;
      grid = c.grid.items;
      space = c.space;
      fill = c.fill.items;
    }) × IsIndexOf c.cells.entries c.grid.items };
}

impl MatrixCase {
    /// The number of the case, 1 to 65535.
    pub fn number(&self) -> u16
        ensures { result ≡ self.now.number }
    {
        self.number
    }

    /// The cell that holds a symbol.
    pub fn cell_of(&self, symbol: Symbol) -> Option<Cell>
        ensures value { result ≡ cell_of self.now symbol }
        ensures back { IfSome result (λ cell. symbol_at self.now cell ≡ Some symbol) }
    {
        self.cells.get(&symbol).copied()
    }

    /// The symbol that a cell holds.
    pub fn symbol_at(&self, cell: Cell) -> Option<Symbol>
        ensures value { result ≡ symbol_at self.now cell }
        ensures back { IfSome result (λ symbol. cell_of self.now symbol ≡ Some cell) }
        ensures lawful { IsCase self.now }
    {
        read::held(self.grid.as_slice(), &cell)
    }

    /// The cell of the space, which holds no symbol.
    pub fn space(&self) -> Cell
        ensures value { result ≡ self.now.space }
        ensures blank { symbol_at self.now result ≡ None }
    {
        self.space
    }

    /// The cells of the fills, 1 to 4, as the file has them; `check` looks whether each is wider than the next. None
    /// holds a symbol.
    pub fn fill(&self) -> &[Cell]
        ensures value { result.now ≡ self.now.fill }
        ensures blank { All (λ cell. symbol_at self.now cell ≡ None) result.now }
        ensures lawful { IsCase self.now }
    {
        self.fill.as_slice()
    }

    /// Whether a fill is in the cell.
    pub fn is_fill(&self, cell: &Cell) -> bool
        ensures { result ≡ is_fill self.now cell.now }
    {
        self.fill().iter().any(|fill| names::is_same(cell, fill))
    }

    /// Whether the units of the fills descend strictly, and else `FillOrder`.
    pub fn check(&self, wedge: &Wedge) -> Result<(), CaseFault>
        ensures { result ≡ checked wedge.now self.now }
    {
        if descend(wedge, self.fill.as_slice()) {
            Ok(())
        } else {
            Err(CaseFault::FillOrder)
        }
    }

    /// Reads a case file: its values, or its first fault, which is never `FillOrder`. Out of memory may come in place
    /// of either.
    pub fn read(alloc: Global, bytes: &[u8]) -> Result<MatrixCase, CaseFault>
        ensures ok { IfOk result (λ c. case_of bytes.now ≡ Ok c) }
        ensures err { IfErr result (λ e. e ≢ fault.NoMemory → case_of bytes.now ≡ Err e) }
        ensures order { result ≢ Err fault.FillOrder }
        ensures memory { result ≡ Err fault.NoMemory → ¬ IsBlank bytes.now }
    {
        let table = desk_wedge::table(alloc, bytes)?;
        read::case(alloc, &table)
    }
}

/// Whether the units of some cells descend strictly.
fn descend(wedge: &Wedge, cells: &[Cell]) -> bool
    ensures { result ≡ is_descending (units_of_cells wedge.now cells.now) }
{
    let [first, rest @ ..] = cells else {
        return true;
    };
    let mut before = wedge.units(first.row);
    for cell in rest {
        let units = wedge.units(cell.row);
        if units >= before {
            return false;
        }
        before = units;
    }
    true
}
