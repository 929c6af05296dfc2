//! The normal wedge: the units of each row of the matrix case, read from the wedge's file.
//!
//! In the Monotype system the wedge gives all matrices of a row one width, so how wide a symbol is depends on its row
//! alone. The file is TOML; of several faults the first in a fixed order is reported. `keys` reads the keys of such a
//! file, one after another.
#![tactic(auto)]

mod keys;
pub mod laws;

ghost use Rattle.std.specs.Prelude.{◌≡◌, ◌≢◌, ◌≤◌, Ok, Err, None, IfOk, IfErr, IfSome, option_and_then};
ghost use Rattle.std.specs.List.Sorted.{IsNonDecreasing};
ghost use Rattle.desk_wedge.specs.File.{key_name, fault_number, table_fault, pica_of, units_of, first_descent, at_key};
ghost use Rattle.desk_wedge.specs.File.{wedge_of_members, wedge_of};
ghost use Rattle.desk_wedge.specs.Wedge.{units_of_row, IsUnits, AreUnits, IsWedge};
ghost use Rattle.desk_wedge.specs.Keys.{number_of};
ghost use Rattle.desk_wedge.specs.Items.{each_of, so_many};
ghost use Rattle.desk_wedge.specs.declared.WedgeFault.TheVariants as fault;
ghost use Rattle.desk_wedge.specs.declared.WedgeKey.TheVariants as key;
ghost use Rattle.toml.specs.Errors.{IsBlank};
ghost use Rattle.toml.specs.View.{view, items_view, table_view};

use desk_signals::RowNo;
use desk_units::{Pica, SetQ};
pub use keys::{TableFault, member, table, whole_number};
use std::alloc::Global;
use std::marker::Model;
use thiserror::Error;
use toml::{Table, Value};

/// A key of a wedge file.
#[derive(Clone, Copy, Debug, PartialEq, Eq)]
pub enum WedgeKey {
    Wedge,
    SetQ,
    Pica,
    Units,
}

impl WedgeKey {
    /// What the file calls it.
    pub fn name(self) -> &'static str
        ensures { result.now ≡ key_name self }
    {
        match self {
            WedgeKey::Wedge => "wedge",
            WedgeKey::SetQ => "set_q",
            WedgeKey::Pica => "pica",
            WedgeKey::Units => "units",
        }
    }
}

/// Why a file is no wedge: the first fault that holds, or out of memory.
#[derive(Clone, Copy, Debug, PartialEq, Eq, Error)]
pub enum WedgeFault {
    #[error("the file is not TOML")]
    NotToml,
    #[error("`{}` is missing", .0.name())]
    Missing(WedgeKey),
    #[error("`{}` is of another type, length or value", .0.name())]
    Range(WedgeKey),
    #[error("row {} has fewer units than the row before", .0.get())]
    Descending(RowNo),
    #[error("no memory")]
    NoMemory,
}

impl WedgeFault {
    /// The number of the fault; out of memory has none.
    pub fn number(self) -> Option<u8>
        ensures { result ≡ fault_number self }
    {
        match self {
            WedgeFault::NotToml => Some(1),
            WedgeFault::Missing(_) => Some(2),
            WedgeFault::Range(_) => Some(3),
            WedgeFault::Descending(_) => Some(4),
            WedgeFault::NoMemory => None,
        }
    }
}

impl From<TableFault> for WedgeFault {
    ghost use Rattle.std.specs.Prelude.{◌≡◌};
    ghost use Rattle.desk_wedge.specs.File.{table_fault};

    ghost from_gives = { λ table fault. fault ≡ table_fault table };

    fn from(fault: TableFault) -> WedgeFault {
        match fault {
            TableFault::NotToml => WedgeFault::NotToml,
            TableFault::NoMemory => WedgeFault::NoMemory,
        }
    }
}

/// A normal wedge: a number, a set and 15 rows of units in their ranges, and the units never fall.
#[derive(Clone, Copy, Debug, PartialEq, Eq)]
pub struct Wedge {
    number: u16,
    set_q: SetQ,
    pica: Pica,
    units: [u8; 15],
}

impl Model for Wedge {
    ghost use Rattle.desk_wedge.specs.Wedge.{WedgeValues, IsWedge};

    ghost Value = { WedgeValues };

    ghost view = { λ w. record { number = w.number; set_q = w.set_q; pica = w.pica; units = w.units } };

    ghost invariant = { λ w. IsWedge (record { number = w.number; set_q = w.set_q; pica = w.pica; units = w.units }) };

    ghost inverse = { λ w. record { number = w.number; set_q = w.set_q; pica = w.pica; units = w.units } };
}

impl Wedge {
    /// The number of the wedge, 1 to 65535.
    pub fn number(&self) -> u16
        ensures { result ≡ self.now.number }
    {
        self.number
    }

    /// The set in quarter points.
    pub fn set_q(&self) -> SetQ
        ensures { result ≡ self.now.set_q }
    {
        self.set_q
    }

    /// The pica that the set is of.
    pub fn pica(&self) -> Pica
        ensures { result ≡ self.now.pica }
    {
        self.pica
    }

    /// The units of the matrices in a row, 1 to 24.
    pub fn units(&self, row: RowNo) -> u8
        ensures value { result ≡ units_of_row self.now row }
        ensures range { IsUnits result }
        ensures lawful { IsWedge self.now }
    {
        self.units[row.get() as usize - 1]
    }
}

/// The pica that a text names.
fn pica(value: &Value) -> Option<Pica>
    ensures { result ≡ pica_of (view value.now) }
{
    match value.as_str() {
        Some("sixth") => Some(Pica::Sixth),
        Some("american") => Some(Pica::American),
        _ => None,
    }
}

/// The units of 15 rows.
fn units(value: &Value) -> Option<[u8; 15]>
    ensures value { result ≡ units_of (view value.now) }
    ensures each { IfSome result AreUnits }
{
    match value.as_array() {
        Some(items) => rows(items),
        None => None,
    }
}

/// The units that 15 items are.
fn rows(items: &[Value]) -> Option<[u8; 15]>
    ensures value { result ≡ option_and_then (so_many 15 15) (each_of (number_of 1 24) (items_view items.now)) }
    ensures each { IfSome result AreUnits }
{
    let mut units = [0; 15];
    if items.len() != 15 {
        return None;
    }
    for (at, item) in items.iter().enumerate() {
        match whole_number(item, 1, 24) {
            Some(number) => units[at] = number as u8,
            None => return None,
        }
    }
    Some(units)
}

/// The first row whose units are fewer than those of the row before.
fn first_descent(units: &[u8; 15]) -> Option<RowNo>
    ensures { result ≡ first_descent units.now }
{
    let mut before = 0;
    for (at, unit) in units.iter().enumerate() {
        if *unit < before {
            return RowNo::new(at as u8 + 1);
        }
        before = *unit;
    }
    None
}

/// The number at a key.
fn number_at(table: &Table, key: WedgeKey, low: u16, high: u16) -> Result<u16, WedgeFault>
    ensures value { result ≡ at_key key (number_of low high) (table_view table.now) }
    ensures range { IfOk result (λ n. (low ≤ n) × (n ≤ high)) }
{
    let value = member(table, key.name()).ok_or(WedgeFault::Missing(key))?;
    whole_number(value, low, high).ok_or(WedgeFault::Range(key))
}

impl Wedge {
    /// Reads a wedge file: its values, or its first fault. Out of memory may come in place of either.
    pub fn read(alloc: Global, bytes: &[u8]) -> Result<Wedge, WedgeFault>
        ensures ok { IfOk result (λ w. wedge_of bytes.now ≡ Ok w) }
        ensures err { IfErr result (λ e. e ≢ fault.NoMemory → wedge_of bytes.now ≡ Err e) }
        ensures memory { result ≡ Err fault.NoMemory → ¬ IsBlank bytes.now }
    {
        let table = crate::table(alloc, bytes)?;
        Wedge::from_table(&table)
    }

    /// The wedge that a document gives.
    fn from_table(table: &Table) -> Result<Wedge, WedgeFault>
        ensures { result ≡ wedge_of_members (table_view table.now) }
    {
        let number = number_at(table, WedgeKey::Wedge, 1, 65535)?;
        let set_q = set_at(table)?;
        let pica = pica_at(table)?;
        let units = units_at(table)?;
        match first_descent(&units) {
            None => Ok(Wedge {
                number,
                set_q,
                pica,
                units,
            }),
            Some(row) => Err(WedgeFault::Descending(row)),
        }
    }
}

/// The set at its key.
fn set_at(table: &Table) -> Result<SetQ, WedgeFault>
    ensures value { result ≡ at_key key.SetQ (number_of 20 96) (table_view table.now) }
    ensures range { IfOk result (λ q. (20 ≤ q) × (q ≤ 96)) }
{
    let quarters = number_at(table, WedgeKey::SetQ, 20, 96)?;
    SetQ::new(quarters as u8).ok_or(WedgeFault::Range(WedgeKey::SetQ))
}

/// The pica at its key.
fn pica_at(table: &Table) -> Result<Pica, WedgeFault>
    ensures { result ≡ at_key key.Pica pica_of (table_view table.now) }
{
    let value = member(table, WedgeKey::Pica.name()).ok_or(WedgeFault::Missing(WedgeKey::Pica))?;
    pica(value).ok_or(WedgeFault::Range(WedgeKey::Pica))
}

/// The units at their key.
fn units_at(table: &Table) -> Result<[u8; 15], WedgeFault>
    ensures value { result ≡ at_key key.Units units_of (table_view table.now) }
    ensures each { IfOk result AreUnits }
{
    let value = member(table, WedgeKey::Units.name()).ok_or(WedgeFault::Missing(WedgeKey::Units))?;
    units(value).ok_or(WedgeFault::Range(WedgeKey::Units))
}
