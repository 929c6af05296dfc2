//! The caster as a machine over rows, from the last to the first.
ghost use Rattle.std.specs.Prelude.{◌≡◌, ◌≢◌, ◌+◌, ◌<◌, ◌&&◌, true, is_some, ◌^◌, [], ◌∷◌, ◌++◌, IfOk, IfErr, Ok, Err};
ghost use Rattle.std.specs.Prelude.{Some, None, length, cond, pos, ◌+ℤ◌, ◌-ℤ◌, ◌≤ℤ◌};
ghost use Rattle.desk_caster.specs.Caster.{idle, cast, cast_row, cast_onto, start_line, all_sent, finish, has_matrix};
ghost use Rattle.desk_caster.specs.Caster.{cast_matrix, row_width};
ghost use Rattle.desk_units.specs.WedgeSum.{widening};
ghost use Rattle.desk_caster.specs.Bounds.{in_progress, IsWithin};
ghost use Rattle.desk_caster.specs.Memory.{MayTakeMemory, takes_memory};
ghost use Rattle.desk_caster.specs.declared.CastFault.TheVariants as fault;

use crate::line::Begun;
use crate::{CastFault, CastLine, CastMatrix};
use desk_case::MatrixCase;
use desk_case::names::is_same;
use desk_memory::NoMemory;
use desk_signals::{Cell, Position, RibbonRow, RowNo};
use desk_units::{Atoms, WedgeSum, width};
use desk_wedge::Wedge;
use std::alloc::Allocator;
use std::marker::Model;

/// The caster: the position of the fine wedge, the line in progress, and the lines sent out, in the order met.
#[derive(Drop)]
struct Caster<A: Allocator + Copy> {
    alloc: A,
    fine: Option<Position>,
    line: Option<Begun<A>>,
    sent: Vec<CastLine<A>, A>,
}

impl<A: Allocator + Copy> Model for Caster<A> {
    ghost use Rattle.std.specs.Prelude.{reverse};
    ghost use Rattle.desk_caster.specs.Caster.{State};

    ghost Value = { State };

    ghost view = { λ c. record { fine = c.fine; line = c.line; sent = reverse c.sent.items } };
}

impl<A: Allocator + Copy> Caster<A> {
    /// The caster before its first row.
    fn new(alloc: A) -> Self
        ensures { result ≡ idle }
    {
        Caster {
            alloc,
            fine: None,
            line: None,
            sent: Vec::new(alloc),
        }
    }

    /// Reads the row of this place.
    fn step(
        self,
        case: &MatrixCase,
        wedge: &Wedge,
        place: u32,
        row: RibbonRow,
    ) -> Result<Self, CastFault>
        requires { in_progress self + 1 < 2 ^ 32 }
        ensures ok { IfOk result (λ c. cast_row case.now wedge.now place row self ≡ Ok c) }
        ensures err { IfErr result (λ e. e ≢ fault.NoMemory → cast_row case.now wedge.now place row self ≡ Err e) }
        ensures memory { result ≡ Err fault.NoMemory → takes_memory case.now row self.line ≡ true }
    {
        match row {
            RibbonRow::FineOut(fine) => self.send_out(fine),
            RibbonRow::Coarse(coarse) => self.start(place, coarse),
            RibbonRow::Cell { column, row, s } => self.cast(
                case,
                wedge,
                place,
                Cell { column, row },
                s,
            ),
        }
    }

    /// Sends out the line in progress, if there is one, and sets the fine wedge.
    fn send_out(self, fine: Position) -> Result<Self, CastFault>
        ensures ok { IfOk result (λ c. c
            ≡ record { fine = Some fine; line = None; sent = all_sent self.line self.sent }) }
        ensures err { IfErr result (λ e. e ≡ fault.NoMemory) }
        ensures memory { IfErr result (λ _. is_some self.line ≡ true) }
    {
        let Caster {
            alloc,
            line,
            sent,
            ..
        } = self;
        let sent = match line {
            Some(line) => with_line(sent, line.sent_out())?,
            None => sent,
        };
        Ok(Caster {
            alloc,
            fine: Some(fine),
            line: None,
            sent,
        })
    }

    /// Starts a line.
    fn start(self, place: u32, coarse: Position) -> Result<Self, CastFault>
        ensures ok { IfOk result (λ c. start_line place coarse self.fine self.line self.sent ≡ Ok c) }
        ensures err { IfErr result (λ e. start_line place coarse self.fine self.line self.sent ≡ Err e) }
        ensures memory { result ≢ Err fault.NoMemory }
    {
        let Caster {
            alloc,
            fine,
            line,
            sent,
        } = self;
        match (fine, line) {
            (None, _) => Err(CastFault::NoWedges(place)),
            (Some(_), Some(line)) => Err(CastFault::NotSentOut(line.started())),
            (Some(fine), None) => Ok(Caster {
                alloc,
                fine: Some(fine),
                line: Some(Begun::new(alloc, place, coarse, fine)),
                sent,
            }),
        }
    }

    /// Casts a matrix onto the line in progress.
    fn cast(
        self,
        case: &MatrixCase,
        wedge: &Wedge,
        place: u32,
        cell: Cell,
        s: bool,
    ) -> Result<Self, CastFault>
        requires { in_progress self + 1 < 2 ^ 32 }
        ensures ok { IfOk result (λ c. cast_onto case.now wedge.now place cell s self.fine self.line self.sent ≡ Ok c) }
        ensures err { IfErr result (λ e. e ≢ fault.NoMemory
            → cast_onto case.now wedge.now place cell s self.fine self.line self.sent ≡ Err e) }
        ensures memory { result ≡ Err fault.NoMemory → (is_some self.line && has_matrix case.now cell) ≡ true }
    {
        let Caster {
            alloc,
            fine,
            line,
            sent,
        } = self;
        let Some(line) = line else {
            return Err(CastFault::NoWedges(place));
        };
        if !has_matrix(case, &cell) {
            return Err(CastFault::NoMatrix(place));
        }
        let sum = line.wedge_sum();
        let cast = matrix(case, wedge, sum, &cell, s);
        let line = line.with(cast)?;
        Ok(Caster {
            alloc,
            fine,
            line: Some(line),
            sent,
        })
    }

    /// The lines sent out, where none is in progress.
    fn finish(self) -> Result<Vec<CastLine<A>, A>, CastFault>
        ensures ok { IfOk result (λ v. finish self.line self.sent ≡ Ok v.items) }
        ensures err { IfErr result (λ e. finish self.line self.sent ≡ Err e) }
        ensures memory { result ≢ Err fault.NoMemory }
    {
        let Caster { line, mut sent, .. } = self;
        match line {
            Some(line) => Err(CastFault::NotSentOut(line.started())),
            None => {
                sent.reverse();
                Ok(sent)
            }
        }
    }
}

/// The lines sent out, with one more.
fn with_line<A: Allocator + Copy>(
    sent: Vec<CastLine<A>, A>,
    line: CastLine<A>,
) -> Result<Vec<CastLine<A>, A>, NoMemory>
    ensures { IfOk result (λ v. v.items ≡ sent.items ++ line ∷ []) }
{
    let mut sent = sent;
    sent.push(line)?;
    Ok(sent)
}

/// Whether the case has a symbol, its space or a fill in the cell.
fn has_matrix(case: &MatrixCase, cell: &Cell) -> bool
    ensures { result ≡ has_matrix case.now cell.now }
{
    if case.symbol_at(*cell).is_some() {
        return true;
    }
    if is_same(&case.space(), cell) {
        return true;
    }
    case.is_fill(cell)
}

/// What a cell of the case casts at a wedge sum, with S or without.
fn matrix(case: &MatrixCase, wedge: &Wedge, sum: WedgeSum, cell: &Cell, s: bool) -> CastMatrix
    ensures value { result ≡ cast_matrix case.now wedge.now sum cell.now s }
    ensures width { IsWithin result.width 1 }
{
    CastMatrix {
        cell: *cell,
        s,
        symbol: case.symbol_at(*cell),
        width: matrix_width(wedge, sum, cell.row, s),
    }
}

/// The width of a row's matrix at a wedge sum, with S or without.
fn matrix_width(wedge: &Wedge, sum: WedgeSum, row: RowNo, s: bool) -> Atoms
    ensures value { result ≡ pos (row_width wedge.now row) +ℤ cond s (widening sum) (pos 0) }
    ensures width { IsWithin result 1 }
{
    let units = width(wedge.units(row), wedge.set_q(), wedge.pica());
    if s {
        Atoms::new(units.get() + sum.widening().get())
    } else {
        units
    }
}

/// Casts the rows of a ribbon, given in punched order, at most 4,294,967,295 of them: the lines in reading order, or
/// the first fault that the caster meets. Out of memory may come in place of either where a matrix was to be cast onto
/// a line, or a line to be sent out.
pub fn cast<A: Allocator + Copy>(
    alloc: A,
    rows: &[RibbonRow],
    case: &MatrixCase,
    wedge: &Wedge,
) -> Result<Vec<CastLine<A>, A>, CastFault>
    requires { length rows.now < 2 ^ 32 }
    ensures ok { IfOk result (λ v. cast case.now wedge.now rows.now ≡ Ok v.items) }
    ensures err { IfErr result (λ e. e ≢ fault.NoMemory → cast case.now wedge.now rows.now ≡ Err e) }
    // So rows in which no FineOut stands behind a Coarse take no memory.
    ensures memory { result ≡ Err fault.NoMemory → MayTakeMemory case.now wedge.now rows.now }
{
    let mut caster = Caster::new(alloc);
    let mut place = rows.len();
    'rows: while place > 0 {
        place -= 1;
        caster = caster.step(case, wedge, place as u32, rows[place])?;
    }
    caster.finish()
}
