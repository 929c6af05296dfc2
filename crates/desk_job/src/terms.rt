//! What the lines of a job are set by, and the widths that follow. What is kept in `Terms` is tested once, when they
//! are made.

ghost use Rattle.std.specs.Prelude.{◌≡◌, ◌≤◌, ◌*◌, ◌+ℤ◌, ◌≤ℤ◌, ℤ, pos, length, take, All, [], ◌∷◌, IfOk, IfErr, OnOk};
ghost use Rattle.std.specs.Option.{option_to_list};
ghost use Rattle.desk_units.specs.WedgeSum.{IsWedgeSum, widening};
ghost use Rattle.desk_caster.specs.Caster.{row_width};
ghost use Rattle.desk_wedge.specs.Wedge.{IsWedge};
ghost use Rattle.desk_job.specs.Job as job;
ghost use Rattle.desk_job.specs.Terms.{AreLawful, IsSmall, IsUsable, longest_measure, widest_at_neutral};
ghost use Rattle.desk_lines.specs.Groups.{IsWidth, widest_matrix};
ghost use Rattle.desk_lines.specs.Words.{most_symbols};
ghost use Rattle.desk_justify.specs.Filled.{ArePositive, Descend};

use crate::JobFault;
use desk_case::MatrixCase;
use desk_ops::Symbol;
use desk_signals::Cell;
use desk_units::{Atoms, WedgeSum, measure, width};
use desk_wedge::Wedge;
use std::marker::Model;

/// The case, the wedge, the measure in points, and the least and the greatest wedge sum. A space at the least sum is
/// wider than 0, and the fills descend.
#[derive(Drop)]
pub struct Terms<'a> {
    case: &'a MatrixCase,
    wedge: &'a Wedge,
    points: u32,
    tight: WedgeSum,
    loose: WedgeSum,
    fills: [Atoms; 4],
}

impl<'a> Model for Terms<'a> {
    ghost use Rattle.desk_job.specs.Job as job;
    ghost use Rattle.desk_job.specs.Terms.{IsUsable};
    ghost use Rattle.std.specs.Prelude.{◌≡◌, length, take};

    ghost Value = { job.Terms };

    ghost view = { λ t. record {
      case = t.case.now;
      wedge = t.wedge.now;
      points = t.points;
      tight = t.tight;
      loose = t.loose;
    } };

    ghost invariant = { λ t. IsUsable (record {
      case = t.case.now;
      wedge = t.wedge.now;
      points = t.points;
      tight = t.tight;
      loose =
          t.loose;
    }) × (take (length t.case.now.fill) t.fills ≡ job.widths_of t.wedge.now t.case.now.fill) };
}

/// The width of a cell's matrix at neutral.
fn cell_width(wedge: &Wedge, cell: &Cell) -> Atoms
    ensures value { result ≡ pos (row_width wedge.now cell.now.row) }
    ensures small { IsSmall result }
    ensures lawful { IsWedge wedge.now }
{
    width(wedge.units(cell.row), wedge.set_q(), wedge.pica())
}

/// The widths of the fills in the first places of an array.
fn widths_of_fills(wedge: &Wedge, cells: &[Cell]) -> [Atoms; 4]
    requires { length cells.now ≤ 4 }
    ensures { take (length cells.now) result ≡ job.widths_of wedge.now cells.now }
{
    let mut widths = [Atoms::new(0); 4];
    for (i, cell) in cells.iter().enumerate() {
        widths[i] = cell_width(wedge, cell);
    }
    widths
}

/// A width that is not negative as a number of atoms.
pub fn whole(width: Atoms) -> u64
    requires { pos 0 ≤ℤ width }
    ensures { pos result ≡ width }
{
    width.get() as u64
}

/// The values of the settings of a job.
#[derive(Clone, Copy, PartialEq, Eq, Debug)]
pub struct Values {
    pub measure: u32,
    pub tight: u32,
    pub loose: u32,
    pub case: u32,
    pub wedge: u32,
}

/// The width of a space that is so much wider.
fn widened(space: Atoms, sum: WedgeSum) -> Atoms
    requires { IsSmall space }
    ensures value { result ≡ space +ℤ widening sum }
    ensures limit { result ≤ℤ pos widest_matrix }
{
    Atoms::new(space.get() + sum.widening().get())
}

/// The wedge sum of a setting's value.
fn sum_of_value(value: u32) -> WedgeSum
    requires { IsWedgeSum value }
    ensures { result ≡ value }
{
    WedgeSum::new(value).unwrap()
}

/// Why values, case and wedge don't go together, if so; the space has this width at neutral.
fn terms_fault(case: &MatrixCase, wedge: &Wedge, values: Values, space: Atoms) -> Option<JobFault>
    requires values { AreLawful values }
    requires space { space ≡ pos (row_width wedge.now case.now.space.row) }
    requires small { IsSmall space }
    ensures { option_to_list result ≡ job.terms_fault (job.terms_of case.now wedge.now values) values }
{
    if values.case != case.number() as u32 {
        Some(JobFault::OtherCase)
    } else if values.wedge != wedge.number() as u32 {
        Some(JobFault::OtherWedge)
    } else if values.tight > values.loose {
        Some(JobFault::Crossed)
    } else if case.check(wedge).is_err() {
        Some(JobFault::FillOrder)
    } else if widened(space, sum_of_value(values.tight)).get() <= 0 {
        Some(JobFault::SpaceVanishes)
    } else {
        None
    }
}

impl<'a> Terms<'a> {
    /// The terms of these values, or why they don't go together.
    pub fn new(
        case: &'a MatrixCase,
        wedge: &'a Wedge,
        values: Values,
    ) -> Result<Terms<'a>, JobFault>
        requires { AreLawful values }
        ensures ok { IfOk result (λ t. t ≡ job.terms_of case.now wedge.now values) }
        ensures usable { IfOk result IsUsable }
        ensures none { OnOk result (job.terms_fault (job.terms_of case.now wedge.now values) values ≡ []) }
        ensures err { IfErr result
            (λ fault. job.terms_fault (job.terms_of case.now wedge.now values) values ≡ fault ∷ []) }
    {
        let space = cell_width(wedge, &case.space());
        match terms_fault(case, wedge, values, space) {
            Some(fault) => Err(fault),
            None => Ok(Terms {
                case,
                wedge,
                points: values.measure,
                tight: sum_of_value(values.tight),
                loose: sum_of_value(values.loose),
                fills: widths_of_fills(wedge, case.fill()),
            }),
        }
    }

    /// The measure.
    pub fn measure(&self) -> Atoms
        ensures value { result ≡ pos (job.measure self.now) }
        ensures limit { job.measure self.now ≤ longest_measure }
    {
        measure(self.points, self.wedge.pica())
    }

    /// A space at neutral.
    pub fn space(&self) -> u64
        ensures value { result ≡ job.space_width self.now }
        ensures limit { result ≤ widest_at_neutral }
    {
        whole(cell_width(self.wedge, &self.case.space()))
    }

    /// A space at the least wedge sum.
    pub fn tight_space(&self) -> Atoms
        ensures value { result ≡ job.tight_space self.now }
        ensures some { pos 1 ≤ℤ result }
        ensures limit { result ≤ℤ pos widest_matrix }
    {
        widened(cell_width(self.wedge, &self.case.space()), self.tight)
    }

    /// The least wedge sum.
    pub fn tight(&self) -> WedgeSum
        ensures { result ≡ self.now.tight }
    {
        self.tight
    }

    /// The greatest wedge sum.
    pub fn loose(&self) -> WedgeSum
        ensures value { result ≡ self.now.loose }
        ensures range { IsWedgeSum self.now.loose }
    {
        self.loose
    }

    /// The case. It and all other terms are in their ranges, the fills descend, and a space at the least wedge sum is
    /// wider than 0.
    pub fn case(&self) -> &MatrixCase
        ensures value { result.now ≡ self.now.case }
        ensures usable { IsUsable self.now }
    {
        self.case
    }

    /// The width of a symbol; one that the case lacks has none.
    pub fn symbol_width(&self, symbol: Symbol) -> u64
        ensures value { result ≡ job.symbol_width self.now symbol }
        ensures limit { result ≤ widest_matrix }
    {
        match self.case.cell_of(symbol) {
            Some(cell) => whole(cell_width(self.wedge, &cell)),
            None => 0,
        }
    }

    /// The width of symbols one after the other.
    pub fn symbols_width(&self, symbols: &[Symbol]) -> Atoms
        requires { length symbols.now ≤ most_symbols }
        ensures value { result ≡ pos (job.word_width self.now symbols.now) }
        ensures within { IsWidth result }
    {
        let mut total = 0;
        for symbol in symbols {
            total += self.symbol_width(*symbol);
        }
        Atoms::new(total as i64)
    }

    /// The widths of the fills.
    pub fn fill_widths(&self) -> &[Atoms]
        ensures value { result.now ≡ job.fill_widths self.now }
        ensures some { 1 ≤ length result.now }
        ensures four { length result.now ≤ 4 }
        ensures small { All IsSmall result.now }
        ensures positive { ArePositive result.now }
        ensures descending { Descend result.now }
    {
        &self.fills[..self.case.fill().len()]
    }
}
