//! What is written of a ribbon that is cast.

ghost use Rattle.std.specs.Prelude.{◌≡◌};
ghost use Rattle.view_ribbon.specs.Extent.{is_shown};

/// Lines of a ribbon by their numbers, from 1: the first and the last, both included. Where the last comes before the
/// first there are none.
#[derive(Clone, Copy, Debug, PartialEq, Eq)]
pub struct Lines {
    pub first: u64,
    pub last: u64,
}

/// The way of a row in inches, as a fraction. One that has nothing under it is as one over 1.
#[derive(Clone, Copy, Debug, PartialEq, Eq)]
pub struct Pitch {
    pub over: u16,
    pub under: u16,
}

/// What is written of a ribbon that is cast, below the line of its head.
#[derive(Clone, Copy, Debug, PartialEq, Eq)]
pub enum Extent {
    /// All lines, or these alone.
    Lines(Option<Lines>),
    /// Figures in place of the lines, by the way of a row.
    Figures(Pitch),
}

/// Whether a line of this number is shown.
pub fn is_shown(lines: Option<Lines>, number: u64) -> bool
    ensures { result ≡ is_shown lines number }
{
    match lines {
        Some(lines) => lines.first <= number && number <= lines.last,
        None => true,
    }
}
