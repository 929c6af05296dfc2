//! Shown elements, and parts of four lists of them.

ghost use Rattle.std.specs.Prelude.{◌≡◌};
ghost use Rattle.feed_readings.specs.Cuts.{is_white};

use desk_ops::{Stamp, Symbol};

/// An element that a copy shows.
#[derive(Clone, Copy, Debug, PartialEq, Eq)]
pub struct Shown {
    pub stamp: Stamp,
    pub symbol: Symbol,
}

/// A place in each of four lists, from 0: what two copies have in common, the one, the other, and what both make.
#[derive(Clone, Copy, Debug, PartialEq, Eq)]
pub struct Point {
    pub base: usize,
    pub one: usize,
    pub other: usize,
    pub both: usize,
}

/// A part of four lists, from one point up to another.
#[derive(Clone, Copy, Debug, PartialEq, Eq)]
pub struct Reading {
    pub from: Point,
    pub to: Point,
}

impl Point {
    /// Where four lists begin.
    pub const START: Point = Point {
        base: 0,
        one: 0,
        other: 0,
        both: 0,
    };
}

/// Whether the symbol is a space or a line feed.
pub fn is_white(symbol: Symbol) -> bool
    ensures { result ≡ is_white symbol }
{
    symbol.is_space() || symbol.is_line_feed()
}
