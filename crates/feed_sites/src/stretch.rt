//! Points in two copies, and the words between two of them.

ghost use Rattle.std.specs.Prelude.{◌≡◌};
ghost use Rattle.feed_sites.specs.Stretches.{begins_word, ends_word, is_whole};

use desk_ops::Symbol;

/// A place in each of two copies, from 0.
#[derive(Clone, Copy, Debug, PartialEq, Eq)]
pub struct Point {
    pub one: usize,
    pub other: usize,
}

/// The symbols of two copies between two points.
#[derive(Clone, Copy, Debug, PartialEq, Eq)]
pub struct Stretch {
    pub from: Point,
    pub to: Point,
}

impl Point {
    /// Where two copies begin.
    pub const START: Point = Point { one: 0, other: 0 };
}

/// Whether a symbol, if there is one, ends a word.
fn ends_word(symbol: Option<Symbol>) -> bool
    ensures { result ≡ ends_word symbol }
{
    match symbol {
        Some(symbol) => symbol.is_space() || symbol.is_line_feed(),
        None => false,
    }
}

/// Whether a word begins at a place of a copy: at its start, or behind a space or a line feed.
pub fn begins_word(copy: &[Symbol], place: usize) -> bool
    ensures { result ≡ begins_word copy.now place }
{
    place == 0 || ends_word(copy.get(place - 1).copied())
}

/// Whether words are whole at a point: in both copies one begins there, or both end.
pub fn is_whole(one: &[Symbol], other: &[Symbol], point: Point) -> bool
    ensures { result ≡ is_whole one.now other.now point }
{
    (begins_word(one, point.one) && begins_word(other, point.other))
        || (point.one == one.len() && point.other == other.len())
}
