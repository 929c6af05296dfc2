//! Marks of styles.

ghost use Rattle.std.specs.Prelude.{◌≡◌};
ghost use Rattle.desk_ops.specs.Op.{same_style};
ghost use Rattle.text_copy.specs.Marks.{is_mark};

use desk_ops::Style;

/// Whether it stands for itself only behind a backslash.
pub fn is_mark(c: char) -> bool
    ensures { result ≡ is_mark c }
{
    matches!(c, '\\' | '^' | '_')
}

pub fn is_same(one: Style, other: Style) -> bool
    ensures { result ≡ same_style one other }
{
    one == other
}
