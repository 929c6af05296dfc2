//! What is kept of a page.
ghost use Rattle.std.specs.Prelude.{◌≡◌, ◌+◌, ◌≤◌, ◌<◌, ◌^◌, ℕ, List, ◌++◌, length, slice_index_or, slice_set};
ghost use Rattle.std.specs.List.{insert};

/// The most entries of a page.
pub const FULL: usize = 256;
/// Half of that: what either of the two pages has that a full one is cut into.
pub const HALF: usize = 128;
/// What is free on either side of a page that was cut.
pub const QUARTER: usize = 64;

/// What is kept of each page, so that a search can pass it by.
pub trait Summary<T: Copy>: Copy {
    /// Whether it is true of a list.
    ghost sums_up: { Self → List T → Type 0 };

    /// That of a page.
    fn of(page: &[T]) -> Self
        requires { length page.now ≤ 256 }
        ensures { sums_up result page.now };

    /// That with one entry more, wherever it is put.
    fn with(self, x: T) -> Self
        ensures { (xs : List T) (i : ℕ) → length xs < 2 ^ 48 → i ≤ length xs → sums_up self xs
            → sums_up result (insert xs i x) };

    /// That with one entry written over another, wherever that stands.
    fn replaced(self, old: T, new: T) -> Self
        ensures { (xs : List T) (i : ℕ) → length xs < 2 ^ 48 → i < length xs → old ≡ slice_index_or xs i old
            → sums_up self xs → sums_up result (slice_set xs i new) };

    /// That of two lists in one.
    fn join(self, other: Self) -> Self
        ensures { (xs ys : List T) → length xs + length ys < 2 ^ 48 → sums_up self xs → sums_up other ys
            → sums_up result (xs ++ ys) };
}

/// Nothing is kept.
impl<T: Copy> Summary<T> for () {
    ghost sums_up = { λ s xs. Unit {0} };

    fn of(_page: &[T]) -> () {}

    fn with(self, _x: T) -> () {}

    fn replaced(self, _old: T, _new: T) -> () {}

    fn join(self, _other: ()) -> () {}
}
