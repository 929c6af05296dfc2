//! How a proof is written.

/// What of a galley is written, and in which form.
#[derive(Clone, Copy, PartialEq, Eq, Debug)]
pub enum Form {
    /// Each line, and then the faults at their text.
    Whole,
    /// The faults alone, at their text.
    Faults,
    /// The faults alone, each on one line behind its place in the text, as editors read it.
    Located,
}

/// A form, and whether second looks come below the faults.
#[derive(Clone, Copy, PartialEq, Eq, Debug)]
pub struct Manner {
    pub form: Form,
    pub looks: bool,
}
