//! The galley of a copy as text, for a compositor: each line with its figures, each fault at its text with the way out.
//!
//! Faults of the copy come first, since each means that a correction is not shown. Widths are in points to a tenth, in
//! the pica of the wedge. What is free or short is rounded down, and what is too wide is rounded up. So a part of a
//! word that fits by these figures fits.
//!
//! A gauge of 20 steps goes from tight to loose. `<`, `>` and `+` mark a wedge sum outside of them, `+` on a filled
//! line.
//!
//! Where there is no galley one line gives the reason, with all settings that are missing. It refuses only for lack of
//! memory. A terminal may show wide characters, joined ones and those from the right out of column.
#![tactic(auto)]

mod faults;
mod lacking;
pub mod laws;
mod lines;
mod marked;
mod parts;
mod proof;
mod reasons;
mod scale;

pub use faults::{cause, meaning, put_cause, put_way};
pub use lacking::{put_around, put_code, put_name, style_word};
pub use marked::put_marked;
pub use parts::{
    begin_of, put_left, put_number, put_points_down, put_points_up, put_right, put_symbols,
};
pub use proof::{Extent, put_head_words, put_no_galley, put_proof, put_values, scale_of};
pub use reasons::{NoGalley, OtherNumber, missing, other_number, put_reason, why_none};
pub use scale::Scale;
