//! What the caster makes of a ribbon from anywhere: its lines as text, with marks where galleys end, or figures of
//! them, or its first fault; its holes as a picture; and the lines in which two ribbons differ.
//!
//! It reads the ribbon or the two, the case and the wedge, in this order, and takes no name. A file has at most
//! 67,108,864 bytes.
//!
//! A width is in points, rounded down to a tenth; what a line lacks of the longest is rounded up. So only a line as
//! wide as the longest lacks `0.0`. Rows count from 0 in punched order, though the caster goes from the last to the
//! first. Lines count from 1.
//!
//! The picture is SVG: the paper has 31 channels, and the last row of the ribbon comes first. Each row has its place, a
//! circle for each signal, and its meaning by the case. Rows that the caster would not cast are drawn too. The rows of
//! some lines are one stretch, and each keeps its place in the whole.
//!
//! Two ribbons differ in a line by what is cast: the positions of the wedges, and the cell and S of each matrix.
//!
//! It refuses a file that it cannot read, and a case or a wedge with a fault. A ribbon with a fault has one line, of
//! that fault. A picture refuses bytes that are no ribbon, and a target of another kind, unless the caller forces it.
#![tactic(auto)]

mod casting;
mod channels;
mod comparing;
mod differences;
mod drawing;
mod ends;
mod extent;
mod fault;
mod faults;
mod figures;
pub mod laws;
mod lines;
mod parts;
mod picture;
mod reading;
mod reported;
mod rows;
mod sources;
mod stretch;

pub use comparing::{Pair, compare_ribbons};
pub use drawing::draw_ribbon;
pub use extent::{Extent, Lines, Pitch};
pub use fault::{ComparisonFault, ReadingFault, SourcesFault};
pub use faults::{put_cast_fault, put_ribbon_fault};
pub use figures::put_summary;
pub use picture::put_holes;
pub use reading::read_job;
pub use reported::reported_of;
pub use sources::{Sources, take_in};
