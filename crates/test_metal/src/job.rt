//! The tests of desk_caster, desk_job and view_galley.
mod cases;
mod casting;
mod galleys;
mod growths;
mod jobs;
mod large;
mod wide;
