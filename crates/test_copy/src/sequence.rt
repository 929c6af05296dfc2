//! The tests of list_pages, desk_seq and desk_blocks, of the slots of desk_held and the room of desk_walk.
mod blocks;
mod numbers;
mod pages;
mod room;
mod seq;
mod slots;
