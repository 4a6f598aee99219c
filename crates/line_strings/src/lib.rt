// Line strings over vertices that lie as grid points in a slice: their lines, whether they are closed, what touches them
// and which lines they cover.
#![tactic(auto)]

pub mod line_string;
pub mod lines;
mod touching;
mod trimming;
