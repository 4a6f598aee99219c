// The plane in whole units: what its segments, boxes and sets of rational points are, and the theorems about them.
// There is no code here but the two types that the definitions of specs/ speak of.
#![tactic(auto)]

pub mod grid_point;
pub mod orientation;
