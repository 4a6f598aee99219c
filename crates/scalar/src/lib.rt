// Scalars and coordinates on the grid of 1/256 millimetre.
#![tactic(auto)]

pub mod coord;
pub mod coord_num;
pub mod f64_scalar;
pub mod fault;
pub mod i32_scalar;
pub mod units;
