// Rings and polygons: where a coordinate lies, by the winding number.
#![tactic(auto)]

pub mod fault;
mod passing;
pub mod polygon;
pub mod ring;
