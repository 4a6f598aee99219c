// Lines, rectangles and triangles over any scalar, and the points that each shape has.
#![tactic(auto)]

pub mod line;
pub mod point_set;
pub mod rect;
pub mod triangle;
