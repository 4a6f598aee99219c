// Tests of the scalars, the kernels, the shapes and their relations on examples, at both scalars, and of keyed corners.
#![tactic(auto)]

#[cfg(test)]
mod containments;
#[cfg(test)]
mod keyed;
#[cfg(test)]
mod meetings;
#[cfg(test)]
mod orientations;
#[cfg(test)]
mod scalars;
#[cfg(test)]
mod shapes;

use geometry::line::Line;
use geometry::rect::Rect;
use plane::grid_point::GridPoint;
use scalar::coord::Coord;
use scalar::coord_num::CoordNum;

// Shapes by their units, at any scalar.
pub(crate) fn at<T: CoordNum>(x: i32, y: i32) -> Coord<T> {
    Coord::from_grid(GridPoint { x, y })
}

pub(crate) fn line<T: CoordNum>(ax: i32, ay: i32, bx: i32, by: i32) -> Line<T> {
    Line::new(at(ax, ay), at(bx, by))
}

pub(crate) fn rect<T: CoordNum>(ax: i32, ay: i32, bx: i32, by: i32) -> Rect<T> {
    Rect::new(at(ax, ay), at(bx, by))
}
