// Tests of line strings, positions, groups, rings and polygons on tables of examples, at both scalars.
#![tactic(auto)]

#[cfg(test)]
mod containments;
#[cfg(test)]
mod groups;
#[cfg(test)]
mod linestrings;
#[cfg(test)]
mod polygons;
#[cfg(test)]
mod positions;
#[cfg(test)]
mod rings;
#[cfg(test)]
mod tables;

use geometry::line::Line;
use plane::grid_point::GridPoint;
use scalar::coord::Coord;
use scalar::coord_num::CoordNum;

pub(crate) fn point(x: i32, y: i32) -> GridPoint {
    GridPoint { x, y }
}

pub(crate) fn at<T: CoordNum>(p: GridPoint) -> Coord<T> {
    Coord::from_grid(p)
}

pub(crate) fn line<T: CoordNum>(a: GridPoint, b: GridPoint) -> Line<T> {
    Line::from_grid(a, b)
}
