// How an edge of a ring passes a coordinate.
ghost use Rattle.std.specs.Prelude.{◌≡◌, ◌≤ℤ◌, ◌<ℤ◌};
ghost use Rattle.plane.specs.Points.{Between};
ghost use Rattle.plane.specs.Reach.{read, read_segment};
ghost use Rattle.plane.specs.Reflects.{Reflects};
ghost use Rattle.scalar.specs.Coords.{grid_point};
ghost use Rattle.polygon.specs.Passings.{Passes};

use kernel::geo_num::GeoNum;
use kernel::kernels::Kernel;
use plane::grid_point::GridPoint;
use plane::orientation::Orientation;
use scalar::coord::Coord;
use scalar::coord_num::{CoordNum, read_units};
use scalar::units::value_in_between;

// An edge touches the coordinate, goes up or down past it on its right, or does neither.
#[derive(Clone, Copy)]
pub(crate) enum Passing {
    Touched,
    Upward,
    Downward,
    Clear,
}

// A coordinate that edges are to pass, and the grid point where it lies.
#[derive(Drop)]
pub(crate) struct Probe<T: GeoNum> {
    coord: Coord<T>,
    at: GridPoint,
    ghost same: { at ≡ grid_point T.units coord },
}

impl<T: GeoNum> Probe<T> {
    pub(crate) fn new(coord: &Coord<T>) -> Probe<T>
        ensures { result.at ≡ grid_point T.units coord.now }
    {
        Probe {
            coord: *coord,
            at: GridPoint::from(*coord),
        }
    }

    // How the edge between two vertices passes the coordinate. The kernel is asked only if the edge reaches the
    // coordinate's y.
    pub(crate) fn pass_edge(&self, start: GridPoint, end: GridPoint) -> Passing
        ensures { Passes result (read_segment start end) self.now.at }
    {
        if !self.is_reached(start, end) {
            return Passing::Clear;
        }
        // Edge Crossing Rules:
        //   1. an upward edge includes its starting endpoint, and excludes its final endpoint;
        //   2. a downward edge excludes its starting endpoint, and includes its final endpoint;
        //   3. horizontal edges are excluded
        //   4. the edge-ray intersection point must be strictly right of the coord.
        match T::Ker::orient2d(Coord::from_grid(start), Coord::from_grid(end), self.coord) {
            Orientation::CounterClockwise if self.is_half_between(start, end) => Passing::Upward,
            Orientation::Clockwise if self.is_half_between(end, start) => Passing::Downward,
            Orientation::Collinear if self.is_beside(start, end) => Passing::Touched,
            _ => Passing::Clear,
        }
    }

    // Whether the coordinate's y lies between those of the vertices.
    fn is_reached(&self, start: GridPoint, end: GridPoint) -> bool
        ensures { Reflects result (Between self.now.at.y (read start.y) (read end.y)) }
    {
        value_in_between(self.at.y, read_units(start.y), read_units(end.y))
    }

    // The same with the lower included and the upper excluded.
    fn is_half_between(&self, low: GridPoint, high: GridPoint) -> bool
        ensures { Reflects result ((read low.y ≤ℤ self.now.at.y) × (self.now.at.y <ℤ read high.y)) }
    {
        read_units(low.y) <= self.at.y && self.at.y < read_units(high.y)
    }

    // Whether the coordinate's x lies between those of the vertices.
    fn is_beside(&self, start: GridPoint, end: GridPoint) -> bool
        ensures { Reflects result (Between self.now.at.x (read start.x) (read end.x)) }
    {
        value_in_between(self.at.x, read_units(start.x), read_units(end.x))
    }
}
