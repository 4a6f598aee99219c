ghost use Rattle.std.specs.Prelude.{◌≡◌};
ghost use Rattle.plane.specs.Reach.{read_segment};
ghost use Rattle.geometry.specs.Shapes.{segment};

use plane::grid_point::GridPoint;
use scalar::coord::Coord;
use scalar::coord_num::CoordNum;

// A line segment, whose ends may be equal.
#[derive(Clone, Copy, Debug)]
pub struct Line<T> {
    pub start: Coord<T>,
    pub end: Coord<T>,
}

impl<T: CoordNum> Line<T> {
    pub fn new(start: Coord<T>, end: Coord<T>) -> Line<T>
        ensures { (result.start ≡ start) × (result.end ≡ end) }
    {
        Line { start, end }
    }

    // The line that two grid points are read as.
    pub fn from_grid(start: GridPoint, end: GridPoint) -> Line<T>
        ensures { segment T.units result ≡ read_segment start end }
    {
        Line {
            start: Coord::from_grid(start),
            end: Coord::from_grid(end),
        }
    }
}
