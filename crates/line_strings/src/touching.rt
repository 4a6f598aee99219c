// Whether a coordinate touches a segment of a line string.
ghost use Rattle.plane.specs.Points.{Touches, Ranges};
ghost use Rattle.plane.specs.Reach.{read_segment};
ghost use Rattle.plane.specs.Reflects.{Reflects};
ghost use Rattle.scalar.specs.Coords.{grid_point};

use geometry::line::Line;
use intersects::Intersects;
use kernel::geo_num::GeoNum;
use plane::grid_point::GridPoint;
use scalar::coord::Coord;
use scalar::coord_num::{CoordNum, read_units};
use scalar::units::value_in_between;

// Whether the grid point lies between two vertices in both directions.
fn in_ranges(at: GridPoint, start: GridPoint, end: GridPoint) -> bool
    ensures { Reflects result (Ranges (read_segment start end) at.x at.y) }
{
    value_in_between(at.x, read_units(start.x), read_units(end.x))
        && value_in_between(at.y, read_units(start.y), read_units(end.y))
}

// Whether the coordinate touches the segment between two vertices. The ranges are compared before any product is worked
// out.
pub(crate) fn is_touched<T: GeoNum>(start: GridPoint, end: GridPoint, coord: &Coord<T>) -> bool
    ensures { Reflects result (Touches (read_segment start end) (grid_point T.units coord.now)) }
{
    in_ranges(GridPoint::from(*coord), start, end) && Line::from_grid(start, end).intersects(coord)
}
