ghost use Rattle.std.specs.Prelude.{◌≡◌, ◌⊎◌};
ghost use Rattle.plane.specs.Points.{LongerThanZero};
ghost use Rattle.plane.specs.Reflects.{Reflects};
ghost use Rattle.plane.specs.Sets.{Interior};
ghost use Rattle.scalar.specs.Coords.{grid_point};
ghost use Rattle.geometry.specs.Shapes.{segment};
ghost use Rattle.coordinate_position.specs.Shapes.{membership, line_shape};

use crate::CoordinatePosition;
use crate::position::Membership;
use geometry::line::Line;
use intersects::Intersects;
use kernel::geo_num::GeoNum;
use scalar::coord::Coord;
use scalar::coord_num::CoordNum;

// The ends are the boundary, and what else touches is inside; a line of length zero is its coordinate.
impl<T: GeoNum> CoordinatePosition for Line<T> {
    type Scalar = T;

    ghost shape = { λ s. line_shape (segment T.units s) };

    fn calculate_coordinate_position(&self, coord: &Coord<T>) -> Membership
        ensures value { result ≡ membership (line_shape (segment T.units self.now)) (grid_point T.units coord.now) }
        ensures inside { Reflects result.inside (Interior (segment T.units self.now) (T.units coord.now.x) (T.units coord.now.y) 1) }
        ensures boundary { Reflects result.odd (LongerThanZero (segment T.units self.now) × ((grid_point T.units coord.now ≡ (segment T.units self.now).p) ⊎ (grid_point T.units coord.now ≡ (segment T.units self.now).q))) }
    {
        // degenerate case: a coordinate
        if self.start == self.end {
            return self.start.calculate_coordinate_position(coord);
        }
        let ends = is_end(self, coord);
        Membership {
            inside: !ends && self.intersects(coord),
            odd: ends,
        }
    }
}

fn is_end<T: GeoNum>(line: &Line<T>, coord: &Coord<T>) -> bool
    ensures { Reflects result ((grid_point T.units coord.now ≡ (segment T.units line.now).p) ⊎ (grid_point T.units coord.now ≡ (segment T.units line.now).q)) }
{
    *coord == line.start || *coord == line.end
}
