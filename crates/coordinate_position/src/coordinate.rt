ghost use Rattle.std.specs.Prelude.{◌≡◌, false};
ghost use Rattle.plane.specs.Reflects.{Reflects};
ghost use Rattle.scalar.specs.Coords.{grid_point};
ghost use Rattle.coordinate_position.specs.Shapes.{membership, coord_shape};

use crate::CoordinatePosition;
use crate::position::Membership;
use kernel::geo_num::GeoNum;
use scalar::coord::Coord;
use scalar::coord_num::CoordNum;

// Inside where equal.
impl<T: GeoNum> CoordinatePosition for Coord<T> {
    type Scalar = T;

    ghost shape = { λ s. coord_shape (grid_point T.units s) };

    fn calculate_coordinate_position(&self, coord: &Coord<T>) -> Membership
        ensures value { result ≡ membership (coord_shape (grid_point T.units self.now)) (grid_point T.units coord.now) }
        ensures inside { Reflects result.inside (self.now ≡ coord.now) }
        ensures boundary { result.odd ≡ false }
    {
        Membership {
            inside: *self == *coord,
            odd: false,
        }
    }
}
