// Where a coordinate lies: inside a shape, on its boundary, or outside; for shapes of any make and groups of them.
#![tactic(auto)]

pub mod alike;
pub mod coordinate;
pub mod group;
pub mod line;
pub mod line_string;
pub mod position;
pub mod rect;
pub mod triangle;

ghost use Rattle.std.specs.Prelude.{◌≡◌};
ghost use Rattle.scalar.specs.Coords.{grid_point};
ghost use Rattle.coordinate_position.specs.Shapes.{Shape, membership, position as position_in};

use crate::position::{CoordPos, Membership};
use kernel::geo_num::GeoNum;
use scalar::coord::Coord;
use scalar::coord_num::CoordNum;

// A shape, by what it says of every coordinate.
pub trait CoordinatePosition {
    type Scalar: GeoNum;

    // what the shape means
    ghost shape: { Self → Shape };

    fn calculate_coordinate_position(&self, coord: &Coord<Self::Scalar>) -> Membership
        ensures value { result ≡ membership (shape self.now) (grid_point Self.Scalar.units coord.now) };

    // The position by the mod 2 rule.
    fn coordinate_position(&self, coord: &Coord<Self::Scalar>) -> CoordPos
        ensures { result ≡ position_in (shape self.now) (grid_point Self.Scalar.units coord.now) }
    {
        self.calculate_coordinate_position(coord).position()
    }
}
