ghost use Rattle.std.specs.Prelude.{◌≡◌};
ghost use Rattle.scalar.specs.Coords.{grid_point};
ghost use Rattle.coordinate_position.specs.Shapes.{membership, grouped};

use crate::CoordinatePosition;
use crate::position::Membership;
use scalar::coord::Coord;
use scalar::coord_num::CoordNum;

// Two shapes as one.
#[derive(Drop)]
pub struct Group<A, B> {
    pub first: A,
    pub second: B,
}

// Inside if it is inside one of the two; the boundary counts are added.
impl<A: CoordinatePosition, B: CoordinatePosition<Scalar = A::Scalar>> CoordinatePosition
    for Group<A, B> {
    type Scalar = A::Scalar;

    ghost shape = { λ s. grouped (A.CoordinatePosition.shape s.first) (B.CoordinatePosition.shape s.second) };

    fn calculate_coordinate_position(&self, coord: &Coord<A::Scalar>) -> Membership
        ensures value { result ≡ membership (grouped (A.CoordinatePosition.shape self.now.first) (B.CoordinatePosition.shape self.now.second)) (grid_point A.Scalar.units coord.now) }
    {
        let first = self.first.calculate_coordinate_position(coord);
        let second = self.second.calculate_coordinate_position(coord);
        Membership {
            inside: first.inside || second.inside,
            odd: first.odd != second.odd,
        }
    }
}

// What is lent is the same shape, so that a group can hold references.
impl<'a, A: CoordinatePosition> CoordinatePosition for &'a A {
    type Scalar = A::Scalar;

    ghost shape = { λ s. A.CoordinatePosition.shape s.now };

    fn calculate_coordinate_position(&self, coord: &Coord<A::Scalar>) -> Membership
        ensures value { result ≡ membership (A.CoordinatePosition.shape self.now.now) (grid_point A.Scalar.units coord.now) }
    {
        (**self).calculate_coordinate_position(coord)
    }
}
