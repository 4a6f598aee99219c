ghost use Rattle.std.specs.Prelude.{◌≡◌};
ghost use Rattle.plane.specs.Orient.{det, orientation, AtMostTwoTo61};
ghost use Rattle.scalar.specs.Coords.{grid_point};

use crate::signs::{Factors, orientation_of};
use plane::orientation::Orientation;
use scalar::coord::Coord;
use scalar::coord_num::CoordNum;
use scalar::units::Units;

pub trait Kernel<T: CoordNum> {
    // The sign of twice the signed area of the triangle p, q, r, in units: above zero is counter-clockwise.
    fn orient2d(p: Coord<T>, q: Coord<T>, r: Coord<T>) -> Orientation
        ensures turn { result ≡ orientation (det (grid_point T.units p) (grid_point T.units q) (grid_point T.units r)) }
        ensures bounded { AtMostTwoTo61 (det (grid_point T.units p) (grid_point T.units q) (grid_point T.units r)) };
}

// Multiplies.
pub struct SimpleKernel;

impl<T: CoordNum> Kernel<T> for SimpleKernel {
    fn orient2d(p: Coord<T>, q: Coord<T>, r: Coord<T>) -> Orientation
        ensures turn { result ≡ orientation (det (grid_point T.units p) (grid_point T.units q) (grid_point T.units r)) }
        ensures bounded { AtMostTwoTo61 (det (grid_point T.units p) (grid_point T.units q) (grid_point T.units r)) }
    {
        orientation_of(Factors::new(p, q, r).determinant())
    }
}

// Compares the signs of the two products first, and multiplies only where both are positive or both negative.
pub struct ScreeningKernel;

impl<T: CoordNum> Kernel<T> for ScreeningKernel {
    fn orient2d(p: Coord<T>, q: Coord<T>, r: Coord<T>) -> Orientation
        ensures turn { result ≡ orientation (det (grid_point T.units p) (grid_point T.units q) (grid_point T.units r)) }
        ensures bounded { AtMostTwoTo61 (det (grid_point T.units p) (grid_point T.units q) (grid_point T.units r)) }
    {
        Factors::new(p, q, r).screened_orientation()
    }
}
