// The sign of the determinant, in whole units.
ghost use Rattle.std.specs.Prelude.{◌≡◌, ◌-ℤ◌, ◌*ℤ◌};
ghost use Rattle.std.specs.Int.{int_signum};
ghost use Rattle.plane.specs.Orient.{orientation, AtMostTwoTo61};
ghost use Rattle.plane.specs.Reach.{Within};
ghost use Rattle.kernel.specs.Signs.{Difference};

use plane::grid_point::GridPoint;
use plane::orientation::Orientation;
use scalar::coord::Coord;
use scalar::coord_num::CoordNum;
use scalar::units::Units;
use std::cmp::Ordering;

// The factors of the determinant's two products: it is a * b - c * e.
#[derive(Clone, Copy)]
pub(crate) struct Factors {
    a: i64,
    b: i64,
    c: i64,
    e: i64,
    ghost bounded: { Difference a × Difference b × Difference c × Difference e },
}

// a - b.
fn difference(a: i32, b: i32) -> i64
    requires { Within a × Within b }
    ensures { (result ≡ a -ℤ b) × Difference result }
{
    a as i64 - b as i64
}

pub(crate) fn orientation_of(d: i64) -> Orientation
    ensures { result ≡ orientation d }
{
    match d.cmp(&0) {
        Ordering::Greater => Orientation::CounterClockwise,
        Ordering::Less => Orientation::Clockwise,
        Ordering::Equal => Orientation::Collinear,
    }
}

// The sign of a * b, without multiplying: -1, 0 or 1.
fn product_sign(a: i64, b: i64) -> i64
    ensures { result ≡ int_signum (a *ℤ b) }
{
    if a > 0 {
        b.signum()
    } else if a < 0 {
        -b.signum()
    } else {
        0
    }
}

impl Factors {
    // Those of the turn from p by q to r.
    pub(crate) fn new<T: CoordNum>(p: Coord<T>, q: Coord<T>, r: Coord<T>) -> Factors
        ensures { (result.a ≡ T.units q.x -ℤ T.units p.x) × (result.b ≡ T.units r.y -ℤ T.units q.y) × (result.c ≡ T.units q.y -ℤ T.units p.y) × (result.e ≡ T.units r.x -ℤ T.units q.x) }
    {
        let (p, q, r) = (GridPoint::from(p), GridPoint::from(q), GridPoint::from(r));
        Factors {
            a: difference(q.x, p.x),
            b: difference(r.y, q.y),
            c: difference(q.y, p.y),
            e: difference(r.x, q.x),
        }
    }

    pub(crate) fn determinant(self) -> i64
        ensures { (result ≡ (self.a *ℤ self.b) -ℤ (self.c *ℤ self.e)) × AtMostTwoTo61 result }
    {
        self.a * self.b - self.c * self.e
    }

    // The orientation that the determinant tells, with the products worked out only where both are positive or both
    // negative.
    pub(crate) fn screened_orientation(self) -> Orientation
        ensures turn { result ≡ orientation ((self.a *ℤ self.b) -ℤ (self.c *ℤ self.e)) }
        ensures bounded { AtMostTwoTo61 ((self.a *ℤ self.b) -ℤ (self.c *ℤ self.e)) }
    {
        let left = product_sign(self.a, self.b);
        let right = product_sign(self.c, self.e);
        if left > right {
            Orientation::CounterClockwise
        } else if left < right {
            Orientation::Clockwise
        } else if left == 0 {
            Orientation::Collinear
        } else {
            orientation_of(self.determinant())
        }
    }
}
