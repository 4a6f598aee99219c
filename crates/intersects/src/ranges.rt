// Coordinates between two others.
ghost use Rattle.plane.specs.Points.{Between};
ghost use Rattle.plane.specs.Reflects.{Reflects};

use scalar::coord::Coord;
use scalar::units::{Units, value_in_between};

// Whether the coordinate lies in the rectangle with the two bounds as opposite corners.
pub(crate) fn point_in_rect<T: Units>(value: Coord<T>, bound_1: Coord<T>, bound_2: Coord<T>) -> bool
    ensures { Reflects result (Between (T.units value.x) (T.units bound_1.x) (T.units bound_2.x) × Between (T.units value.y) (T.units bound_1.y) (T.units bound_2.y)) }
{
    value_in_between(value.x, bound_1.x, bound_2.x)
        && value_in_between(value.y, bound_1.y, bound_2.y)
}
