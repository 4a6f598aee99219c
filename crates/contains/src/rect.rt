ghost use Rattle.std.specs.Prelude.{◌<ℤ◌};
ghost use Rattle.plane.specs.Reflects.{Reflects, Iff};
ghost use Rattle.plane.specs.Sets.{Common, Subset, At, InBox, StrictlyInBox, WithinBounds};
ghost use Rattle.scalar.specs.Coords.{grid_point};
ghost use Rattle.geometry.specs.Rects.{box};

use crate::Contains;
use crate::ranges::{range_reaches_into, range_within, value_strictly_in_range};
use geometry::rect::Rect;
use scalar::coord::Coord;
use scalar::coord_num::CoordNum;
use scalar::units::Units;

// A coordinate strictly within.
impl<T: CoordNum> Contains<Coord<T>> for Rect<T> {
    fn contains(&self, coord: &Coord<T>) -> bool
        ensures points { Reflects result (Subset (At (grid_point T.units coord.now)) (InBox (box T.units self.now)) × Common (At (grid_point T.units coord.now)) (StrictlyInBox (box T.units self.now))) }
        ensures rule { Reflects result (StrictlyInBox (box T.units self.now) (T.units coord.now.x) (T.units coord.now.y) 1) }
    {
        strictly_within(*coord, self)
    }
}

// A rectangle within the closed bounds, of which some point is strictly within. That the closed bounds lie within means
// that every point does.
impl<T: CoordNum> Contains<Rect<T>> for Rect<T> {
    fn contains(&self, other: &Rect<T>) -> bool
        ensures points { Reflects result (Subset (InBox (box T.units other.now)) (InBox (box T.units self.now)) × Common (InBox (box T.units other.now)) (StrictlyInBox (box T.units self.now))) }
        ensures rule { Reflects result (WithinBounds (box T.units self.now) (box T.units other.now) × Common (InBox (box T.units other.now)) (StrictlyInBox (box T.units self.now))) }
        ensures bounds { Iff (WithinBounds (box T.units self.now) (box T.units other.now)) (Subset (InBox (box T.units other.now)) (InBox (box T.units self.now))) }
    {
        within_bounds(self, other) && reaches_into(self, other)
    }
}

// Whether the coordinate lies past the low corner and short of the high one, in both directions.
fn strictly_within<T: CoordNum>(coord: Coord<T>, rect: &Rect<T>) -> bool
    ensures { Reflects result (StrictlyInBox (box T.units rect.now) (T.units coord.x) (T.units coord.y) 1) }
{
    let (min, max) = (rect.min(), rect.max());
    value_strictly_in_range(coord.x, min.x, max.x) && value_strictly_in_range(coord.y, min.y, max.y)
}

// Whether the closed bounds of the inner rectangle lie within those of the outer.
fn within_bounds<T: CoordNum>(outer: &Rect<T>, inner: &Rect<T>) -> bool
    ensures { Reflects result (WithinBounds (box T.units outer.now) (box T.units inner.now)) }
{
    let (min, max) = (outer.min(), outer.max());
    let (inner_min, inner_max) = (inner.min(), inner.max());
    range_within(inner_min.x, inner_max.x, min.x, max.x)
        && range_within(inner_min.y, inner_max.y, min.y, max.y)
}

// Whether the inner rectangle reaches past the sides of the outer into its inside, in both directions.
fn reaches_into<T: CoordNum>(outer: &Rect<T>, inner: &Rect<T>) -> bool
    ensures { Reflects result (((box T.units outer.now).min.x <ℤ (box T.units inner.now).max.x) × ((box T.units inner.now).min.x <ℤ (box T.units outer.now).max.x) × ((box T.units outer.now).min.y <ℤ (box T.units inner.now).max.y) × ((box T.units inner.now).min.y <ℤ (box T.units outer.now).max.y)) }
{
    let (min, max) = (outer.min(), outer.max());
    let (inner_min, inner_max) = (inner.min(), inner.max());
    range_reaches_into(inner_min.x, inner_max.x, min.x, max.x)
        && range_reaches_into(inner_min.y, inner_max.y, min.y, max.y)
}
