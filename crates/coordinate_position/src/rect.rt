ghost use Rattle.std.specs.Prelude.{◌≡◌};
ghost use Rattle.plane.specs.Reflects.{Reflects};
ghost use Rattle.plane.specs.Sets.{StrictlyInBox};
ghost use Rattle.polyline.specs.Segments.{OnAny};
ghost use Rattle.scalar.specs.Coords.{grid_point};
ghost use Rattle.geometry.specs.Shapes.{outline};
ghost use Rattle.geometry.specs.Rects.{box};
ghost use Rattle.coordinate_position.specs.Shapes.{membership, box_shape};

use crate::CoordinatePosition;
use crate::position::Membership;
use contains::Contains;
use geometry::rect::Rect;
use intersects::Intersects;
use kernel::geo_num::GeoNum;
use scalar::coord::Coord;
use scalar::coord_num::CoordNum;

// Strictly within is inside, and on a side is on the boundary.
impl<T: GeoNum> CoordinatePosition for Rect<T> {
    type Scalar = T;

    ghost shape = { λ s. box_shape (box T.units s) };

    fn calculate_coordinate_position(&self, coord: &Coord<T>) -> Membership
        ensures value { result ≡ membership (box_shape (box T.units self.now)) (grid_point T.units coord.now) }
        ensures inside { Reflects result.inside (StrictlyInBox (box T.units self.now) (T.units coord.now.x) (T.units coord.now.y) 1) }
        ensures boundary { Reflects result.odd (OnAny (outline (box T.units self.now)) (T.units coord.now.x) (T.units coord.now.y) 1) }
    {
        let inside = self.contains(coord);
        Membership {
            inside,
            odd: !inside && self.intersects(coord),
        }
    }
}
