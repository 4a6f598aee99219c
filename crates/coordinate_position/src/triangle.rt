ghost use Rattle.std.specs.Prelude.{◌≡◌};
ghost use Rattle.plane.specs.Points.{Touches};
ghost use Rattle.plane.specs.Reflects.{Reflects};
ghost use Rattle.polyline.specs.Segments.{OnAny};
ghost use Rattle.scalar.specs.Coords.{grid_point};
ghost use Rattle.geometry.specs.Shapes.{sides};
ghost use Rattle.coordinate_position.specs.Shapes.{membership, TurnAlike, TurnsAgree, triangle_shape};

use crate::CoordinatePosition;
use crate::position::Membership;
use geometry::line::Line;
use geometry::triangle::Triangle;
use intersects::Intersects;
use kernel::geo_num::GeoNum;
use kernel::kernels::Kernel;
use plane::orientation::Orientation;
use scalar::coord::Coord;
use scalar::coord_num::CoordNum;

// Past all three sides the same way is inside, and on a side is on the boundary; a flat triangle has no inside.
impl<T: GeoNum> CoordinatePosition for Triangle<T> {
    type Scalar = T;

    ghost shape = { λ s. triangle_shape (grid_point T.units s.v1) (grid_point T.units s.v2) (grid_point T.units s.v3) };

    fn calculate_coordinate_position(&self, coord: &Coord<T>) -> Membership
        ensures value { result ≡ membership (triangle_shape (grid_point T.units self.now.v1) (grid_point T.units self.now.v2) (grid_point T.units self.now.v3)) (grid_point T.units coord.now) }
        ensures inside { Reflects result.inside (TurnsAgree (grid_point T.units self.now.v1) (grid_point T.units self.now.v2) (grid_point T.units self.now.v3) (grid_point T.units coord.now)) }
        ensures boundary { Reflects result.odd (OnAny (sides (grid_point T.units self.now.v1) (grid_point T.units self.now.v2) (grid_point T.units self.now.v3)) (T.units coord.now.x) (T.units coord.now.y) 1) }
    {
        let o12 = T::Ker::orient2d(self.v1, self.v2, *coord);
        let o23 = T::Ker::orient2d(self.v2, self.v3, *coord);
        let o31 = T::Ker::orient2d(self.v3, self.v1, *coord);
        Membership {
            inside: turn_alike(o12, o23, o31),
            odd: touches_a_side(self, coord),
        }
    }
}

// Whether the three are equal and not collinear.
fn turn_alike(a: Orientation, b: Orientation, c: Orientation) -> bool
    ensures { Reflects result (TurnAlike a b c) }
{
    a == b && b == c && a != Orientation::Collinear
}

fn touches_a_side<T: GeoNum>(triangle: &Triangle<T>, coord: &Coord<T>) -> bool
    ensures { Reflects result (OnAny (sides (grid_point T.units triangle.now.v1) (grid_point T.units triangle.now.v2) (grid_point T.units triangle.now.v3)) (T.units coord.now.x) (T.units coord.now.y) 1) }
{
    touches_side(triangle.v1, triangle.v2, coord)
        || touches_side(triangle.v2, triangle.v3, coord)
        || touches_side(triangle.v3, triangle.v1, coord)
}

// Whether the coordinate touches the side from `start` to `end`.
fn touches_side<T: GeoNum>(start: Coord<T>, end: Coord<T>, coord: &Coord<T>) -> bool
    ensures { Reflects result (Touches (record { p = grid_point T.units start; q = grid_point T.units end }) (grid_point T.units coord.now)) }
{
    Line::new(start, end).intersects(coord)
}
