ghost use Rattle.std.specs.Prelude.{◌≡◌};
ghost use Rattle.plane.specs.Reflects.{Reflects};
ghost use Rattle.polyline.specs.Segments.{OnAny};
ghost use Rattle.polyline.specs.Strings.{segments, Closed, AtEnd, StringInterior};
ghost use Rattle.scalar.specs.Coords.{grid_point};
ghost use Rattle.coordinate_position.specs.Shapes.{membership, string_shape};
ghost use Rattle.line_strings.specs.Views.{vertices_of};

use crate::CoordinatePosition;
use crate::position::Membership;
use geometry::line::Line;
use kernel::geo_num::GeoNum;
use line_strings::line_string::LineString;
use scalar::coord::Coord;
use scalar::coord_num::CoordNum;

// Nothing, a coordinate, a line, or the rest: there the first vertex and the last are the boundary unless they are equal,
// and what else touches a segment is inside.
impl<'a, T: GeoNum> CoordinatePosition for LineString<'a, T> {
    type Scalar = T;

    ghost shape = { λ s. string_shape (vertices_of s) };

    fn calculate_coordinate_position(&self, coord: &Coord<T>) -> Membership
        ensures value { result ≡ membership (string_shape (vertices_of self.now)) (grid_point T.units coord.now) }
        ensures inside { Reflects result.inside (StringInterior (vertices_of self.now) (T.units coord.now.x) (T.units coord.now.y) 1) }
        ensures boundary { Reflects result.odd (AtEnd (vertices_of self.now) (T.units coord.now.x) (T.units coord.now.y) 1 × (Closed (vertices_of self.now) → ⊥)) }
    {
        match self.points {
            [] => Membership {
                inside: false,
                odd: false,
            },
            [p] => Coord::from_grid(*p).calculate_coordinate_position(coord),
            [a, b] => Line::from_grid(*a, *b).calculate_coordinate_position(coord),
            _ => position_among_segments(self, coord),
        }
    }
}

// What the segments say, where there are several.
fn position_among_segments<T: GeoNum>(
    line_string: &LineString<'_, T>,
    coord: &Coord<T>,
) -> Membership
    ensures inside { Reflects result.inside (OnAny (segments (vertices_of line_string.now)) (T.units coord.now.x) (T.units coord.now.y) 1 × (AtEnd (vertices_of line_string.now) (T.units coord.now.x) (T.units coord.now.y) 1 → Closed (vertices_of line_string.now))) }
    ensures boundary { Reflects result.odd (AtEnd (vertices_of line_string.now) (T.units coord.now.x) (T.units coord.now.y) 1 × (Closed (vertices_of line_string.now) → ⊥)) }
{
    let ends = is_open_end(line_string, coord);
    Membership {
        inside: !ends && line_string.touches(coord),
        odd: ends,
    }
}

// Whether the coordinate is an end of an open line string. A closed one has no boundary.
fn is_open_end<T: GeoNum>(line_string: &LineString<'_, T>, coord: &Coord<T>) -> bool
    ensures { Reflects result (AtEnd (vertices_of line_string.now) (T.units coord.now.x) (T.units coord.now.y) 1 × (Closed (vertices_of line_string.now) → ⊥)) }
{
    line_string.ends_at(coord) && !line_string.is_closed()
}
