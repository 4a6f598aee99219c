ghost use Rattle.plane.specs.Points.{On, LongerThanZero};
ghost use Rattle.plane.specs.Reflects.{Reflects};
ghost use Rattle.plane.specs.Sets.{Common, Subset, At};
ghost use Rattle.polyline.specs.Segments.{Covered};
ghost use Rattle.polyline.specs.Strings.{segments, OnString, StringInterior, StringContainsSegment, StringContainsString};
ghost use Rattle.scalar.specs.Coords.{grid_point};
ghost use Rattle.geometry.specs.Shapes.{segment};
ghost use Rattle.line_strings.specs.Views.{vertices_of};

use crate::Contains;
use geometry::line::Line;
use kernel::geo_num::GeoNum;
use line_strings::line_string::LineString;
use scalar::coord::Coord;
use scalar::coord_num::CoordNum;

// The first vertex and the last exactly if it is closed, even where another segment passes; any other coordinate that
// touches a segment.
impl<'a, T: GeoNum> Contains<Coord<T>> for LineString<'a, T> {
    fn contains(&self, coord: &Coord<T>) -> bool
        ensures points { Reflects result (Subset (At (grid_point T.units coord.now)) (OnString (vertices_of self.now)) × Common (At (grid_point T.units coord.now)) (StringInterior (vertices_of self.now))) }
        ensures rule { Reflects result (StringInterior (vertices_of self.now) (T.units coord.now.x) (T.units coord.now.y) 1) }
    {
        if self.ends_at(coord) {
            self.is_closed()
        } else {
            self.touches(coord)
        }
    }
}

// A longer line that is covered, and a line of length zero as its coordinate.
impl<'a, T: GeoNum> Contains<Line<T>> for LineString<'a, T> {
    fn contains(&self, line: &Line<T>) -> bool
        ensures points { Reflects result (Subset (On (segment T.units line.now)) (OnString (vertices_of self.now)) × Common (On (segment T.units line.now)) (StringInterior (vertices_of self.now))) }
        ensures rule { Reflects result (StringContainsSegment (vertices_of self.now) (segment T.units line.now)) }
    {
        if line.start == line.end {
            self.contains(&line.start)
        } else {
            self.covers(line)
        }
    }
}

// A line string that has a vertex and whose longer segments are all covered; if it has none, its first vertex decides.
impl<'a, 'b, T: GeoNum> Contains<LineString<'b, T>> for LineString<'a, T> {
    fn contains(&self, rhs: &LineString<'b, T>) -> bool
        ensures points { Reflects result (Subset (OnString (vertices_of rhs.now)) (OnString (vertices_of self.now)) × Common (OnString (vertices_of rhs.now)) (StringInterior (vertices_of self.now))) }
        ensures rule { Reflects result (StringContainsString (vertices_of self.now) (vertices_of rhs.now)) }
    {
        let [first, ..] = rhs.points else {
            return false;
        };
        if rhs.all_equal() {
            self.contains(&Coord::from_grid(*first))
        } else {
            rhs.lines().all(|line| is_point_or_covered(self, &line))
        }
    }
}

// Whether the line is covered, if it is longer than zero.
fn is_point_or_covered<T: GeoNum>(line_string: &LineString<'_, T>, line: &Line<T>) -> bool
    ensures { Reflects result (LongerThanZero (segment T.units line.now) → Covered (segments (vertices_of line_string.now)) (segment T.units line.now)) }
{
    line.start == line.end || line_string.covers(line)
}
