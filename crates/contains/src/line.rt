ghost use Rattle.plane.specs.Points.{On, Touches};
ghost use Rattle.plane.specs.Reflects.{Reflects, Iff};
ghost use Rattle.plane.specs.Sets.{Common, Subset, At, Interior, ContainsByEnds};
ghost use Rattle.polyline.specs.Strings.{OnString, SegmentContainsString};
ghost use Rattle.scalar.specs.Coords.{grid_point};
ghost use Rattle.geometry.specs.Shapes.{segment};
ghost use Rattle.line_strings.specs.Views.{vertices_of};

use crate::Contains;
use geometry::line::Line;
use intersects::Intersects;
use kernel::geo_num::GeoNum;
use line_strings::line_string::LineString;
use scalar::coord::Coord;
use scalar::coord_num::CoordNum;

// A touching coordinate other than the ends; of a line of length zero, its coordinate.
impl<T: GeoNum> Contains<Coord<T>> for Line<T> {
    fn contains(&self, coord: &Coord<T>) -> bool
        ensures points { Reflects result (Subset (At (grid_point T.units coord.now)) (On (segment T.units self.now)) × Common (At (grid_point T.units coord.now)) (Interior (segment T.units self.now))) }
        ensures rule { Reflects result (Interior (segment T.units self.now) (T.units coord.now.x) (T.units coord.now.y) 1) }
    {
        if self.start == self.end {
            self.start == *coord
        } else {
            *coord != self.start && *coord != self.end && self.intersects(coord)
        }
    }
}

// A longer line whose ends touch, and a line of length zero as its coordinate. That both ends touch means that every
// point of the line does.
impl<T: GeoNum> Contains<Line<T>> for Line<T> {
    fn contains(&self, line: &Line<T>) -> bool
        ensures points { Reflects result (Subset (On (segment T.units line.now)) (On (segment T.units self.now)) × Common (On (segment T.units line.now)) (Interior (segment T.units self.now))) }
        ensures rule { Reflects result (ContainsByEnds (segment T.units self.now) (segment T.units line.now)) }
        ensures ends { Iff (Touches (segment T.units self.now) (grid_point T.units line.now.start) × Touches (segment T.units self.now) (grid_point T.units line.now.end)) (Subset (On (segment T.units line.now)) (On (segment T.units self.now))) }
    {
        if line.start == line.end {
            self.contains(&line.start)
        } else {
            self.intersects(&line.start) && self.intersects(&line.end)
        }
    }
}

// A line string that has a vertex and whose vertices all touch, and are contained if all are equal.
impl<'a, T: GeoNum> Contains<LineString<'a, T>> for Line<T> {
    fn contains(&self, line_string: &LineString<'a, T>) -> bool
        ensures points { Reflects result (Subset (OnString (vertices_of line_string.now)) (On (segment T.units self.now)) × Common (OnString (vertices_of line_string.now)) (Interior (segment T.units self.now))) }
        ensures rule { Reflects result (SegmentContainsString (segment T.units self.now) (vertices_of line_string.now)) }
    {
        let [first, ..] = line_string.points else {
            return false;
        };
        let first = Coord::from_grid(*first);
        // Nothing else is read if it does not touch, however many vertices equal it.
        if !self.intersects(&first) {
            return false;
        }
        if line_string.all_equal() {
            self.contains(&first)
        } else {
            line_string
                .points
                .iter()
                .all(|point| self.intersects(&Coord::from_grid(*point)))
        }
    }
}
