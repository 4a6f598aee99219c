ghost use Rattle.std.specs.Prelude.{◌⊎◌};
ghost use Rattle.plane.specs.Points.{On, Touches, Ranges};
ghost use Rattle.plane.specs.Reflects.{Reflects};
ghost use Rattle.plane.specs.Sets.{Common, At, InBox};
ghost use Rattle.scalar.specs.Coords.{grid_point};
ghost use Rattle.geometry.specs.Shapes.{segment};
ghost use Rattle.geometry.specs.Rects.{box};

use crate::Intersects;
use crate::ranges::point_in_rect;
use geometry::line::Line;
use geometry::rect::Rect;
use kernel::geo_num::GeoNum;
use kernel::kernels::Kernel;
use plane::orientation::Orientation;
use scalar::coord::Coord;
use scalar::coord_num::CoordNum;
use scalar::units::Units;

// A coordinate that touches the line.
impl<T: GeoNum> Intersects<Coord<T>> for Line<T> {
    fn intersects(&self, rhs: &Coord<T>) -> bool
        ensures points { Reflects result (Common (On (segment T.units self.now)) (At (grid_point T.units rhs.now))) }
        ensures touches { Reflects result (Touches (segment T.units self.now) (grid_point T.units rhs.now)) }
    {
        // on the line through both ends, and between them in both directions
        T::Ker::orient2d(self.start, self.end, *rhs) == Orientation::Collinear
            && point_in_rect(*rhs, self.start, self.end)
    }
}

// Of two lines on one line: whether an end of `line` lies in the rectangle of `l`, or the end of `l` in that of `line`.
fn overlap_along<T: CoordNum>(l: &Line<T>, line: &Line<T>) -> bool
    ensures { Reflects result (Ranges (segment T.units l.now) (T.units line.now.start.x) (T.units line.now.start.y) ⊎ (Ranges (segment T.units l.now) (T.units line.now.end.x) (T.units line.now.end.y) ⊎ Ranges (segment T.units line.now) (T.units l.now.end.x) (T.units l.now.end.y))) }
{
    point_in_rect(line.start, l.start, l.end)
        || point_in_rect(line.end, l.start, l.end)
        || point_in_rect(l.end, line.start, line.end)
}

impl<T: GeoNum> Intersects<Line<T>> for Line<T> {
    fn intersects(&self, line: &Line<T>) -> bool
        ensures points { Reflects result (Common (On (segment T.units self.now)) (On (segment T.units line.now))) }
    {
        // Special case: self is a point.
        if self.start == self.end {
            return line.intersects(&self.start);
        }
        let check_1_1 = T::Ker::orient2d(self.start, self.end, line.start);
        let check_1_2 = T::Ker::orient2d(self.start, self.end, line.end);
        if check_1_1 != check_1_2 {
            // The ends of `line` lie on both sides of self: do those of self lie on both sides of `line`?
            let check_2_1 = T::Ker::orient2d(line.start, line.end, self.start);
            let check_2_2 = T::Ker::orient2d(line.start, line.end, self.end);
            check_2_1 != check_2_2
        } else if check_1_1 == Orientation::Collinear {
            overlap_along(self, line)
        } else {
            false
        }
    }
}

impl<T: GeoNum> Intersects<Rect<T>> for Line<T> {
    fn intersects(&self, rhs: &Rect<T>) -> bool
        ensures points { Reflects result (Common (On (segment T.units self.now)) (InBox (box T.units rhs.now))) }
    {
        rhs.intersects(self)
    }
}
