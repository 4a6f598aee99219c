ghost use Rattle.plane.specs.Points.{On};
ghost use Rattle.plane.specs.Reflects.{Reflects};
ghost use Rattle.plane.specs.Sets.{Common, At, InBox};
ghost use Rattle.scalar.specs.Coords.{grid_point};
ghost use Rattle.geometry.specs.Shapes.{segment};
ghost use Rattle.geometry.specs.Rects.{box};

use crate::Intersects;
use geometry::line::Line;
use geometry::rect::Rect;
use kernel::geo_num::GeoNum;
use kernel::kernels::Kernel;
use plane::orientation::Orientation;
use scalar::coord::Coord;
use scalar::coord_num::CoordNum;
use scalar::units::{Units, value_in_range};

impl<T: CoordNum> Intersects<Coord<T>> for Rect<T> {
    fn intersects(&self, rhs: &Coord<T>) -> bool
        ensures points { Reflects result (Common (InBox (box T.units self.now)) (At (grid_point T.units rhs.now))) }
    {
        let min = self.min();
        let max = self.max();
        value_in_range(rhs.x, min.x, max.x) && value_in_range(rhs.y, min.y, max.y)
    }
}

impl<T: CoordNum> Intersects<Rect<T>> for Rect<T> {
    fn intersects(&self, other: &Rect<T>) -> bool
        ensures points { Reflects result (Common (InBox (box T.units self.now)) (InBox (box T.units other.now))) }
    {
        let (min, max) = (self.min(), self.max());
        let (other_min, other_max) = (other.min(), other.max());
        if max.x < other_min.x {
            return false;
        }
        if max.y < other_min.y {
            return false;
        }
        if other_max.x < min.x {
            return false;
        }
        min.y <= other_max.y
    }
}

impl<T: GeoNum> Intersects<Line<T>> for Rect<T> {
    fn intersects(&self, rhs: &Line<T>) -> bool
        ensures points { Reflects result (Common (InBox (box T.units self.now)) (On (segment T.units rhs.now))) }
    {
        if !self.intersects(&Rect::new(rhs.start, rhs.end)) {
            return false;
        }
        // o3--o2
        // |    |
        // o0--o1
        // Does the line through `rhs` pass between two of the corners?
        let c0 = self.min();
        let c2 = self.max();
        let c1 = Coord { x: c2.x, y: c0.y };
        let o0 = T::Ker::orient2d(rhs.start, rhs.end, c0);
        let o1 = T::Ker::orient2d(rhs.start, rhs.end, c1);
        if o0 != o1 {
            return true;
        }
        let o2 = T::Ker::orient2d(rhs.start, rhs.end, c2);
        if o0 != o2 {
            return true;
        }
        let c3 = Coord { x: c0.x, y: c2.y };
        let o3 = T::Ker::orient2d(rhs.start, rhs.end, c3);
        if o0 != o3 {
            return true;
        }
        // All corners are on one side of it, unless one of the two is flat and lies on the other.
        o0 == Orientation::Collinear
    }
}
