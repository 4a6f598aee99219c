ghost use Rattle.plane.specs.Points.{On};
ghost use Rattle.plane.specs.Reflects.{Reflects};
ghost use Rattle.plane.specs.Sets.{Common, At, InBox};
ghost use Rattle.scalar.specs.Coords.{grid_point};
ghost use Rattle.geometry.specs.Shapes.{segment};
ghost use Rattle.geometry.specs.Rects.{box};

use crate::Intersects;
use geometry::line::Line;
use geometry::rect::Rect;
use kernel::geo_num::GeoNum;
use scalar::coord::Coord;
use scalar::coord_num::CoordNum;
use scalar::units::Units;

impl<T: CoordNum> Intersects<Coord<T>> for Coord<T> {
    fn intersects(&self, rhs: &Coord<T>) -> bool
        ensures points { Reflects result (Common (At (grid_point T.units self.now)) (At (grid_point T.units rhs.now))) }
    {
        *self == *rhs
    }
}

impl<T: GeoNum> Intersects<Line<T>> for Coord<T> {
    fn intersects(&self, line: &Line<T>) -> bool
        ensures points { Reflects result (Common (At (grid_point T.units self.now)) (On (segment T.units line.now))) }
    {
        line.intersects(self)
    }
}

impl<T: CoordNum> Intersects<Rect<T>> for Coord<T> {
    fn intersects(&self, rect: &Rect<T>) -> bool
        ensures points { Reflects result (Common (At (grid_point T.units self.now)) (InBox (box T.units rect.now))) }
    {
        rect.intersects(self)
    }
}
