ghost use Rattle.std.specs.Prelude.{◌≡◌};
ghost use Rattle.plane.specs.Reflects.{Reflects};
ghost use Rattle.polyline.specs.Segments.{OnAny, Covered};
ghost use Rattle.polyline.specs.Strings.{segments, Closed, AllEqual, AtEnd, OnString, StringInterior};
ghost use Rattle.geometry.specs.Shapes.{segment};
ghost use Rattle.line_strings.specs.Views.{vertices_of};

use crate::lines::Lines;
use crate::touching::is_touched;
use crate::trimming::Target;
use geometry::line::Line;
use geometry::point_set::PointSet;
use kernel::geo_num::GeoNum;
use plane::grid_point::GridPoint;
use scalar::coord::Coord;
use scalar::coord_num::CoordNum;
use std::marker::PhantomData;

// Vertices that lie as grid points in a slice, seen at a scalar, with a segment between neighbours. None or one has no
// segment.
#[derive(Clone, Copy)]
pub struct LineString<'a, T> {
    pub points: &'a [GridPoint],
    scalar: PhantomData<T>,
}

impl<'a, T: GeoNum> LineString<'a, T> {
    pub fn new(points: &'a [GridPoint]) -> LineString<'a, T>
        ensures { result.points.now ≡ points.now }
    {
        LineString {
            points,
            scalar: PhantomData,
        }
    }

    // The lines between neighbouring vertices.
    pub fn lines(&self) -> Lines<'a, T>
        ensures { result.points.now ≡ self.now.points.now }
    {
        Lines::new(self.points)
    }

    // Whether the first vertex equals the last; none or one is closed.
    pub fn is_closed(&self) -> bool
        ensures { Reflects result (Closed (vertices_of self.now)) }
    {
        match self.points {
            [first, .., last] => Coord::<T>::from_grid(*first) == Coord::<T>::from_grid(*last),
            _ => true,
        }
    }

    // Whether all vertices are equal, so that no segment is longer than zero.
    pub fn all_equal(&self) -> bool
        ensures { Reflects result (AllEqual (vertices_of self.now)) }
    {
        let [first, rest @ ..] = self.points else {
            return true;
        };
        let first = Coord::<T>::from_grid(*first);
        rest.iter().all(|point| Coord::from_grid(*point) == first)
    }

    // Whether the coordinate is the first vertex or the last.
    pub fn ends_at(&self, coord: &Coord<T>) -> bool
        ensures { Reflects result (AtEnd (vertices_of self.now) (T.units coord.now.x) (T.units coord.now.y) 1) }
    {
        match self.points {
            [] => false,
            [only] => Coord::from_grid(*only) == *coord,
            [first, .., last] => {
                Coord::from_grid(*first) == *coord || Coord::from_grid(*last) == *coord
            }
        }
    }

    // Whether the coordinate touches some segment.
    pub fn touches(&self, coord: &Coord<T>) -> bool
        ensures { Reflects result (OnAny (segments (vertices_of self.now)) (T.units coord.now.x) (T.units coord.now.y) 1) }
    {
        self.points
            .array_windows::<2>()
            .any(|[start, end]| is_touched(*start, *end, coord))
    }

    // Whether each point of the line lies on some segment.
    pub fn covers(&self, line: &Line<T>) -> bool
        ensures { Reflects result (Covered (segments (vertices_of self.now)) (segment T.units line.now)) }
    {
        if line.start == line.end {
            self.touches(&line.start)
        } else {
            Target::new(line).is_covered_by(self.points)
        }
    }
}

impl<'a, T: GeoNum> PointSet for LineString<'a, T> {
    ghost points = { λ s. OnString (vertices_of s) };

    ghost interior = { λ s. StringInterior (vertices_of s) };
}
