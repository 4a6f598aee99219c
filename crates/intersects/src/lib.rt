// Which shapes intersect: whether they have a rational point in common.
#![tactic(auto)]

pub mod coordinate;
pub mod line;
mod ranges;
pub mod rect;

ghost use Rattle.plane.specs.Reflects.{Reflects};
ghost use Rattle.plane.specs.Sets.{Common};

use geometry::point_set::PointSet;

pub trait Intersects<Rhs: PointSet>: PointSet {
    fn intersects(&self, rhs: &Rhs) -> bool
        ensures points { Reflects result (Common (Self.PointSet.points self.now) (Rhs.PointSet.points rhs.now)) };
}
