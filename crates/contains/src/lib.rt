// Which shapes contain others: every point of the inner one is a point of the outer one, and some point of the inner
// one is in the outer one's interior.
#![tactic(auto)]

pub mod line;
pub mod line_string;
mod ranges;
pub mod rect;

ghost use Rattle.plane.specs.Reflects.{Reflects};
ghost use Rattle.plane.specs.Sets.{Common, Subset};

use geometry::point_set::PointSet;

pub trait Contains<Rhs: PointSet>: PointSet {
    fn contains(&self, rhs: &Rhs) -> bool
        ensures points { Reflects result (Subset (Rhs.PointSet.points rhs.now) (Self.PointSet.points self.now) × Common (Rhs.PointSet.points rhs.now) (Self.PointSet.interior self.now)) };
}
