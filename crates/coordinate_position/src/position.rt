ghost use Rattle.std.specs.Prelude.{◌≡◌};
ghost use Rattle.coordinate_position.specs.Positions.{mod_2};

#[derive(Clone, Copy, PartialEq, Eq, Debug)]
pub enum CoordPos {
    OnBoundary,
    Inside,
    Outside,
}

// What a shape says of a coordinate.
#[derive(Clone, Copy, PartialEq, Eq, Debug)]
pub struct Membership {
    // in the interior of some member
    pub inside: bool,
    // on the boundary of an odd number of members
    pub odd: bool,
}

impl Membership {
    // “The boundary of an arbitrary collection of geometries whose interiors are disjoint consists of geometries drawn
    // from the boundaries of the element geometries by application of the ‘mod 2’ union rule”
    // (OpenGIS Simple Feature Access § 6.1.15.1)
    pub fn position(self) -> CoordPos
        ensures { result ≡ mod_2 self.inside self.odd }
    {
        if self.odd {
            CoordPos::OnBoundary
        } else if self.inside {
            CoordPos::Inside
        } else {
            CoordPos::Outside
        }
    }
}
