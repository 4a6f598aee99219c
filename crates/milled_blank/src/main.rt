// One job from beginning to end: the outline of a milled blank and its clamp, taken onto the grid of 1/256 mm, and
// which edges of the outline the clamp touches. Every number and every verdict printed comes from the library.
#![tactic(auto)]

use contains::Contains;
use geometry::rect::Rect;
use intersects::Intersects;
use kernel::geo_num::GeoNum;
use keyed_corners::{OUTLINE, take_corners};
use line_strings::line_string::LineString;
use plane::grid_point::GridPoint;
use scalar::coord::Coord;
use scalar::coord_num::CoordNum;
use scalar::f64_scalar::F64Scalar;
use scalar::i32_scalar::I32Scalar;
use scalar::units::Units;
use std::io;

// Lengths in millimetres that show the step of the grid and the end of its reach.
const LENGTHS: [f64; 4] = [0.00390625, 0.001, 2097152.0, 2097152.00390625];

// Opposite corners of the clamp.
const CLAMP: [(f64, f64); 2] = [(90.0, -5.0), (70.25, 12.5)];

// Prints what a number of millimetres means.
fn print_length(rt: &impl Print, x: f64) -> io::Result<()> {
    match F64Scalar::new(x) {
        Ok(s) => println!(rt; "  {x} mm is {}", s.to_units()),
        Err(fault) => println!(rt; "  {x} mm is refused with {}: {fault}", fault.number()),
    }
}

// The outline of the blank and the clamp that holds it, at any scalar.
#[derive(Drop)]
struct Setup<'a, T: Units> {
    outline: &'a [GridPoint],
    clamp: Rect<T>,
}

impl<'a, T: GeoNum> Setup<'a, T> {
    // The clamp lies between two corners.
    fn new(outline: &'a [GridPoint], a: GridPoint, b: GridPoint) -> Setup<'a, T> {
        Setup {
            outline,
            clamp: Rect::new(Coord::from_grid(a), Coord::from_grid(b)),
        }
    }

    // How many edges of the outline have a point in common with the clamp, by the scalar's own kernel.
    fn count_edges_met(&self) -> usize {
        LineString::new(self.outline)
            .lines()
            .filter(|edge| self.clamp.intersects(edge))
            .count()
    }
}

impl Setup<'_, F64Scalar> {
    fn print_clamp(&self, rt: &impl Print) -> io::Result<()> {
        let (min, max) = (self.clamp.min(), self.clamp.max());
        println!(rt; "The clamp lies from {min} to {max} mm")
    }

    fn print_edges(&self, rt: &impl Print) -> io::Result<()> {
        for edge in LineString::new(self.outline).lines() {
            let verdict = if self.clamp.intersects(&edge) {
                "meets the clamp"
            } else {
                "is clear of the clamp"
            };
            println!(rt; "  {} to {} mm {verdict}", edge.start, edge.end)?;
        }
        Ok(())
    }

    // Prints the corners of the outline that lie strictly within the clamp.
    fn print_clamped(&self, rt: &impl Print) -> io::Result<()> {
        for p in self.outline {
            let corner = Coord::from_grid(*p);
            if self.clamp.contains(&corner) {
                println!(rt; "  {corner} mm lies strictly within the clamp")?;
            }
        }
        Ok(())
    }
}

fn main(rt: HostRuntime) -> io::Result<()> {
    println!(rt; "The grid, in units of 1/256 mm:")?;
    for x in LENGTHS {
        print_length(&rt, x)?;
    }
    println!(rt; "Outline of the blank, as keyed in:")?;
    let outline = take_corners(&rt, rt.alloc(), &OUTLINE)?;
    println!(rt; "Corners of the clamp, as keyed in:")?;
    let clamped = take_corners(&rt, rt.alloc(), &CLAMP)?;
    let &[a, b, ..] = clamped.as_slice() else {
        return println!(rt; "The clamp has no two corners on the grid");
    };
    let in_millimetres = Setup::<F64Scalar>::new(&outline, a, b);
    in_millimetres.print_clamp(&rt)?;
    println!(rt; "Edges of the outline:")?;
    in_millimetres.print_edges(&rt)?;
    in_millimetres.print_clamped(&rt)?;
    println!(rt;
        "Edges that meet the clamp, in f64 millimetres: {}",
        in_millimetres.count_edges_met()
    )?;
    let in_units = Setup::<I32Scalar>::new(&outline, a, b);
    println!(rt;
        "Edges that meet the clamp, in i32 units: {}",
        in_units.count_edges_met()
    )
}
