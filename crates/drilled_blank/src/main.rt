// Where holes that are to be drilled lie in a milled blank: its outline and its window are taken onto the grid of 1/256
// mm, and each hole is told by the rule that decides it. Every number and every verdict printed comes from the library.
#![tactic(auto)]

use coordinate_position::CoordinatePosition;
use coordinate_position::position::CoordPos;
use kernel::geo_num::GeoNum;
use keyed_corners::{OUTLINE, take_corners};
use line_strings::line_string::LineString;
use plane::grid_point::GridPoint;
use polygon::fault::RingFault;
use polygon::polygon::Polygon;
use polygon::ring::coord_pos_relative_to_ring;
use scalar::coord::Coord;
use scalar::coord_num::CoordNum;
use scalar::f64_scalar::F64Scalar;
use scalar::i32_scalar::I32Scalar;
use std::{fmt, io};

// The corners of the window in the blank. The side from the last corner to the first is keyed in later.
const WINDOW: [(f64, f64); 4] = [(10.0, 20.0), (30.0, 20.0), (30.0, 40.0), (10.0, 40.0)];

// Where holes are to be drilled.
const DRILLS: [(f64, f64); 5] = [
    (80.0, 10.0),
    (60.0, 15.5),
    (20.0, 30.0),
    (10.0, 25.5),
    (60.0, 45.0),
];

// The rings of the blank.
#[derive(Clone, Copy)]
struct Blank<'a> {
    outline: &'a [GridPoint],
    window: &'a [GridPoint],
}

// Where a drill lies in the blank, relative to its outline and relative to its window.
#[derive(Clone, Copy)]
struct DrillPosition {
    blank: CoordPos,
    outline: CoordPos,
    window: CoordPos,
}

// Where the drill goes, and the rule that decides it.
impl fmt::Display for DrillPosition {
    fn fmt<W: fmt::Write>(&self, f: &mut fmt::Formatter<W>) -> fmt::Result {
        let place = match self.blank {
            CoordPos::OnBoundary => "on an edge",
            CoordPos::Inside => "in the material",
            CoordPos::Outside => "out of the material",
        };
        let rule = match (self.outline, self.window) {
            (CoordPos::OnBoundary, _) => "it touches the outline",
            (CoordPos::Outside, _) => "the outline does not go round it",
            (CoordPos::Inside, CoordPos::OnBoundary) => "it touches the window",
            (CoordPos::Inside, CoordPos::Inside) => "the window goes round it",
            (CoordPos::Inside, CoordPos::Outside) =>
                "the outline goes round it and the window does not",
        };
        write!(f, "{place}: {rule}")
    }
}

impl Blank<'_> {
    // Where a drill lies, or which ring of the blank is open.
    fn locate<T: GeoNum>(&self, drill: Coord<T>) -> Result<DrillPosition, RingFault> {
        let outline = LineString::new(self.outline);
        let window = LineString::new(self.window);
        Ok(DrillPosition {
            blank: Polygon::new(outline, &[window])?.coordinate_position(&drill),
            outline: coord_pos_relative_to_ring(drill, &outline)?,
            window: coord_pos_relative_to_ring(drill, &window)?,
        })
    }

    // How many drills go into the material, by the scalar's own kernel.
    fn count_in_material<T: GeoNum>(&self, drills: &[GridPoint]) -> usize {
        drills
            .iter()
            .filter(|p| {
                self.locate::<T>(Coord::from_grid(**p))
                    .is_ok_and(|found| found.blank == CoordPos::Inside)
            })
            .count()
    }

    fn print_drill(&self, rt: &impl Print, drill: Coord<F64Scalar>) -> io::Result<()> {
        match self.locate(drill) {
            Ok(found) => println!(rt; "  {drill} mm is {found}"),
            Err(fault) => println!(rt; "  refused with {}: {fault}", fault.number()),
        }
    }

    fn print_drills(&self, rt: &impl Print, drills: &[GridPoint]) -> io::Result<()> {
        for p in drills {
            self.print_drill(rt, Coord::from_grid(*p))?;
        }
        Ok(())
    }
}

fn main(rt: HostRuntime) -> io::Result<()> {
    println!(rt; "Outline of the blank, as keyed in:")?;
    let outline = take_corners(&rt, rt.alloc(), &OUTLINE)?;
    println!(rt; "Corners of the window, as keyed in:")?;
    let mut window = take_corners(&rt, rt.alloc(), &WINDOW)?;
    println!(rt; "Where holes are to be drilled:")?;
    let drills = take_corners(&rt, rt.alloc(), &DRILLS)?;
    println!(rt; "The first of them, while the window is open:")?;
    let open = Blank {
        outline: &outline,
        window: &window,
    };
    if let Some(drill) = drills.first() {
        open.print_drill(&rt, Coord::from_grid(*drill))?;
    }
    if let Some(&first) = window.first() {
        window.push(first)?;
    }
    println!(rt; "All of them, with the window closed:")?;
    let blank = Blank {
        outline: &outline,
        window: &window,
    };
    blank.print_drills(&rt, &drills)?;
    println!(rt;
        "Holes in the material, in f64 millimetres: {}",
        blank.count_in_material::<F64Scalar>(&drills)
    )?;
    println!(rt;
        "Holes in the material, in i32 units: {}",
        blank.count_in_material::<I32Scalar>(&drills)
    )
}
