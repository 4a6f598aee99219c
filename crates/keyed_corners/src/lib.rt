// Corners as they are keyed in, in millimetres, and the grid points at which they lie.
#![tactic(auto)]

ghost use Rattle.std.specs.Prelude.{◌≡◌, [], Some, IsOk, IfOk, IfErr, filter_map};
ghost use Rattle.std.specs.Result.{result_ok};
ghost use Rattle.scalar.specs.Faults.{f64_fault};
ghost use Rattle.keyed_corners.specs.Corners.{corner_of, corner_refusal};

use plane::grid_point::GridPoint;
use scalar::coord::Coord;
use scalar::coord_num::CoordNum;
use scalar::f64_scalar::F64Scalar;
use scalar::fault::F64Fault;
use std::alloc::{AllocError, Global};
use std::io;

// The outline of the milled blank; one of its corners misses the grid and is keyed in again.
pub const OUTLINE: [(f64, f64); 8] = [
    (0.0, 0.0),
    (80.0, 0.0),
    (80.0, 30.25),
    (45.1, 30.25),
    (45.5, 30.25),
    (45.5, 60.0),
    (0.0, 60.0),
    (0.0, 0.0),
];

// The grid point of a corner, or what is wrong with it.
pub fn grid_corner(x: f64, y: f64) -> Result<GridPoint, F64Fault>
    ensures place { result_ok result ≡ corner_of (x, y) }
    ensures refusal { IfErr result (λ e. corner_refusal (x, y) ≡ Some (f64_fault e)) }
{
    Ok(Coord::<F64Scalar>::new(x, y)?.into())
}

// The grid points of those corners that are on the grid, in their order.
pub fn grid_corners(alloc: Global, keyed: &[(f64, f64)]) -> Result<Vec<GridPoint>, AllocError>
    ensures { IfOk result (λ v. v.items ≡ filter_map corner_of keyed.now) }
{
    keyed
        .iter()
        .filter_map(|&(x, y)| grid_corner(x, y).ok())
        .collect(alloc)
}

// Prints where each corner lies, or what it is refused with. Nothing is kept, so only printing can fail.
pub fn print_corners(rt: &impl Print, keyed: &[(f64, f64)]) -> io::Result<()>
    ensures nothing_to_print { keyed.now ≡ [] → IsOk result }
{
    for (x, y) in keyed {
        match grid_corner(*x, *y) {
            Ok(p) => println!(rt; "  ({x}, {y}) mm lies at ({}, {}) units", p.x, p.y)?,
            Err(fault) => println!(rt;
                "  ({x}, {y}) mm is refused with {}: {fault}",
                fault.number()
            )?,
        }
    }
    Ok(())
}

// Prints where each corner lies, or what it is refused with, and keeps those that are on the grid, in their order. A
// corner is kept before its line is printed: where memory runs out, the line before it is the last.
pub fn take_corners(
    rt: &impl Print,
    alloc: Global,
    keyed: &[(f64, f64)],
) -> io::Result<Vec<GridPoint>>
    ensures { IfOk result (λ v. v.items ≡ filter_map corner_of keyed.now) }
{
    let mut corners = Vec::new(alloc);
    for corner in keyed {
        let (x, y) = *corner;
        match grid_corner(x, y) {
            Ok(p) => {
                corners.push(p)?;
                println!(rt; "  ({x}, {y}) mm lies at ({}, {}) units", p.x, p.y)?;
            }
            Err(fault) => println!(rt;
                "  ({x}, {y}) mm is refused with {}: {fault}",
                fault.number()
            )?,
        }
    }
    Ok(corners)
}
