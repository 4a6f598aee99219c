use crate::{at, rect};
use geometry::line::Line;
use geometry::triangle::Triangle;
use plane::grid_point::GridPoint;
use scalar::coord_num::CoordNum;
use scalar::f64_scalar::F64Scalar;
use scalar::i32_scalar::I32Scalar;
use std::process::Abort;
use std::test::Fail;

// Checks the sides of a shape against the units of their ends.
fn sides<T: CoordNum>(rt: &impl Abort, lines: &[Line<T>], ends: &[(i32, i32, i32, i32)]) {
    assert_eq!(rt; lines.len(), ends.len());
    for (line, (ax, ay, bx, by)) in lines.iter().zip(ends) {
        assert_eq!(rt; GridPoint::from(line.start), GridPoint { x: *ax, y: *ay });
        assert_eq!(rt; GridPoint::from(line.end), GridPoint { x: *bx, y: *by });
    }
}

#[test]
fn a_rectangle_lists_its_sides_from_the_low_right_corner(rt: HostRuntime) {
    let ends = [(4, 1, 4, 3), (4, 3, 0, 3), (0, 3, 0, 1), (0, 1, 4, 1)];
    sides(&rt, &rect::<I32Scalar>(4, 1, 0, 3).to_lines(), &ends);
    sides(&rt, &rect::<F64Scalar>(4, 1, 0, 3).to_lines(), &ends);
}

fn corners<T: CoordNum>(rt: &impl Abort) {
    let r = rect::<T>(4, -1, -2, 3);
    assert_eq!(rt; GridPoint::from(r.min()), GridPoint { x: -2, y: -1 });
    assert_eq!(rt; GridPoint::from(r.max()), GridPoint { x: 4, y: 3 });
}

#[test]
fn a_rectangle_sorts_its_corners(rt: HostRuntime) {
    corners::<I32Scalar>(&rt);
    corners::<F64Scalar>(&rt);
}

#[test]
fn a_triangle_lists_its_sides_in_order(rt: HostRuntime) {
    let ends = [(0, 0, 5, 0), (5, 0, 5, 0), (5, 0, 0, 0)];
    let flat = Triangle::<I32Scalar>::new(at(0, 0), at(5, 0), at(5, 0));
    sides(&rt, &flat.to_lines(), &ends);
    let flat = Triangle::<F64Scalar>::new(at(0, 0), at(5, 0), at(5, 0));
    sides(&rt, &flat.to_lines(), &ends);
}

#[test]
fn a_cloned_rectangle_has_its_corners(rt: HostRuntime) -> Result<(), Fail> {
    let clone = rect::<F64Scalar>(4, -1, -2, 3).clone()?;
    assert_eq!(rt; GridPoint::from(clone.min()), GridPoint { x: -2, y: -1 });
    assert_eq!(rt; GridPoint::from(clone.max()), GridPoint { x: 4, y: 3 });
    Ok(())
}
