use crate::{at, line, rect};
use contains::Contains;
use kernel::geo_num::GeoNum;
use scalar::coord_num::CoordNum;
use scalar::f64_scalar::F64Scalar;
use scalar::i32_scalar::I32Scalar;
use std::process::Abort;

fn line_coords<T: GeoNum>(rt: &impl Abort) {
    assert!(rt; line::<T>(0, 0, 4, 2).contains(&at(2, 1)));
    assert!(rt; !line::<T>(0, 0, 4, 2).contains(&at(0, 0)));
    assert!(rt; !line::<T>(0, 0, 4, 2).contains(&at(4, 2)));
    assert!(rt; !line::<T>(0, 0, 4, 2).contains(&at(2, 2)));
    assert!(rt; line::<T>(3, 3, 3, 3).contains(&at(3, 3)));
    assert!(rt; !line::<T>(3, 3, 3, 3).contains(&at(3, 4)));
}

#[test]
fn lines_over_coordinates(rt: HostRuntime) {
    line_coords::<I32Scalar>(&rt);
    line_coords::<F64Scalar>(&rt);
}

fn line_lines<T: GeoNum>(rt: &impl Abort) {
    assert!(rt; line::<T>(0, 0, 4, 2).contains(&line(4, 2, 2, 1)));
    assert!(rt; line::<T>(0, 0, 4, 2).contains(&line(4, 2, 0, 0)));
    assert!(rt; !line::<T>(0, 0, 4, 2).contains(&line(2, 1, 6, 3)));
    assert!(rt; line::<T>(0, 0, 4, 2).contains(&line(2, 1, 2, 1)));
    assert!(rt; !line::<T>(0, 0, 4, 2).contains(&line(4, 2, 4, 2)));
    assert!(rt; line::<T>(3, 3, 3, 3).contains(&line(3, 3, 3, 3)));
    assert!(rt; !line::<T>(3, 3, 3, 3).contains(&line(3, 3, 4, 3)));
}

#[test]
fn lines_over_lines(rt: HostRuntime) {
    line_lines::<I32Scalar>(&rt);
    line_lines::<F64Scalar>(&rt);
}

fn rect_coords<T: CoordNum>(rt: &impl Abort) {
    assert!(rt; rect::<T>(0, 0, 4, 4).contains(&at(1, 3)));
    assert!(rt; !rect::<T>(0, 0, 4, 4).contains(&at(0, 3)));
    assert!(rt; !rect::<T>(0, 0, 4, 4).contains(&at(2, 4)));
    assert!(rt; !rect::<T>(0, 2, 4, 2).contains(&at(2, 2)));
}

#[test]
fn rectangles_over_coordinates(rt: HostRuntime) {
    rect_coords::<I32Scalar>(&rt);
    rect_coords::<F64Scalar>(&rt);
}

fn rect_rects<T: CoordNum>(rt: &impl Abort) {
    assert!(rt; rect::<T>(0, 0, 4, 4).contains(&rect(0, 0, 4, 4)));
    assert!(rt; rect::<T>(0, 0, 4, 4).contains(&rect(0, 2, 4, 2)));
    assert!(rt; !rect::<T>(0, 0, 1, 1).contains(&rect(0, 0, 1, 0)));
    assert!(rt; rect::<T>(0, 0, 4, 4).contains(&rect(2, 2, 2, 2)));
    assert!(rt; !rect::<T>(0, 0, 4, 4).contains(&rect(1, 1, 5, 2)));
    assert!(rt; !rect::<T>(0, 2, 4, 2).contains(&rect(1, 2, 3, 2)));
}

#[test]
fn rectangles_over_rectangles(rt: HostRuntime) {
    rect_rects::<I32Scalar>(&rt);
    rect_rects::<F64Scalar>(&rt);
}
