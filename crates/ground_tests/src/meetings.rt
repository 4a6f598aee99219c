use crate::{at, line, rect};
use intersects::Intersects;
use kernel::geo_num::GeoNum;
use scalar::coord_num::CoordNum;
use scalar::f64_scalar::F64Scalar;
use scalar::i32_scalar::I32Scalar;
use std::process::Abort;

// Both ways round.
fn meet<A: Intersects<B>, B: Intersects<A>>(rt: &impl Abort, a: &A, b: &B, yes: bool) {
    assert_eq!(rt; a.intersects(b), yes);
    assert_eq!(rt; b.intersects(a), yes);
}

fn crossings<T: GeoNum>(rt: &impl Abort) {
    meet(rt, &line::<T>(0, 0, 3, 1), &line(0, 1, 3, 0), true);
    meet(rt, &line::<T>(0, 0, 3, 1), &line(1, 1, 3, 2), false);
    meet(rt, &line::<T>(0, 0, 2, 0), &line(2, 0, 5, 3), true);
    meet(rt, &line::<T>(0, 0, 4, 0), &line(2, 0, 2, 3), true);
    meet(rt, &line::<T>(0, 0, 4, 0), &line(5, -1, 5, 3), false);
}

fn overlaps<T: GeoNum>(rt: &impl Abort) {
    meet(rt, &line::<T>(0, 0, 2, 0), &line(2, 0, 5, 0), true);
    meet(rt, &line::<T>(0, 0, 2, 0), &line(3, 0, 5, 0), false);
    meet(rt, &line::<T>(1, 0, 2, 0), &line(5, 0, 0, 0), true);
    meet(rt, &line::<T>(1, 1, 2, 2), &line(5, 5, 0, 0), true);
    meet(rt, &line::<T>(0, 0, 0, 4), &line(0, 4, 0, 9), true);
}

fn zero_lengths<T: GeoNum>(rt: &impl Abort) {
    meet(rt, &line::<T>(1, 1, 1, 1), &line(0, 0, 5, 5), true);
    meet(rt, &line::<T>(1, 2, 1, 2), &line(0, 0, 5, 5), false);
    meet(rt, &line::<T>(1, 2, 1, 2), &line(1, 2, 1, 2), true);
    meet(rt, &line::<T>(1, 2, 1, 2), &line(2, 1, 2, 1), false);
}

#[test]
fn lines_with_lines(rt: HostRuntime) {
    crossings::<I32Scalar>(&rt);
    crossings::<F64Scalar>(&rt);
    overlaps::<I32Scalar>(&rt);
    overlaps::<F64Scalar>(&rt);
    zero_lengths::<I32Scalar>(&rt);
    zero_lengths::<F64Scalar>(&rt);
}

fn rects_with_lines<T: GeoNum>(rt: &impl Abort) {
    meet(rt, &rect::<T>(0, 0, 4, 4), &line(3, 6, 6, 3), false);
    meet(rt, &rect::<T>(0, 0, 4, 4), &line(2, 6, 6, 2), true);
    meet(rt, &rect::<T>(0, 0, 4, 4), &line(1, 1, 2, 3), true);
    meet(rt, &rect::<T>(0, 0, 4, 4), &line(-9, 2, 9, 2), true);
    meet(rt, &rect::<T>(0, 0, 4, 4), &line(2, 2, 2, 2), true);
    meet(rt, &rect::<T>(0, 0, 4, 4), &line(5, 5, 5, 5), false);
}

fn flat_rects_with_lines<T: GeoNum>(rt: &impl Abort) {
    meet(rt, &rect::<T>(0, 2, 4, 2), &line(1, 2, 9, 2), true);
    meet(rt, &rect::<T>(0, 2, 4, 2), &line(5, 2, 9, 2), false);
    meet(rt, &rect::<T>(2, 2, 2, 2), &line(0, 0, 5, 5), true);
    meet(rt, &rect::<T>(2, 2, 2, 2), &line(0, 1, 5, 6), false);
    meet(rt, &rect::<T>(2, 2, 2, 2), &line(2, 2, 2, 2), true);
}

#[test]
fn rectangles_with_lines(rt: HostRuntime) {
    rects_with_lines::<I32Scalar>(&rt);
    rects_with_lines::<F64Scalar>(&rt);
    flat_rects_with_lines::<I32Scalar>(&rt);
    flat_rects_with_lines::<F64Scalar>(&rt);
}

fn rects_meet<T: CoordNum>(rt: &impl Abort) {
    assert!(rt; rect::<T>(0, 0, 1, 1).intersects(&rect(1, 1, 2, 2)));
    assert!(rt; !rect::<T>(0, 0, 1, 1).intersects(&rect(2, 0, 3, 1)));
    assert!(rt; rect::<T>(0, 0, 9, 0).intersects(&rect(4, -3, 4, 3)));
    assert!(rt; !rect::<T>(0, 0, 1, 1).intersects(&rect(0, 2, 1, 3)));
}

#[test]
fn rectangles_with_rectangles(rt: HostRuntime) {
    rects_meet::<I32Scalar>(&rt);
    rects_meet::<F64Scalar>(&rt);
}

fn coords_meet<T: GeoNum>(rt: &impl Abort) {
    assert!(rt; at::<T>(1, 2).intersects(&at(1, 2)));
    assert!(rt; !at::<T>(1, 2).intersects(&at(2, 1)));
    assert!(rt; at::<T>(2, 1).intersects(&line(0, 0, 4, 2)));
    assert!(rt; !line::<T>(0, 0, 4, 2).intersects(&at(6, 3)));
    assert!(rt; !line::<T>(3, 3, 3, 3).intersects(&at(3, 4)));
    assert!(rt; at::<T>(4, 0).intersects(&rect(0, 0, 4, 4)));
    assert!(rt; !rect::<T>(0, 0, 4, 4).intersects(&at(5, 2)));
}

#[test]
fn coordinates_with_shapes(rt: HostRuntime) {
    coords_meet::<I32Scalar>(&rt);
    coords_meet::<F64Scalar>(&rt);
}
