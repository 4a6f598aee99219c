use crate::at;
use kernel::geo_num::GeoNum;
use kernel::kernels::Kernel;
use plane::orientation::Orientation;
use scalar::coord_num::CoordNum;
use scalar::f64_scalar::F64Scalar;
use scalar::i32_scalar::I32Scalar;
use std::cmp::Ordering;
use std::process::Abort;

fn turn<T: GeoNum>(px: i32, py: i32, qx: i32, qy: i32, rx: i32, ry: i32) -> Orientation {
    T::Ker::orient2d(at(px, py), at(qx, qy), at(rx, ry))
}

fn turns<T: GeoNum>(rt: &impl Abort) {
    assert_eq!(rt; turn::<T>(0, 0, 4, 0, 4, 1), Orientation::CounterClockwise);
    assert_eq!(rt; turn::<T>(0, 0, 4, 0, 4, -1), Orientation::Clockwise);
    assert_eq!(rt; turn::<T>(0, 0, 4, 2, -2, -1), Orientation::Collinear);
    assert_eq!(rt; turn::<T>(3, 3, 3, 3, 9, 1), Orientation::Collinear);
    // both products positive, both negative
    assert_eq!(rt; turn::<T>(0, 0, 2, 1, 5, 3), Orientation::CounterClockwise);
    assert_eq!(rt; turn::<T>(0, 0, 2, -1, 5, -3), Orientation::Clockwise);
    // as wide as the reach allows
    assert_eq!(rt;
        turn::<T>(
            -536870912, -536870912, 536870912, -536870912, -536870912, 536870912,
        ),
        Orientation::CounterClockwise
    );
    assert_eq!(rt;
        turn::<T>(
            536870912, -536870912, -536870912, 536870912, -536870912, -536870912,
        ),
        Orientation::CounterClockwise
    );
    assert_eq!(rt;
        turn::<T>(
            -536870912, -536870912, 536870912, 536870911, 536870911, 536870912,
        ),
        Orientation::CounterClockwise
    );
}

#[test]
fn the_simple_kernel_orients(rt: HostRuntime) {
    turns::<I32Scalar>(&rt);
}

#[test]
fn the_screening_kernel_orients(rt: HostRuntime) {
    turns::<F64Scalar>(&rt);
}

fn orders<T: GeoNum>(rt: &impl Abort) {
    assert_eq!(rt; at::<T>(1, 2).x.total_cmp(&at::<T>(1, 2).y), Ordering::Less);
    assert_eq!(rt;
        at::<T>(2, 2).x.total_cmp(&at::<T>(2, 2).y),
        Ordering::Equal
    );
    assert_eq!(rt;
        at::<T>(2, -2).x.total_cmp(&at::<T>(2, -2).y),
        Ordering::Greater
    );
}

#[test]
fn scalars_are_ordered_by_their_units(rt: HostRuntime) {
    orders::<I32Scalar>(&rt);
    orders::<F64Scalar>(&rt);
}
