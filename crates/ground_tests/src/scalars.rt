use plane::grid_point::GridPoint;
use scalar::coord::Coord;
use scalar::coord_num::CoordNum;
use scalar::f64_scalar::F64Scalar;
use scalar::fault::{F64Fault, I32Fault};
use scalar::i32_scalar::I32Scalar;
use std::test::Fail;

// The units and the float of the scalar that a float makes, or why it makes none.
fn of_float(x: f64) -> Result<(i32, f64), F64Fault> {
    F64Scalar::new(x).map(|s| (s.to_units(), s.raw()))
}

fn of_units(u: i32) -> Result<i32, I32Fault> {
    I32Scalar::new(u).map(|s| s.to_units())
}

#[test]
fn floats_on_the_grid(rt: HostRuntime) {
    assert_eq!(rt; of_float(0.00390625), Ok((1, 0.00390625)));
    assert_eq!(rt; of_float(-0.00390625), Ok((-1, -0.00390625)));
    assert_eq!(rt; of_float(2097152.0), Ok((536870912, 2097152.0)));
    assert_eq!(rt; of_float(-2097152.0), Ok((-536870912, -2097152.0)));
    assert_eq!(rt; of_float(45.5), Ok((11648, 45.5)));
}

#[test]
fn floats_off_the_grid(rt: HostRuntime) {
    for x in [
        0.001,
        2097151.9999999998,
        -2097151.9999999998,
        5e-324,
        -2.2250738585072014e-308,
    ] {
        assert_eq!(rt; of_float(x), Err(F64Fault::OffGrid(x)));
    }
}

#[test]
fn floats_beyond_reach(rt: HostRuntime) {
    for x in [
        2097152.00390625,
        2097152.0000000005,
        -2097152.0000000005,
        1e308,
        1.0 / 0.0,
        -1.0 / 0.0,
    ] {
        assert_eq!(rt; of_float(x), Err(F64Fault::BeyondReach(x)));
    }
}

#[test]
fn not_a_number(rt: HostRuntime) {
    assert_eq!(rt; of_float(0.0 / 0.0), Err(F64Fault::NotANumber));
}

#[test]
fn minus_zero_becomes_zero(rt: HostRuntime) -> Result<(), Fail> {
    let s = F64Scalar::new(-0.0)?;
    assert!(rt; 1.0 / s.raw() > 0.0);
    Ok(())
}

#[test]
fn units_within_and_beyond_reach(rt: HostRuntime) {
    assert_eq!(rt; of_units(536870912), Ok(536870912));
    assert_eq!(rt; of_units(536870913), Err(I32Fault::BeyondReach(536870913)));
    assert_eq!(rt; of_units(-536870912), Ok(-536870912));
    assert_eq!(rt;
        of_units(-536870913),
        Err(I32Fault::BeyondReach(-536870913))
    );
    assert_eq!(rt; of_units(i32::MIN), Err(I32Fault::BeyondReach(i32::MIN)));
    assert_eq!(rt; of_units(i32::MAX), Err(I32Fault::BeyondReach(i32::MAX)));
}

// What a coordinate of two floats is refused with, if it is.
fn refusal(x: f64, y: f64) -> Option<F64Fault> {
    Coord::<F64Scalar>::new(x, y).err()
}

#[test]
fn x_is_checked_before_y(rt: HostRuntime) {
    assert_eq!(rt; refusal(0.001, 3e6), Some(F64Fault::OffGrid(0.001)));
    assert_eq!(rt; refusal(3e6, 0.001), Some(F64Fault::BeyondReach(3e6)));
    assert_eq!(rt; refusal(1.0, 0.0 / 0.0), Some(F64Fault::NotANumber));
    assert_eq!(rt; refusal(1.0, 2.0), None);
}

#[test]
fn numbers_of_refusals(rt: HostRuntime) {
    assert_eq!(rt; F64Fault::NotANumber.number(), 1);
    assert_eq!(rt; F64Fault::BeyondReach(3e6).number(), 2);
    assert_eq!(rt; F64Fault::OffGrid(0.001).number(), 3);
    assert_eq!(rt; I32Fault::BeyondReach(536870913).number(), 2);
}

#[test]
fn numbers_beyond_reach_are_read_as_zero_each_by_itself(rt: HostRuntime) {
    let spoiled = GridPoint {
        x: 536870913,
        y: -7,
    };
    assert_eq!(rt;
        GridPoint::from(Coord::<F64Scalar>::from_grid(spoiled)),
        GridPoint { x: 0, y: -7 }
    );
    assert_eq!(rt;
        GridPoint::from(Coord::<I32Scalar>::from_grid(spoiled)),
        GridPoint { x: 0, y: -7 }
    );
    let other = GridPoint { x: 7, y: i32::MIN };
    assert_eq!(rt;
        GridPoint::from(Coord::<F64Scalar>::from_grid(other)),
        GridPoint { x: 7, y: 0 }
    );
}

#[test]
fn coordinates_are_equal_by_their_units(rt: HostRuntime) -> Result<(), Fail> {
    let a = Coord::<F64Scalar>::new(0.5, -0.0)?;
    let b = Coord::<F64Scalar>::new(0.5, 0.0)?;
    assert!(rt; a == b);
    assert!(rt; a != Coord::from_grid(GridPoint { x: 128, y: 1 }));
    Ok(())
}

#[test]
fn printed_coordinates(rt: HostRuntime) -> Result<(), Fail> {
    let p = GridPoint { x: 128, y: -7 };
    let in_millimetres = Coord::<F64Scalar>::from_grid(p).to_string(rt.alloc())?;
    let in_units = Coord::<I32Scalar>::from_grid(p).to_string(rt.alloc())?;
    assert_eq!(rt; in_millimetres.as_str(), "(0.5, -0.02734375)");
    assert_eq!(rt; in_units.as_str(), "(128, -7)");
    Ok(())
}

#[test]
fn shown_scalars(rt: HostRuntime) -> Result<(), Fail> {
    let half = F64Scalar::from_units(128);
    let seven = I32Scalar::from_units(-7);
    let in_millimetres = format!(in rt.alloc(); "{half:?}")?;
    let on_lines = format!(in rt.alloc(); "{half:#?}")?;
    let in_units = format!(in rt.alloc(); "{seven:?}")?;
    assert_eq!(rt; in_millimetres.as_str(), "F64Scalar { value: 0.5 }");
    assert_eq!(rt; on_lines.as_str(), "F64Scalar {\n    value: 0.5,\n}");
    assert_eq!(rt; in_units.as_str(), "I32Scalar { value: -7 }");
    Ok(())
}

#[test]
fn printed_faults(rt: HostRuntime) -> Result<(), Fail> {
    let nan = F64Fault::NotANumber.to_string(rt.alloc())?;
    let far = F64Fault::BeyondReach(2097152.5).to_string(rt.alloc())?;
    let off = F64Fault::OffGrid(0.001).to_string(rt.alloc())?;
    let units = I32Fault::BeyondReach(536870913).to_string(rt.alloc())?;
    assert_eq!(rt; nan.as_str(), "not a number");
    assert_eq!(rt; far.as_str(), "2097152.5 mm is beyond reach");
    assert_eq!(rt; off.as_str(), "0.001 mm is off the grid");
    assert_eq!(rt; units.as_str(), "536870913 units is beyond reach");
    Ok(())
}
