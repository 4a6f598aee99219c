// A coordinate as it lies in slices, arrays and tables: two numbers in units of 1/256 millimetre, alike for every
// scalar. There is no rule in its type, so that memory may hold anything; a number beyond reach is read as 0.
#[derive(Clone, Copy, PartialEq, Eq, Default, Debug)]
pub struct GridPoint {
    pub x: i32,
    pub y: i32,
}
