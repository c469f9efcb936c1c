/// The ppm of a whole.
pub const MILLION: i64 = 1_000_000;
