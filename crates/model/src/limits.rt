//! The limits that boxes and rows have to keep.

/// Three stars with three coordinates each.
pub const MOST_COORDINATES: usize = 9;

/// As many rows as a certificate has marks.
pub const MOST_ROWS: usize = 16;

/// How far from 0 the ends of a box's spans may be, in ticks.
pub const BOX_LIMIT: u32 = 4096;

/// How far from 0 the coefficients of squares and pairs may be.
pub const SQUARE_LIMIT: u32 = 1024;

/// How far from 0 the coefficients of singles may be.
pub const SINGLE_LIMIT: u32 = 65536;

/// How far from 0 the ends of a right side may be: 2^36.
pub const SIDE_LIMIT: i64 = 68719476736;

/// How far from 0 the weighted sums of squares and pairs may be: 2^20, for sixteen rows with weights up to 64.
pub const SUM_LIMIT: u32 = 1048576;

/// How far from 0 the weighted sums of singles may be: 2^26.
pub const SINGLE_SUM_LIMIT: u32 = 67108864;

/// How far from 0 the weighted sum of right sides may be: 2^46.
pub const BOUND_LIMIT: i64 = 70368744177664;
