//! The structs that cross to C, member by member as `ccsds123.h` declares them.

/// The parameters of a coded image, but for its tables. A flag is 0 for no, and any other number for yes.
#[repr(C)]
#[derive(Clone, Copy)]
pub struct ParamsRecord {
    /// How many bytes the struct has.
    pub size: u32,
    pub columns: u32,
    pub rows: u32,
    pub bands: u32,
    pub bits: u32,
    pub is_signed: u32,
    /// 0 is band sequential, 1 band interleaved.
    pub order: u32,
    pub depth: u32,
    pub user: u32,
    pub word: u32,
    pub previous: u32,
    pub reduced: u32,
    pub column_sums: u32,
    pub register_bits: u32,
    pub omega: u32,
    pub interval_log: u32,
    pub vmin: i32,
    pub vmax: i32,
    pub weight_table: u32,
    pub weight_bits: u32,
    /// 0 is sample-adaptive, 1 block-adaptive.
    pub coder: u32,
    pub umax: u32,
    pub gamma_star: u32,
    pub gamma_zero: u32,
    pub k: u32,
    pub accumulator_table: u32,
    pub block: u32,
    pub reference: u32,
    pub restricted: u32,
}

/// How samples lie in raw bytes.
#[repr(C)]
#[derive(Clone, Copy)]
pub struct LayoutRecord {
    /// 0 is band sequential, 1 interleaved by line, 2 by pixel.
    pub interleave: u32,
    pub bytes: u32,
    pub little: u32,
}

/// Why a call was refused: a number, the name of a field, rule, room or member, and values.
#[repr(C)]
#[derive(Clone, Copy)]
pub struct FaultRecord {
    pub number: u32,
    pub name: u32,
    pub first: i64,
    pub second: i64,
}
