//! Worked headers: what is written for parameters, and what is read again.
#![tactic(auto, unfolding(crate::specs::Unfold::everything))]

ghost use Rattle.std.specs.Prelude.{◌≡◌, [], Ok, true, false};
ghost use Rattle.cube_core.specs.declared.order.Order.TheVariants.{Bsq, Bi};
ghost use Rattle.header_bits.specs.Header.{header_at, header_of};
ghost use Rattle.header_bits.specs.Examples.{common, cube_a, coarse_steps, deep, block, narrow_block, with_sample_coder, header};

/// A lone sample of eight bits.
pub fn one_sample()
    ensures written { header_of (common 1 1 1) ≡ header 0x00000100010001110000080002A09259008226 }
    ensures read { header_at (header 0x00000100010001110000080002A09259008226) ≡ Ok (common 1 1 1, []) }
{}

/// Two samples, one row below the other.
pub fn two_equal_samples()
    ensures written { header_of (common 1 2 1) ≡ header 0x00000100020001110000080002A09259008226 }
    ensures read { header_at (header 0x00000100020001110000080002A09259008226) ≡ Ok (common 1 2 1, []) }
{}

/// Two bands, the second predicted from the first.
pub fn second_band_predicted_from_first()
    ensures written { header_of (record (common 1 1 2) { previous = 1 }) ≡ header 0x00000100010002110000080006A09259008226 }
    ensures read { header_at (header 0x00000100010002110000080006A09259008226) ≡ Ok (record (common 1 1 2) { previous = 1 }, []) }
{}

/// Four fractional bits of weights, and exponents of -4.
pub fn coarse_steps()
    ensures written { header_of (coarse_steps) ≡ header 0x00000100030002110000080006A00222008226 }
    ensures read { header_at (header 0x00000100030002110000080006A00222008226) ≡ Ok (coarse_steps, []) }
{}

/// A lone signed sample of sixteen bits.
pub fn signed_sixteen_bits()
    ensures written { header_of (record (common 1 1 1) { kind = record { signed = true; bits = 16 } }) ≡ header 0x00000100010001810000080002A09259008226 }
    ensures read { header_at (header 0x00000100010001810000080002A09259008226) ≡ Ok (record (common 1 1 1) { kind = record { signed = true; bits = 16 } }, []) }
{}

/// The least unary length limit.
pub fn escape()
    ensures written { header_of (with_sample_coder 8 6 1 0) ≡ header 0x00000100020001110000080002A09259004220 }
    ensures read { header_at (header 0x00000100020001110000080002A09259004220) ≡ Ok (with_sample_coder 8 6 1 0, []) }
{}

/// The block-adaptive coder.
pub fn filled_block()
    ensures written { header_of (block 1 1 1 false 1) ≡ header 0x000001000100011100000C0002A09259000001 }
    ensures read { header_at (header 0x000001000100011100000C0002A09259000001) ≡ Ok (block 1 1 1 false 1, []) }
{}

/// A reference interval of eight blocks.
pub fn zero_run_to_segment_end()
    ensures written { header_of (block 1 48 1 false 8) ≡ header 0x000001003000011100000C0002A09259000008 }
    ensures read { header_at (header 0x000001003000011100000C0002A09259000008) ≡ Ok (block 1 48 1 false 8, []) }
{}

/// A reference interval of four blocks.
pub fn short_segments()
    ensures written { header_of (block 1 48 1 false 4) ≡ header 0x000001003000011100000C0002A09259000004 }
    ensures read { header_at (header 0x000001003000011100000C0002A09259000004) ≡ Ok (block 1 48 1 false 4, []) }
{}

/// The greatest reference interval is written as zeros.
pub fn longest_reference_interval()
    ensures written { header_of (block 1 1040 1 false 4096) ≡ header 0x000001041000011100000C0002A09259000000 }
    ensures read { header_at (header 0x000001041000011100000C0002A09259000000) ≡ Ok (block 1 1040 1 false 4096, []) }
{}

/// Full mode and neighbour-oriented sums.
pub fn cube_a_bsq()
    ensures written { header_of (cube_a Bsq) ≡ header 0x00000300020002110000080004209259008226 }
    ensures read { header_at (header 0x00000300020002110000080004209259008226) ≡ Ok (cube_a Bsq, []) }
{}

/// The same by lines.
pub fn cube_a_bil()
    ensures written { header_of (cube_a (Bi 1)) ≡ header 0x00000300020002100001080004209259008226 }
    ensures read { header_at (header 0x00000300020002100001080004209259008226) ≡ Ok (cube_a (Bi 1), []) }
{}

/// The same by pixels.
pub fn cube_a_bip()
    ensures written { header_of (cube_a (Bi 2)) ≡ header 0x00000300020002100002080004209259008226 }
    ensures read { header_at (header 0x00000300020002100002080004209259008226) ≡ Ok (cube_a (Bi 2), []) }
{}

/// The same with the block-adaptive coder.
pub fn cube_a_block()
    ensures written { header_of (record (cube_a Bsq) { coder = (block 1 1 1 false 1).coder }) ≡ header 0x000003000200021100000C0004209259000001 }
    ensures read { header_at (header 0x000003000200021100000C0004209259000001) ≡ Ok (record (cube_a Bsq) { coder = (block 1 1 1 false 1).coder }, []) }
{}

/// A register of 32 bits, the greatest weight resolution.
pub fn register_wraps()
    ensures written { header_of (deep 32) ≡ header 0x00000100020002170000080006A0F259008226 }
    ensures read { header_at (header 0x00000100020002170000080006A0F259008226) ≡ Ok (deep 32, []) }
{}

/// A register of 64 bits is written as zeros.
pub fn widest_register()
    ensures written { header_of (deep 64) ≡ header 0x0000010002000217000008000680F259008226 }
    ensures read { header_at (header 0x0000010002000217000008000680F259008226) ≡ Ok (deep 64, []) }
{}

/// Output words of four bytes.
pub fn fill_bits()
    ensures written { header_of (record (common 1 2 1) { word = 4 }) ≡ header 0x00000100020001110000200002A09259008226 }
    ensures read { header_at (header 0x00000100020001110000200002A09259008226) ≡ Ok (record (common 1 2 1) { word = 4 }, []) }
{}

/// Samples of four bits with the whole set of options.
pub fn four_bits_unrestricted()
    ensures written { header_of (narrow_block 4 false) ≡ header 0x000001000100010900000C0002A09259000001 }
    ensures read { header_at (header 0x000001000100010900000C0002A09259000001) ≡ Ok (narrow_block 4 false, []) }
{}

/// The greatest sizes are written as zeros.
pub fn greatest_sizes()
    ensures written { header_of (common 65536 65536 65536) ≡ header 0x00000000000000110000080002A09259008226 }
    ensures read { header_at (header 0x00000000000000110000080002A09259008226) ≡ Ok (common 65536 65536 65536, []) }
{}
