//! Worked files: a cube, its parameters, and the bytes of its file.
#![tactic(auto, unfolding(crate::specs::Unfold::everything))]

ghost use Rattle.std.specs.Prelude.{◌≡◌, ◌∷◌, [], replicate, pos, negsuc, true, false};
ghost use Rattle.cube_core.specs.declared.order.Order.TheVariants.{Bi, Bsq};
ghost use Rattle.header_bits.specs.Examples.{block, common, cube_a, deep, with_constants, with_sample_coder, with_weights};
ghost use Rattle.file_format.specs.File.{file_of, file_of_residuals};
ghost use Rattle.worked_files.specs.Examples.{bytes, cube, file, one_below, coarse_steps, growing_steps, signed_sixteen, four_byte_words, two_below, coarse_table};
ghost use Rattle.worked_files.specs.Examples.{blocks_a, few_bits, middles, samples_a};

/// One sample is written in its bits.
pub fn one_sample()
    ensures { file (common 1 1 1) (200 ∷ []) ≡ bytes 20 0x00000100010001110000080002A0925900822690 }
{}

/// The second of two equal samples has the residual 0.
pub fn two_equal_samples()
    ensures { file (common 1 2 1) (200 ∷ 200 ∷ []) ≡ bytes 21 0x00000100020001110000080002A092590082269080 }
{}

/// Two bands, each of which begins from the middle.
pub fn two_bands_apart()
    ensures { file (common 1 1 2) (200 ∷ 201 ∷ []) ≡ bytes 21 0x00000100010002110000080002A092590082269092 }
{}

/// Two columns.
pub fn two_columns()
    ensures { file (common 2 1 1) (200 ∷ 190 ∷ []) ≡ bytes 21 0x00000200010001110000080002A092590082269030 }
{}

/// The second band's first sample is predicted from the first band's.
pub fn second_band_predicted_from_first()
    ensures { file (one_below 1 1 2) (200 ∷ 201 ∷ []) ≡ bytes 21 0x00000100010002110000080006A092590082269002 }
{}

/// A step at an exponent of 0, rounded down.
pub fn step_rounded_down()
    ensures { file (coarse_steps 1 3 2 (negsuc 3)) (100 ∷ 102 ∷ 110 ∷ 100 ∷ 100 ∷ 105 ∷ []) ≡ bytes 24 0x00000100030002110000080006A0022200822637B7805C00 }
{}

/// The least signed sample of sixteen bits.
pub fn signed_sixteen_bits()
    ensures { file_of (cube signed_sixteen (negsuc 32767 ∷ [])) signed_sixteen ≡ bytes 21 0x00000100010001810000080002A09259008226FFFF }
{}

/// A number whose quotient reaches the unary length limit is written by an escape.
pub fn escape()
    ensures { file (with_sample_coder 8 6 1 0) (200 ∷ 210 ∷ []) ≡ bytes 22 0x00000100020001110000080002A09259004220900013 }
{}

/// Cube A, band after band.
pub fn cube_a_bsq()
    ensures { file (cube_a Bsq) samples_a ≡ bytes 26 0x0000030002000211000008000420925900822637BD84C2935AE0 }
{}

/// Cube A, interleaved by line.
pub fn cube_a_bil()
    ensures { file (cube_a (Bi 1)) samples_a ≡ bytes 26 0x0000030002000210000108000420925900822637BD149A84DAE0 }
{}

/// Cube A, interleaved by pixel.
pub fn cube_a_bip()
    ensures { file (cube_a (Bi 2)) samples_a ≡ bytes 26 0x000003000200021000020800042092590082263714B9DA8C9760 }
{}

/// A register of 32 bits wraps.
pub fn register_wraps()
    ensures { file (deep 32) (4 ∷ 0 ∷ 0 ∷ 0 ∷ []) ≡ bytes 26 0x00000100020002170000080006A0F259008226FEE800E0001FFC }
{}

/// One of 64 bits doesn't.
pub fn register_is_wide()
    ensures { file (deep 64) (4 ∷ 0 ∷ 0 ∷ 0 ∷ []) ≡ bytes 23 0x0000010002000217000008000680F259008226FEE800F0 }
{}

/// Zeros fill an output word of four bytes.
pub fn four_byte_output_words()
    ensures { file four_byte_words (200 ∷ 200 ∷ []) ≡ bytes 24 0x00000100020001110000200002A092590082269080000000 }
{}

/// A block of one sample and seven filled values.
pub fn filled_block()
    ensures { file (block 1 1 1 false 1) (200 ∷ []) ≡ bytes 26 0x000001000100011100000C0002A09259000001A00FF000000000 }
{}

/// A zero block.
pub fn one_zero_block()
    ensures { file (block 1 1 1 false 1) (128 ∷ []) ≡ bytes 20 0x000001000100011100000C0002A0925900000108 }
{}

/// Six zero blocks, one more than the rest code needs, to the end of the image.
pub fn zero_run_to_segment_end()
    ensures { file (block 1 48 1 false 8) (middles 48) ≡ bytes 21 0x000001003000011100000C0002A092590000080080 }
{}

/// Four zero blocks.
pub fn zero_run_of_four()
    ensures { file (block 1 32 1 false 8) (middles 32) ≡ bytes 20 0x000001002000011100000C0002A0925900000801 }
{}

/// A run ends where the reference interval does.
pub fn zero_run_to_reference_end()
    ensures { file (block 1 48 1 false 4) (middles 48) ≡ bytes 21 0x000001003000011100000C0002A092590000040104 }
{}

/// A run ends at 64 blocks.
pub fn zero_run_of_a_whole_segment()
    ensures { file (block 1 1040 1 false 4096) (middles 1040) ≡ bytes 22 0x000001041000011100000C0002A09259000000008041 }
{}

/// Cube A with the block-adaptive coder.
pub fn cube_a_in_blocks()
    ensures { file blocks_a samples_a ≡ bytes 27 0x000003000200021100000C0004209259000001807E7DD1142494F8 }
{}

/// Four bits, with the unrestricted set of options.
pub fn four_bits()
    ensures { file (few_bits 1 4 false) (9 ∷ []) ≡ bytes 21 0x000001000100010900000C0002A0925900000111E0 }
{}

/// Four bits, with the restricted set.
pub fn four_bits_restricted()
    ensures { file (few_bits 1 4 true) (9 ∷ []) ≡ bytes 21 0x000001000100010900000C0002A0925900100123C0 }
{}

/// A custom weight start.
pub fn weights_from_a_table()
    ensures { file (with_weights 1 2 2 1 3 (negsuc 0 ∷ [])) (100 ∷ 110 ∷ 50 ∷ 60 ∷ []) ≡ bytes 24 0x00000100020002110000080006A0925963E08226372D8C70 }
{}

/// Without previous bands a table has no entries, and no bytes.
pub fn table_of_no_weights()
    ensures { file (with_weights 1 1 1 0 3 []) (200 ∷ []) ≡ bytes 20 0x00000100010001110000080002A0925963822690 }
{}

/// An accumulator constant from a table.
pub fn constants_from_a_table()
    ensures { file (with_constants 1 2 1 (3 ∷ [])) (200 ∷ 200 ∷ []) ≡ bytes 22 0x00000100020001110000080002A0925900823F309080 }
{}

/// A constant for each of two bands.
pub fn constants_of_two_bands()
    ensures { file (with_constants 1 2 2 (3 ∷ 0 ∷ [])) (200 ∷ 200 ∷ 128 ∷ 128 ∷ []) ≡ bytes 23 0x00000100020002110000080002A0925900823F30908008 }
{}

/// Segments of 64 blocks are counted from the reference interval's border.
pub fn segments_from_each_reference_border()
    ensures { file (block 1 1040 1 false 65) (middles 1040) ≡ bytes 23 0x000001041000011100000C0002A0925900004100840210 }
{}

/// Of two equally short options, uncoded comes before the second extension.
pub fn uncoded_before_second_extension()
    ensures { file_of_residuals (2 ∷ 0 ∷ 2 ∷ 0 ∷ 2 ∷ 0 ∷ 0 ∷ 1 ∷ []) (few_bits 8 2 true) ≡ bytes 22 0x000001000800010500000C0002A09259001001C44080 }
{}

/// Weights start at a band's second sample, with two bands below.
pub fn weights_start_at_the_second_sample()
    ensures { file two_below (255 ∷ 0 ∷ 232 ∷ 255 ∷ 0 ∷ 11 ∷ []) ≡ bytes 29 0x0000010002000311000008000AA00259008226FE0000FF170000FFFF58 }
{}

/// A weight of the table, with its half below the resolution.
pub fn coarse_weight_table()
    ensures { file (coarse_table 3 (negsuc 0)) (255 ∷ 242 ∷ 176 ∷ 255 ∷ []) ≡ bytes 26 0x00000100020002110000080006A0025963E08226FE6A78000478 }
{}

/// A weight of the table in its whole resolution.
pub fn fine_weight_table()
    ensures { file (coarse_table 7 (negsuc 21)) (31 ∷ 0 ∷ 0 ∷ 0 ∷ []) ≡ bytes 26 0x00000100020002110000080006A0025967D48226C101C7A00680 }
{}

/// An error of zero counts as positive.
pub fn error_of_zero_counts_as_positive()
    ensures { file (coarse_steps 1 3 2 (negsuc 5)) (255 ∷ 225 ∷ 0 ∷ 0 ∷ 0 ∷ 0 ∷ []) ≡ bytes 28 0x00000100030002110000080006A00200008226FE1C0003FFF00001FE }
{}

/// A step that would take a weight below the least leaves it at the least.
pub fn weight_stops_at_the_least()
    ensures { file (coarse_steps 1 3 2 (negsuc 5)) (156 ∷ 184 ∷ 198 ∷ 194 ∷ 205 ∷ 151 ∷ []) ≡ bytes 25 0x00000100030002110000080006A002000082263803DB4C1730 }
{}

/// A scaled prediction stays at its greatest value.
pub fn greatest_prediction()
    ensures { file (coarse_steps 1 3 2 (negsuc 5)) (79 ∷ 255 ∷ 73 ∷ 228 ∷ 255 ∷ 106 ∷ [])
        ≡ bytes 29 0x00000100030002110000080006A00200008226610000FF3B72400004A8 }
{}

/// The exponent of the weight steps is counted from the second row.
pub fn exponent_is_counted_from_the_second_row()
    ensures { file growing_steps (174 ∷ 86 ∷ 0 ∷ 255 ∷ 112 ∷ 156 ∷ 0 ∷ 0 ∷ 255 ∷ 255 ∷ 0 ∷ 255 ∷ 255 ∷ 255 ∷ 255 ∷ 0 ∷ 255 ∷ 106 ∷ 0 ∷ 0 ∷ 0 ∷ 237 ∷ 255 ∷ 81 ∷ 154 ∷ 255 ∷ 255 ∷ 255 ∷ 97 ∷ 82 ∷ 255 ∷ 255 ∷ 215 ∷ 144 ∷ 0 ∷ 247 ∷ 255 ∷ 255 ∷ 216 ∷ 255 ∷ 255 ∷ 255 ∷ 130 ∷ 255 ∷ 255 ∷ 255 ∷ 255 ∷ 255 ∷ []) ≡ bytes 73 0x00000800030002110000080006A0000F0082265C0000A9360FE4F571FE01847F81007F1147F8100AB007F1FE94051270000FF81003E36C081A0A03FC8803FE7809F00843FC026A68FE }
{}

/// Twelve residuals of zero.
pub fn twelve_zeros()
    ensures { file_of_residuals (replicate 12 0) (cube_a (Bi 2)) ≡ bytes 26 0x0000030002000210000208000420925900822600008888924900 }
{}
