//! Whole files that are refused, and the first fault of each; and some that a decoder must accept.
#![tactic(auto, unfolding(crate::specs::Unfold::everything))]

ghost use Rattle.std.specs.Prelude.{◌≡◌, Err};
ghost use Rattle.cube_core.specs.declared.fault.Fault.TheVariants.{ShortHeader, Reserved, Disagree, Truncated};
ghost use Rattle.cube_core.specs.declared.fault.Fault.TheVariants.{BadCode, BadOption, RunPastSegment, BadFill, TooLong};
ghost use Rattle.cube_core.specs.declared.fault.Rule.TheVariants as rule;
ghost use Rattle.header_bits.specs.Parts.{fine};
ghost use Rattle.worked_files.specs.Examples.{test};

/// The last bit of two equal samples' file is one.
pub fn a_bit_after_the_body_is_one()
    ensures { test 21 0x00000100020001110000080002A092590082269081 ≡ Err BadFill }
{}

/// The second code word has no bits.
pub fn last_byte_is_gone()
    ensures { test 20 0x00000100020001110000080002A0925900822690 ≡ Err (Truncated 160) }
{}

/// A byte of zeros after the last output word.
pub fn a_byte_too_many()
    ensures { test 22 0x00000100020001110000080002A09259008226908000 ≡ Err (TooLong 12) }
{}

/// A byte too many, with a one in it.
pub fn too_long_before_bad_fill()
    ensures { test 22 0x00000100020001110000080002A09259008226908001 ≡ Err (TooLong 12) }
{}

/// Eight bits after a body that ends with a byte.
pub fn a_whole_output_word_too_many()
    ensures { test 22 0x00000100010001810000080002A09259008226FFFF00 ≡ Err (TooLong 8) }
{}

/// One residual of eight bits where two are due.
pub fn first_residual_alone()
    ensures { test 20 0x00000100020001110000080002A09259008226FF ≡ Err (Truncated 160) }
{}

/// With output words of four bytes, a body that is filled to two.
pub fn body_filled_by_itself()
    ensures { test 21 0x00000100020001110000200002A092590082269080 ≡ fine }
{}

/// The same, filled to four bytes without the header.
pub fn body_filled_alone()
    ensures { test 23 0x00000100020001110000200002A0925900822690800000 ≡ fine }
{}

/// 3 after eight zeros: its code word is three zeros and a one.
pub fn needless_escape()
    ensures { test 22 0x00000100020001110000080002A09259004220900003 ≡ Err (BadCode 1) }
{}

/// In band sequential order its index is 3.
pub fn second_number_of_the_second_band()
    ensures { test 24 0x00000100020002110000080002A0925900422090C8000180 ≡ Err (BadCode 3) }
{}

/// Interleaved by line its index is 2.
pub fn second_number_of_the_first_band()
    ensures { test 23 0x00000100020002100001080002A0925900422090900003 ≡ Err (BadCode 2) }
{}

/// A run of five blocks where the reference interval has four.
pub fn run_past_reference_interval()
    ensures { test 22 0x000001003000011100000C0002A09259000004004210 ≡ Err (RunPastSegment 0) }
{}

/// A run of 65 blocks.
pub fn run_past_64_blocks()
    ensures { test 30 0x000001041000011100000C0002A092590000000000000000000000040201 ≡ Err (RunPastSegment 0) }
{}

/// A run of five by its plain code, which is the segment's rest.
pub fn plain_code_of_a_rest()
    ensures { test 21 0x000001002800011100000C0002A092590000080040 ≡ fine }
{}

/// A run code may have four zeros, and not five.
pub fn five_zeros_where_one_block_is_left()
    ensures { test 21 0x000001000100011100000C0002A092590000010000 ≡ Err (RunPastSegment 0) }
{}

/// A run code may have six zeros, and not seven.
pub fn seven_zeros_where_six_blocks_are_left()
    ensures { test 21 0x000001003000011100000C0002A092590000080000 ≡ Err (RunPastSegment 0) }
{}

/// Number 10 is the pair of 4 and 0.
pub fn pair_above_the_greatest_value()
    ensures { test 22 0x000001000100010500000C0002A092590000011003C0 ≡ Err (BadOption 0) }
{}

/// Number 24 is the pair of 3 and 3.
pub fn last_pair()
    ensures { test 23 0x000001000800010500000C0002A092590000011000000F ≡ fine }
{}

/// 25 zeros, before any one.
pub fn one_zero_too_many()
    ensures { test 23 0x000001000100010500000C0002A0925900000110000000 ≡ Err (BadOption 0) }
{}

/// Seven filled values of 255.
pub fn any_filled_values()
    ensures { test 28 0x000001000100011100000C0002A09259000001F21FFFFFFFFFFFFFE0 ≡ fine }
{}

/// Eleven bytes.
pub fn end_inside_the_header()
    ensures { test 11 0x0000010002000111000008 ≡ Err ShortHeader }
{}

/// A reserved bit is one, and the body is missing.
pub fn header_before_body()
    ensures { test 19 0x00000100020001110000080102A09259008226 ≡ Err (Reserved 95) }
{}

/// Five bits are too many for the restricted set.
pub fn five_bits_restricted()
    ensures { test 20 0x000001000100010B00000C0002A0925900100100 ≡ Err (Disagree rule.RestrictedOverFour) }
{}
