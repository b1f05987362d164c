//! Worked headers that are refused, and one with free bits.
#![tactic(auto, unfolding(crate::specs::Unfold::everything))]

ghost use Rattle.std.specs.Prelude.{◌≡◌, [], Ok, Err, pos};
ghost use Rattle.cube_core.specs.declared.fault.Fault.TheVariants.{ShortHeader, Reserved, FieldRange, Disagree};
ghost use Rattle.cube_core.specs.declared.fault.Field.TheVariants as field;
ghost use Rattle.cube_core.specs.declared.fault.Rule.TheVariants as rule;
ghost use Rattle.header_bits.specs.Bits.{bits_of};
ghost use Rattle.header_bits.specs.Header.{header_at};
ghost use Rattle.header_bits.specs.Examples.{common, with_register, with_sample_coder, header};

/// Under band sequential order the field of the depth may hold any bits.
pub fn any_depth_under_band_sequential_order()
    ensures { header_at (header 0x00000100010001111234080002A09259008226) ≡ Ok (common 1 1 1, []) }
{}

/// The image part is cut.
pub fn eleven_bytes_are_short()
    ensures { header_at (bits_of 88 0x0000010001000111000008) ≡ Err ShortHeader }
{}

/// The coder part is cut.
pub fn eighteen_bytes_are_short()
    ensures { header_at (bits_of 144 0x00000100010001110000080002A092590082) ≡ Err ShortHeader }
{}

/// Samples of one bit.
pub fn one_bit_samples()
    ensures { header_at (header 0x00000100010001030000080002A09259008226) ≡ Err (FieldRange field.DynamicRange (pos 1)) }
{}

/// A unary length limit of 7.
pub fn unary_limit_below_eight()
    ensures { header_at (header 0x00000100010001110000080002A09259003A26) ≡ Err (FieldRange field.Umax (pos 7)) }
{}

/// A rescaling counter size of 10.
pub fn rescaling_size_ten()
    ensures { header_at (header 0x00000100010001110000080002A09259008626) ≡ Err (FieldRange field.GammaStar (pos 10)) }
{}

/// An accumulator constant of 7 with samples of eight bits.
pub fn constant_above_depth()
    ensures { header_at (header 0x00000100010001110000080002A0925900822E) ≡ Err (Disagree rule.StartConstant) }
{}

/// Neighbour-oriented sums with one column.
pub fn neighbour_sums_of_one_column()
    ensures { header_at (header 0x00000100010001110000080002209259008226) ≡ Err (Disagree rule.NeighbourOneColumn) }
{}

/// The last bit of the image part is reserved.
pub fn last_reserved_bit_of_the_image_part()
    ensures { header_at (header 0x00000100010001110000080102A09259008226) ≡ Err (Reserved 95) }
{}

/// A table beside the default weight initialization.
pub fn default_start_with_table()
    ensures { header_at (header 0x00000100010001110000080002A09259208226) ≡ Err (Disagree rule.DefaultWithTable) }
{}

/// A resolution beside the default weight initialization.
pub fn default_start_with_resolution()
    ensures { header_at (header 0x00000100010001110000080002A09259018226) ≡ Err (Disagree rule.DefaultWithResolution) }
{}

/// The bit before the weight start is reserved.
pub fn reserved_bit_before_the_weight_start()
    ensures { header_at (header 0x00000100010001110000080002A09259808226) ≡ Err (Reserved 128) }
{}

/// Full mode with one column.
pub fn full_mode_of_one_column()
    ensures { header_at (header 0x00000100010001110000080000A09259008226) ≡ Err (Disagree rule.FullOneColumn) }
{}

/// The first bit of the block-adaptive coder's part is reserved.
pub fn reserved_bit_of_the_block_part()
    ensures { header_at (header 0x000001000100011100000C0002A09259008001) ≡ Err (Reserved 136) }
{}

/// A register that is a bit too small for the sums, and the least that is wide enough.
pub fn least_register()
    ensures refused { header_at (header 0x00000100010001010000080002A4F259008226) ≡ Err (Disagree rule.RegisterTooSmall) }
    ensures read { header_at (header 0x00000100010001010000080002A5F259008226) ≡ Ok (with_register 37, []) }
{}

/// γ₀ equal to γ*, so that the counter would start above 2^γ* - 1, where it is rescaled; and γ₀ one less.
pub fn equal_counter_exponents()
    ensures refused { header_at (header 0x00000100020001110000080002A092590082C6) ≡ Err (Disagree rule.CounterOrder) }
    ensures read { header_at (header 0x00000100020001110000080002A092590082A6) ≡ Ok (with_sample_coder 16 6 5 3, []) }
{}
