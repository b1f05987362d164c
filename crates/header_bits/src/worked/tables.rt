//! Worked headers with tables, or with the restricted set of options.
#![tactic(auto, unfolding(crate::specs::Unfold::everything))]

ghost use Rattle.std.specs.Prelude.{◌≡◌, [], ◌∷◌, Ok, Err, true, pos, negsuc};
ghost use Rattle.cube_core.specs.declared.fault.Fault.TheVariants.{ShortHeader, Reserved, FieldRange, Disagree, TableElsewhere};
ghost use Rattle.cube_core.specs.declared.fault.Field.TheVariants as field;
ghost use Rattle.cube_core.specs.declared.fault.Rule.TheVariants as rule;
ghost use Rattle.header_bits.specs.Bits.{bits_of};
ghost use Rattle.header_bits.specs.Header.{header_at, header_of};
ghost use Rattle.header_bits.specs.Examples.{narrow_block, with_weights, with_constants, header};

/// In reduced mode and without previous bands a table has no entries, and no bytes.
pub fn table_of_no_weights()
    ensures written { header_of (with_weights 1 1 1 0 3 []) ≡ header 0x00000100010001110000080002A09259638226 }
    ensures read { header_at (header 0x00000100010001110000080002A09259638226) ≡ Ok (with_weights 1 1 1 0 3 [], []) }
{}

/// One weight, given by -1 in three bits.
pub fn table_of_one_weight()
    ensures written { header_of (with_weights 1 2 2 1 3 (negsuc 0 ∷ [])) ≡ bits_of 160 0x00000100020002110000080006A0925963E08226 }
    ensures read { header_at (bits_of 160 0x00000100020002110000080006A0925963E08226) ≡ Ok (with_weights 1 2 2 1 3 (negsuc 0 ∷ []), []) }
{}

/// One band's constant, 3.
pub fn table_of_one_constant()
    ensures written { header_of (with_constants 1 2 1 (3 ∷ [])) ≡ bits_of 160 0x00000100020001110000080002A0925900823F30 }
    ensures read { header_at (bits_of 160 0x00000100020001110000080002A0925900823F30) ≡ Ok (with_constants 1 2 1 (3 ∷ []), []) }
{}

/// Two bands' constants, 3 and 0.
pub fn table_of_two_constants()
    ensures written { header_of (with_constants 1 2 2 (3 ∷ 0 ∷ [])) ≡ bits_of 160 0x00000100020002110000080002A0925900823F30 }
    ensures read { header_at (bits_of 160 0x00000100020002110000080002A0925900823F30) ≡ Ok (with_constants 1 2 2 (3 ∷ 0 ∷ []), []) }
{}

/// The restricted set for samples of two bits.
pub fn restricted_two_bits()
    ensures written { header_of (narrow_block 2 true) ≡ header 0x000001000100010500000C0002A09259001001 }
    ensures read { header_at (header 0x000001000100010500000C0002A09259001001) ≡ Ok (narrow_block 2 true, []) }
{}

/// The restricted set for samples of four bits.
pub fn restricted_four_bits()
    ensures written { header_of (narrow_block 4 true) ≡ header 0x000001000100010900000C0002A09259001001 }
    ensures read { header_at (header 0x000001000100010900000C0002A09259001001) ≡ Ok (narrow_block 4 true, []) }
{}

/// A custom weight start without a table in the file.
pub fn weights_from_elsewhere()
    ensures { header_at (header 0x00000100010001110000080002A09259408226) ≡ Err TableElsewhere }
{}

/// A table of two bits an entry.
pub fn resolution_two()
    ensures { header_at (header 0x00000100010001110000080002A09259628226) ≡ Err (FieldRange field.Resolution (pos 2)) }
{}

/// A table of more bits an entry than weights have.
pub fn resolution_over_weights()
    ensures { header_at (header 0x00000100010001110000080002A09259718226) ≡ Err (Disagree rule.ResolutionOverOmega) }
{}

/// The last fill bit of a weight table is one.
pub fn last_fill_bit_of_weights()
    ensures { header_at (bits_of 160 0x00000100020002110000080006A0925963E18226) ≡ Err (Reserved 143) }
{}

/// The first fill bit of a weight table is one.
pub fn first_fill_bit_of_weights()
    ensures { header_at (bits_of 160 0x00000100020002110000080006A0925963F08226) ≡ Err (Reserved 139) }
{}

/// A weight table is cut.
pub fn weights_cut()
    ensures { header_at (bits_of 136 0x00000100020002110000080006A0925963) ≡ Err ShortHeader }
{}

/// A constant of 7 in a table, with samples of eight bits.
pub fn constant_of_table_above_depth()
    ensures { header_at (bits_of 160 0x00000100020001110000080002A0925900823F70) ≡ Err (Disagree rule.AccumulatorEntry) }
{}

/// A fill bit of an accumulator table is one.
pub fn fill_bit_of_constants()
    ensures { header_at (bits_of 160 0x00000100020001110000080002A0925900823F31) ≡ Err (Reserved 159) }
{}

/// An accumulator table is cut.
pub fn constants_cut()
    ensures { header_at (header 0x00000100020001110000080002A0925900823F) ≡ Err ShortHeader }
{}

/// A constant that isn't 15 beside a table.
pub fn constant_beside_table()
    ensures { header_at (bits_of 160 0x00000100020001110000080002A0925900823730) ≡ Err (Disagree rule.ConstantWithTable) }
{}

/// A constant of 15 without a table.
pub fn fifteen_without_table()
    ensures { header_at (bits_of 160 0x00000100020001110000080002A0925900823E30) ≡ Err (Disagree rule.StartConstant) }
{}

/// The restricted set for samples of eight bits.
pub fn restricted_eight_bits()
    ensures { header_at (header 0x000001000100011100000C0002A09259001001) ≡ Err (Disagree rule.RestrictedOverFour) }
{}

/// The restricted set for samples of five bits.
pub fn restricted_five_bits()
    ensures { header_at (header 0x000001000100010B00000C0002A09259001001) ≡ Err (Disagree rule.RestrictedOverFour) }
{}
