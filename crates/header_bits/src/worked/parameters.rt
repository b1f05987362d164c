//! Worked parameters, and their first refusals.
#![tactic(auto, unfolding(crate::specs::Unfold::everything))]

ghost use Rattle.std.specs.Prelude.{◌≡◌, [], ◌∷◌, Err, true, false, pos, negsuc};
ghost use Rattle.cube_core.specs.declared.fault.Fault.TheVariants.{FieldRange, Disagree};
ghost use Rattle.cube_core.specs.declared.fault.Field.TheVariants as field;
ghost use Rattle.cube_core.specs.declared.fault.Rule.TheVariants as rule;
ghost use Rattle.cube_core.specs.declared.order.Order.TheVariants.{Bi};
ghost use Rattle.header_bits.specs.declared.params.Coder.TheVariants.{Sample};
ghost use Rattle.header_bits.specs.declared.params.CountStart.TheVariants.{Constant};
ghost use Rattle.header_bits.specs.Parts.{fine};
ghost use Rattle.header_bits.specs.Lawful.{params_fault};
ghost use Rattle.header_bits.specs.Examples.{common, narrow_block, with_weights, with_constants, with_sample_coder, with_exponents, with_register, full_weights};

/// The parameters that the examples share.
pub fn common_parameters()
    ensures { params_fault (common 1 1 1) ≡ fine }
{}

/// A depth of no bands.
pub fn depth_zero()
    ensures { params_fault (record (common 1 1 2) { order = Bi 0 }) ≡ Err (FieldRange field.Depth (pos 0)) }
{}

/// A depth of more bands than there are.
pub fn depth_over_bands()
    ensures { params_fault (record (common 1 1 2) { order = Bi 3 }) ≡ Err (Disagree rule.DepthOverBands) }
{}

/// A register below the 37 bits that sixteen-bit samples and 19 fractional bits need.
pub fn register_too_small()
    ensures { params_fault (with_register 36) ≡ Err (Disagree rule.RegisterTooSmall) }
{}

/// The least register for samples of sixteen bits and the most weight resolution.
pub fn register_just_wide_enough()
    ensures { params_fault (with_register 37) ≡ fine }
{}

/// A register of 65 bits.
pub fn register_too_large()
    ensures { params_fault (with_register 65) ≡ Err (FieldRange field.Register (pos 65)) }
{}

/// An exponent of -7.
pub fn exponent_too_small()
    ensures { params_fault (with_exponents (negsuc 6) (pos 3)) ≡ Err (FieldRange field.VMin (negsuc 6)) }
{}

/// The least exponent above the greatest.
pub fn exponents_in_disorder()
    ensures { params_fault (with_exponents (pos 3) (pos 2)) ≡ Err (Disagree rule.ExponentOrder) }
{}

/// Full mode with one column and column-oriented sums.
pub fn full_mode_of_one_column_with_column_sums()
    ensures { params_fault (record (common 1 1 1) { reduced = false }) ≡ Err (Disagree rule.FullOneColumn) }
{}

/// Full mode comes before the sums.
pub fn full_mode_of_one_column_with_neighbour_sums()
    ensures { params_fault (record (common 1 1 1) { reduced = false; column = false }) ≡ Err (Disagree rule.FullOneColumn) }
{}

/// The unary length limit comes before the counter.
pub fn unary_limit_first()
    ensures { params_fault (with_sample_coder 7 6 9 3) ≡ Err (FieldRange field.Umax (pos 7)) }
{}

/// A first exponent that reaches the rescaling counter size.
pub fn counter_order()
    ensures { params_fault (with_sample_coder 16 5 5 3) ≡ Err (Disagree rule.CounterOrder) }
{}

/// A constant of 7 with samples of eight bits.
pub fn constant_over_depth()
    ensures { params_fault (with_sample_coder 16 6 1 7) ≡ Err (Disagree rule.StartConstant) }
{}

/// A table without the weight that it needs.
pub fn weights_missing()
    ensures { params_fault (with_weights 1 2 2 1 3 []) ≡ Err (Disagree rule.WeightTableLength) }
{}

/// A weight of 4 in three bits.
pub fn weight_out_of_bits()
    ensures { params_fault (with_weights 1 2 2 1 3 (pos 4 ∷ [])) ≡ Err (FieldRange field.WeightEntry (pos 4)) }
{}

/// A table with its one weight.
pub fn weights_in_full()
    ensures { params_fault (with_weights 1 2 2 1 3 (negsuc 0 ∷ [])) ≡ fine }
{}

/// Full mode has three weights more in each band.
pub fn weights_of_full_mode()
    ensures seven { params_fault (full_weights 7) ≡ fine }
    ensures six { params_fault (full_weights 6) ≡ Err (Disagree rule.WeightTableLength) }
{}

/// The weight start is checked before the coder.
pub fn weights_are_checked_before_the_coder()
    ensures { params_fault (record (with_weights 1 2 2 1 3 []) { coder = Sample 7 6 1 (Constant 3) }) ≡ Err (Disagree rule.WeightTableLength) }
{}

/// A table without the constant that it needs.
pub fn constants_missing()
    ensures { params_fault (with_constants 1 2 1 []) ≡ Err (Disagree rule.AccumulatorTableLength) }
{}

/// A table with its one constant.
pub fn constants_in_full()
    ensures { params_fault (with_constants 1 2 1 (3 ∷ [])) ≡ fine }
{}

/// The restricted set for samples of five bits.
pub fn restricted_over_four()
    ensures { params_fault (narrow_block 5 true) ≡ Err (Disagree rule.RestrictedOverFour) }
{}

/// The restricted set for samples of four bits.
pub fn restricted_at_four()
    ensures { params_fault (narrow_block 4 true) ≡ fine }
{}
