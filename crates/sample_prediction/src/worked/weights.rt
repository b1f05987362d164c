//! Weights: their start, their steps and their bounds.
#![tactic(auto, unfolding(crate::specs::Unfold::everything))]

ghost use Rattle.std.specs.Prelude.{◌≡◌, ◌∷◌, [], pos, negsuc, neg_ℤ};
ghost use Rattle.sample_prediction.specs.Predictor.{predictor_of};
ghost use Rattle.sample_prediction.specs.Differences.{directional_differences};
ghost use Rattle.sample_prediction.specs.Weights.{table_weights, default_weights, step};
ghost use Rattle.sample_prediction.specs.Prediction.{weight_vector};
ghost use Rattle.sample_prediction.specs.Residual.{residuals};
ghost use Rattle.sample_prediction.specs.Examples.{cube, cube_a, one_below, coarse_steps, coarse_table, coarse, growing_steps, full};
ghost use Rattle.header_bits.specs.declared.params.WeightStart.TheVariants.{Table};

/// The first place of a band changes no weight.
pub fn weights_start_at_the_second_place()
    ensures { residuals (record coarse { previous = 2 }) (cube 1 2 3 (255 ∷ 0 ∷ 232 ∷ 255 ∷ 0 ∷ 11 ∷ [])) ≡ 254 ∷ 255 ∷ 23 ∷ 255 ∷ 255 ∷ 11 ∷ [] }
{}

/// An error of 0 counts as positive: the weight moves in the direction of the difference.
pub fn error_of_zero_counts_as_positive()
    ensures { residuals (coarse_steps (negsuc 5)) (cube 1 3 2 (255 ∷ 225 ∷ 0 ∷ 0 ∷ 0 ∷ 0 ∷ [])) ≡ 254 ∷ 30 ∷ 255 ∷ 255 ∷ 0 ∷ 255 ∷ [] }
{}

/// A step that would take a weight below the least, here -64, leaves it at the least.
pub fn weight_stops_at_the_least()
    ensures { residuals (coarse_steps (negsuc 5)) (cube 1 3 2 (156 ∷ 184 ∷ 198 ∷ 194 ∷ 205 ∷ 151 ∷ [])) ≡ 56 ∷ 55 ∷ 27 ∷ 76 ∷ 27 ∷ 3 ∷ [] }
{}

/// A scaled prediction may be one more than twice the greatest sample.
pub fn greatest_scaled_prediction_is_odd()
    ensures { residuals (coarse_steps (negsuc 5)) (cube 1 3 2 (79 ∷ 255 ∷ 73 ∷ 228 ∷ 255 ∷ 106 ∷ [])) ≡ 97 ∷ 255 ∷ 182 ∷ 228 ∷ 0 ∷ 149 ∷ [] }
{}

/// The exponent of the steps is counted from the second row.
pub fn exponent_is_counted_from_the_second_row()
    ensures { residuals growing_steps (cube 8 3 2 (174 ∷ 86 ∷ 0 ∷ 255 ∷ 112 ∷ 156 ∷ 0 ∷ 0 ∷ 255 ∷ 255 ∷ 0 ∷ 255 ∷ 255 ∷ 255 ∷ 255 ∷ 0 ∷ 255 ∷ 106 ∷ 0 ∷ 0
        ∷ 0 ∷ 237 ∷ 255 ∷ 81 ∷ 154 ∷ 255 ∷ 255 ∷ 255 ∷ 97 ∷ 82 ∷ 255 ∷ 255 ∷ 215 ∷ 144 ∷ 0 ∷ 247 ∷ 255 ∷ 255 ∷ 216 ∷ 255 ∷ 255 ∷ 255 ∷ 130 ∷ 255 ∷ 255 ∷ 255
        ∷ 255 ∷ 255 ∷ [])) ≡ 92 ∷ 169 ∷ 172 ∷ 255 ∷ 143 ∷ 87 ∷ 255 ∷ 0 ∷ 161 ∷ 255 ∷ 0 ∷ 0 ∷ 255 ∷ 197 ∷ 255 ∷ 0 ∷ 0 ∷ 149 ∷ 0 ∷ 255 ∷ 255 ∷ 18 ∷ 0 ∷ 81
        ∷ 39 ∷ 255 ∷ 0 ∷ 0 ∷ 158 ∷ 173 ∷ 0 ∷ 0 ∷ 40 ∷ 144 ∷ 255 ∷ 8 ∷ 0 ∷ 255 ∷ 39 ∷ 0 ∷ 79 ∷ 0 ∷ 130 ∷ 255 ∷ 0 ∷ 141 ∷ 77 ∷ 255 ∷ [] }
{}

/// A weight table: below the bits of an entry come a zero and then ones.
pub fn table_entry_of_three_bits()
    ensures { residuals (coarse_table 3 (negsuc 0)) (cube 1 2 2 (255 ∷ 242 ∷ 176 ∷ 255 ∷ [])) ≡ 254 ∷ 13 ∷ 79 ∷ 143 ∷ [] }
{}

/// An entry may have all bits of a weight.
pub fn table_entry_of_all_bits()
    ensures { residuals (coarse_table 7 (neg_ℤ (pos 22))) (cube 1 2 2 (31 ∷ 0 ∷ 0 ∷ 0 ∷ [])) ≡ 193 ∷ 62 ∷ 61 ∷ 85 ∷ [] }
{}

/// A weight of -4097 from a table.
pub fn weight_table()
    ensures { residuals (record one_below { start = Table 3 (negsuc 0 ∷ []) }) (cube 1 2 2 (100 ∷ 110 ∷ 50 ∷ 60 ∷ [])) ≡ 55 ∷ 19 ∷ 99 ∷ 30 ∷ [] }
{}

/// That weight.
pub fn weight_from_table()
    ensures { weight_vector (record one_below { start = Table 3 (negsuc 0 ∷ []) }) (cube 1 2 2 (100 ∷ 110 ∷ 50 ∷ 60 ∷ [])) 1 1 ≡ neg_ℤ (pos 4097) ∷ [] }
{}

/// A table has its entries band after band, and the first band has none in reduced mode.
pub fn table_of_three_bands()
    ensures { table_weights (predictor_of (record one_below { previous = 2 })) 16 (pos 5 ∷ pos 6 ∷ pos 7 ∷ []) 2 ≡ pos 6 ∷ pos 7 ∷ [] }
{}

/// In full mode the weights of the directions come first.
pub fn table_in_full_mode()
    ensures { table_weights (predictor_of full) 16 (pos 1 ∷ pos 2 ∷ pos 3 ∷ pos 4 ∷ pos 5 ∷ pos 6 ∷ pos 7 ∷ []) 1 ≡ pos 4 ∷ pos 5 ∷ pos 6 ∷ pos 7 ∷ [] }
{}

/// The default weights: seven eighths, and an eighth of the one before.
pub fn default_weights_of_three_bands()
    ensures { default_weights (predictor_of (record full { previous = 3 })) 5 ≡ pos 0 ∷ pos 0 ∷ pos 0 ∷ pos 7168 ∷ pos 896 ∷ pos 112 ∷ [] }
{}

/// The directional differences come in the order north, west, north-west; in the first column the north one replaces the others.
pub fn directions_in_order()
    ensures inside { directional_differences (predictor_of full) cube_a 0 1 1 ≡ pos 0 ∷ negsuc 3 ∷ negsuc 7 ∷ [] }
    ensures first_column { directional_differences (predictor_of full) cube_a 0 1 0 ≡ negsuc 3 ∷ negsuc 3 ∷ negsuc 3 ∷ [] }
    ensures first_row { directional_differences (predictor_of full) cube_a 0 0 1 ≡ pos 0 ∷ pos 0 ∷ pos 0 ∷ [] }
{}

/// A step is rounded to the nearest number, a half upwards; below exponent -1 it is a multiple.
pub fn steps_are_rounded()
    ensures half { step (pos 0) (pos 1) ≡ pos 1 }
    ensures less_than_half { step (pos 2) (pos 3) ≡ pos 0 }
    ensures half_of_eight { step (pos 2) (pos 4) ≡ pos 1 }
    ensures negative_half { step (pos 2) (negsuc 3) ≡ pos 0 }
    ensures beyond_negative_half { step (pos 2) (negsuc 4) ≡ negsuc 0 }
    ensures whole { step (negsuc 0) (pos 3) ≡ pos 3 }
    ensures twice { step (negsuc 1) (pos 3) ≡ pos 6 }
{}
