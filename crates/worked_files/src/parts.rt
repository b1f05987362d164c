//! Worked examples of the parts that predictors make of cube A, interleaved by pixel.
#![tactic(auto, unfolding(crate::specs::Unfold::everything))]

ghost use Rattle.std.specs.Prelude.{◌≡◌, ◌∷◌, [], map, pos};
ghost use Rattle.cube_core.specs.declared.order.Order.TheVariants.{Bi};
ghost use Rattle.header_bits.specs.Examples.{cube_a};
ghost use Rattle.coder_pipe.specs.Weave.{parts, weave};
ghost use Rattle.worked_files.specs.Examples.{cube, samples_a};

/// A predictor for each band.
pub fn a_band_each()
    ensures { parts 2 (0 ∷ 1 ∷ []) (cube_a (Bi 2)) (cube (cube_a (Bi 2)) (map pos samples_a)) ≡ (55 ∷ 3 ∷ 5 ∷ 0 ∷ 4 ∷ 2 ∷ [])
        ∷ (20 ∷ 1 ∷ 2 ∷ 2 ∷ 1 ∷ 2 ∷ []) ∷ [] }
{}

/// One predictor owns both bands, and one owns none.
pub fn all_bands_to_one()
    ensures { parts 2 (0 ∷ 0 ∷ []) (cube_a (Bi 2)) (cube (cube_a (Bi 2)) (map pos samples_a)) ≡ (55 ∷ 20 ∷ 3 ∷ 1 ∷ 5 ∷ 2 ∷ 0 ∷ 2 ∷ 4 ∷ 1 ∷ 2 ∷ 2 ∷ [])
        ∷ [] ∷ [] }
{}

/// Numbers are taken in the order of their owners' places.
pub fn two_lists_woven()
    ensures { weave (0 ∷ 1 ∷ 0 ∷ 1 ∷ []) ((55 ∷ 3 ∷ []) ∷ (20 ∷ 1 ∷ []) ∷ []) ≡ 55 ∷ 20 ∷ 3 ∷ 1 ∷ [] }
{}

/// Weaving ends at the first place whose owner has no number left.
pub fn a_list_that_ends_early()
    ensures { weave (0 ∷ 1 ∷ 0 ∷ 1 ∷ 0 ∷ []) ((55 ∷ 3 ∷ 5 ∷ []) ∷ (20 ∷ []) ∷ []) ≡ 55 ∷ 20 ∷ 3 ∷ [] }
{}
