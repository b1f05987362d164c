//! The identifiers of all options, and the run codes, as laws on the definitions.
#![tactic(auto, unfolding(crate::specs::Unfold::everything))]

ghost use Rattle.std.specs.Prelude.{◌≡◌, ◌∷◌, [], false, true};
ghost use Rattle.block_adaptive.specs.declared.options.Choice.TheVariants.{Uncoded, Second, Split};
ghost use Rattle.block_adaptive.specs.Options.{identifier, zero_identifier, splits};
ghost use Rattle.block_adaptive.specs.DataSets.{run_code, rest_code};
ghost use Rattle.block_adaptive.specs.Segments.{segment_count};
ghost use Rattle.block_adaptive.specs.Examples.{plain, restricted};

/// Up to eight bits.
pub fn identifiers_of_eight_bits()
    ensures zero_blocks { zero_identifier (plain 8) ≡ false ∷ false ∷ false ∷ false ∷ [] }
    ensures second { identifier (plain 8) Second ≡ false ∷ false ∷ false ∷ true ∷ [] }
    ensures k_0 { identifier (plain 8) (Split 0) ≡ false ∷ false ∷ true ∷ [] }
    ensures k_1 { identifier (plain 8) (Split 1) ≡ false ∷ true ∷ false ∷ [] }
    ensures k_2 { identifier (plain 8) (Split 2) ≡ false ∷ true ∷ true ∷ [] }
    ensures k_3 { identifier (plain 8) (Split 3) ≡ true ∷ false ∷ false ∷ [] }
    ensures k_4 { identifier (plain 8) (Split 4) ≡ true ∷ false ∷ true ∷ [] }
    ensures k_5 { identifier (plain 8) (Split 5) ≡ true ∷ true ∷ false ∷ [] }
    ensures uncoded { identifier (plain 8) Uncoded ≡ true ∷ true ∷ true ∷ [] }
    ensures count_of_k { splits (plain 8) ≡ 6 }
{}

/// From nine bits on.
pub fn identifiers_of_nine_bits()
    ensures zero_blocks { zero_identifier (plain 9) ≡ false ∷ false ∷ false ∷ false ∷ false ∷ [] }
    ensures second { identifier (plain 9) Second ≡ false ∷ false ∷ false ∷ false ∷ true ∷ [] }
    ensures k_0 { identifier (plain 9) (Split 0) ≡ false ∷ false ∷ false ∷ true ∷ [] }
    ensures k_1 { identifier (plain 9) (Split 1) ≡ false ∷ false ∷ true ∷ false ∷ [] }
    ensures k_2 { identifier (plain 9) (Split 2) ≡ false ∷ false ∷ true ∷ true ∷ [] }
    ensures k_3 { identifier (plain 9) (Split 3) ≡ false ∷ true ∷ false ∷ false ∷ [] }
    ensures k_4 { identifier (plain 9) (Split 4) ≡ false ∷ true ∷ false ∷ true ∷ [] }
    ensures k_5 { identifier (plain 9) (Split 5) ≡ false ∷ true ∷ true ∷ false ∷ [] }
    ensures k_6 { identifier (plain 9) (Split 6) ≡ false ∷ true ∷ true ∷ true ∷ [] }
    ensures k_7 { identifier (plain 9) (Split 7) ≡ true ∷ false ∷ false ∷ false ∷ [] }
    ensures k_8 { identifier (plain 9) (Split 8) ≡ true ∷ false ∷ false ∷ true ∷ [] }
    ensures k_9 { identifier (plain 9) (Split 9) ≡ true ∷ false ∷ true ∷ false ∷ [] }
    ensures k_10 { identifier (plain 9) (Split 10) ≡ true ∷ false ∷ true ∷ true ∷ [] }
    ensures k_11 { identifier (plain 9) (Split 11) ≡ true ∷ true ∷ false ∷ false ∷ [] }
    ensures k_12 { identifier (plain 9) (Split 12) ≡ true ∷ true ∷ false ∷ true ∷ [] }
    ensures k_13 { identifier (plain 9) (Split 13) ≡ true ∷ true ∷ true ∷ false ∷ [] }
    ensures uncoded { identifier (plain 9) Uncoded ≡ true ∷ true ∷ true ∷ true ∷ [] }
    ensures count_of_k { splits (plain 9) ≡ 14 }
{}

/// Restricted, at three and four bits.
pub fn identifiers_of_four_bits()
    ensures zero_blocks { zero_identifier (restricted 4) ≡ false ∷ false ∷ false ∷ [] }
    ensures second { identifier (restricted 4) Second ≡ false ∷ false ∷ true ∷ [] }
    ensures k_0 { identifier (restricted 4) (Split 0) ≡ false ∷ true ∷ [] }
    ensures k_1 { identifier (restricted 4) (Split 1) ≡ true ∷ false ∷ [] }
    ensures uncoded { identifier (restricted 4) Uncoded ≡ true ∷ true ∷ [] }
    ensures count_of_k { splits (restricted 4) ≡ 2 }
{}

/// Restricted, at two bits.
pub fn identifiers_of_two_bits()
    ensures zero_blocks { zero_identifier (restricted 2) ≡ false ∷ false ∷ [] }
    ensures second { identifier (restricted 2) Second ≡ false ∷ true ∷ [] }
    ensures uncoded { identifier (restricted 2) Uncoded ≡ true ∷ [] }
    ensures count_of_k { splits (restricted 2) ≡ 0 }
{}

/// Runs of one to six blocks, and the rest of a segment.
pub fn run_codes()
    ensures run_1 { run_code 1 ≡ true ∷ [] }
    ensures run_2 { run_code 2 ≡ false ∷ true ∷ [] }
    ensures run_3 { run_code 3 ≡ false ∷ false ∷ true ∷ [] }
    ensures run_4 { run_code 4 ≡ false ∷ false ∷ false ∷ true ∷ [] }
    ensures run_5 { run_code 5 ≡ false ∷ false ∷ false ∷ false ∷ false ∷ true ∷ [] }
    ensures run_6 { run_code 6 ≡ false ∷ false ∷ false ∷ false ∷ false ∷ false ∷ true ∷ [] }
    ensures rest { rest_code ≡ false ∷ false ∷ false ∷ false ∷ true ∷ [] }
{}

/// Segments end at each reference interval's border, after 64 blocks, and with the last block.
pub fn segment_counts()
    ensures two_intervals { segment_count 48 8 4 ≡ 2 }
    ensures one_number { segment_count 1 8 1 ≡ 1 }
    ensures one_interval { segment_count 1040 8 4096 ≡ 3 }
    ensures both_borders { segment_count 1040 8 65 ≡ 4 }
{}
