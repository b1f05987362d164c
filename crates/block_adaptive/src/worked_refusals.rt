//! Worked examples of what a reader refuses, as laws on the definitions. Blocks have eight values.
#![tactic(auto, unfolding(crate::specs::Unfold::everything))]

ghost use Rattle.std.specs.Prelude.{◌≡◌, ◌∷◌, [], Some, take};
ghost use Rattle.cube_core.specs.declared.fault.Fault.TheVariants.{BadOption, RunPastSegment, Truncated};
ghost use Rattle.header_bits.specs.Bits.{bits_of_bytes};
ghost use Rattle.block_adaptive.specs.Reading.{block_body_fault};
ghost use Rattle.block_adaptive.specs.Examples.{plain};
ghost use Rattle.header_bits.specs.Examples.{zeros};

/// A run of two blocks where one is left.
pub fn run_past_one_block()
    ensures { block_body_fault 8 (plain 8) 8 1 8 (bits_of_bytes (0x04 ∷ [])) ≡ Some (RunPastSegment 0) }
{}

/// Eight zeros where k = 5 allows seven.
pub fn quotient_too_large()
    ensures { block_body_fault 16 (plain 8) 8 1 8 (bits_of_bytes (0xC0 ∷ 0x00 ∷ [])) ≡ Some (BadOption 0) }
{}

/// The bits end among the zeros.
pub fn quotient_cut_off()
    ensures { block_body_fault 8 (plain 8) 8 1 8 (bits_of_bytes (0xC0 ∷ [])) ≡ Some (Truncated 8) }
{}

/// 256 zeros where k = 0 allows 255.
pub fn quotient_of_256_zeros()
    ensures { block_body_fault 264 (plain 8) 8 1 8 (bits_of_bytes (0x20 ∷ zeros 32)) ≡ Some (BadOption 0) }
{}

/// A value of 4 in two bits.
pub fn low_bits_too_large()
    ensures { block_body_fault 16 (plain 2) 8 1 8 (bits_of_bytes (0xDF ∷ 0xE4 ∷ [])) ≡ Some (BadOption 0) }
{}

/// A run of five blocks where four are left.
pub fn run_past_reference_border()
    ensures { block_body_fault 24 (plain 8) 8 4 48 (bits_of_bytes (0x00 ∷ 0x42 ∷ 0x10 ∷ [])) ≡ Some (RunPastSegment 0) }
{}

/// A run of 65 blocks.
pub fn run_past_sixty_four_blocks()
    ensures { block_body_fault 88 (plain 8) 8 4096 1040 (bits_of_bytes (0x00 ∷ 0x00 ∷ 0x00 ∷ 0x00 ∷ 0x00 ∷ 0x00 ∷ 0x00 ∷ 0x00 ∷ 0x04 ∷ 0x02 ∷ 0x01 ∷ []))
        ≡ Some (RunPastSegment 0) }
{}

/// A run code may have four zeros where one block is left, and not five.
pub fn run_of_five_zeros()
    ensures { block_body_fault 16 (plain 8) 8 1 1 (bits_of_bytes (0x00 ∷ 0x00 ∷ [])) ≡ Some (RunPastSegment 0) }
{}

/// A run code may have six zeros where six blocks are left, and not seven.
pub fn run_of_seven_zeros()
    ensures { block_body_fault 16 (plain 8) 8 8 48 (bits_of_bytes (0x00 ∷ 0x00 ∷ [])) ≡ Some (RunPastSegment 0) }
{}

/// Number 10 is the pair (4, 0).
pub fn pair_out_of_range()
    ensures { block_body_fault 24 (plain 2) 8 1 1 (bits_of_bytes (0x10 ∷ 0x03 ∷ 0xC0 ∷ [])) ≡ Some (BadOption 0) }
{}

/// The greatest pair has 24 zeros.
pub fn pair_of_25_zeros()
    ensures { block_body_fault 32 (plain 2) 8 1 1 (bits_of_bytes (0x10 ∷ 0x00 ∷ 0x00 ∷ 0x00 ∷ [])) ≡ Some (BadOption 0) }
{}

/// Where one block is left, the fifth zero of a run code is refused, whatever follows; after four zeros the bits are only
/// truncated.
pub fn fifth_zero_of_a_run_code()
    ensures fifth { block_body_fault 9 (plain 8) 8 1 1 (take 9 (bits_of_bytes (zeros 2))) ≡ Some (RunPastSegment 0) }
    ensures fourth { block_body_fault 8 (plain 8) 8 1 1 (bits_of_bytes (zeros 1)) ≡ Some (Truncated 8) }
{}
