//! Worked examples of the coder's bodies, as laws on its definitions. Blocks have eight values.
//!
//! A body is given as bytes, with the zero bits that fill the last one.
#![tactic(auto, unfolding(crate::specs::Unfold::everything))]

ghost use Rattle.std.specs.Prelude.{◌≡◌, ◌∷◌, [], Some};
ghost use Rattle.header_bits.specs.Bits.{bits_of_bytes};
ghost use Rattle.block_adaptive.specs.declared.options.Choice.TheVariants.{Uncoded, Second, Split};
ghost use Rattle.block_adaptive.specs.Options.{cost};
ghost use Rattle.block_adaptive.specs.Chosen.{chosen_block_body};
ghost use Rattle.header_bits.specs.Examples.{filled_up, zeros};
ghost use Rattle.block_adaptive.specs.Examples.{plain, restricted, numbers_read};

/// One number, and a block that zeros fill: k = 4.
pub fn filled_block()
    ensures { filled_up (chosen_block_body (plain 8) 8 1 (144 ∷ [])) ≡ bits_of_bytes (0xA0 ∷ 0x0F ∷ 0xF0 ∷ 0x00 ∷ 0x00 ∷ 0x00 ∷ 0x00 ∷ []) }
{}

/// A run of one block.
pub fn one_zero_block()
    ensures { filled_up (chosen_block_body (plain 8) 8 1 (0 ∷ [])) ≡ bits_of_bytes (0x08 ∷ []) }
{}

/// Six blocks of zeros, the whole segment.
pub fn zero_run_to_segment_end()
    ensures { filled_up (chosen_block_body (plain 8) 8 8 (zeros 48)) ≡ bits_of_bytes (0x00 ∷ 0x80 ∷ []) }
{}

/// A rest of four blocks has the plain code.
pub fn short_rest()
    ensures { filled_up (chosen_block_body (plain 8) 8 8 (zeros 32)) ≡ bits_of_bytes (0x01 ∷ []) }
{}

/// Runs of four and of two blocks.
pub fn borders_of_reference_blocks()
    ensures { filled_up (chosen_block_body (plain 8) 8 4 (zeros 48)) ≡ bits_of_bytes (0x01 ∷ 0x04 ∷ []) }
{}

/// Runs of 64, of 64 and of two blocks.
pub fn borders_of_sixty_four_blocks()
    ensures { filled_up (chosen_block_body (plain 8) 8 4096 (zeros 1040)) ≡ bits_of_bytes (0x00 ∷ 0x80 ∷ 0x41 ∷ []) }
{}

/// Segments of 64, 1, 64 and 1 blocks.
pub fn sixty_four_from_each_reference_block()
    ensures { filled_up (chosen_block_body (plain 8) 8 65 (zeros 1040)) ≡ bits_of_bytes (0x00 ∷ 0x84 ∷ 0x02 ∷ 0x10 ∷ []) }
{}

/// k = 3, and then k = 0.
pub fn cube_a()
    ensures { filled_up (chosen_block_body (plain 8) 8 1 (55 ∷ 3 ∷ 5 ∷ 0 ∷ 4 ∷ 2 ∷ 20 ∷ 1 ∷ 2 ∷ 2 ∷ 1 ∷ 2 ∷ []))
        ≡ bits_of_bytes (0x80 ∷ 0x7E ∷ 0x7D ∷ 0xD1 ∷ 0x14 ∷ 0x24 ∷ 0x94 ∷ 0xF8 ∷ []) }
{}

/// The second extension and k = 0 are equally short.
pub fn second_extension_first()
    ensures { filled_up (chosen_block_body (plain 8) 8 1 (0 ∷ 0 ∷ 0 ∷ 1 ∷ 0 ∷ 1 ∷ 0 ∷ 1 ∷ [])) ≡ bits_of_bytes (0x19 ∷ 0x24 ∷ []) }
{}

/// k = 0 and k = 1 are equally short.
pub fn smallest_k_first()
    ensures { filled_up (chosen_block_body (plain 8) 8 1 (1 ∷ 1 ∷ 1 ∷ 1 ∷ 1 ∷ 1 ∷ 1 ∷ 1 ∷ [])) ≡ bits_of_bytes (0x2A ∷ 0xAA ∷ 0xA0 ∷ []) }
{}

/// Uncoded, k = 0 and k = 1 are equally short.
pub fn uncoded_first()
    ensures { filled_up (chosen_block_body (plain 2) 8 1 (1 ∷ 1 ∷ 1 ∷ 1 ∷ 1 ∷ 1 ∷ 1 ∷ 1 ∷ [])) ≡ bits_of_bytes (0xEA ∷ 0xAA ∷ 0xA0 ∷ []) }
{}

/// The restricted set at three bits has the identifiers of four: k = 0 comes before k = 1, both at 18 bits.
pub fn three_bits_restricted()
    ensures { filled_up (chosen_block_body (restricted 3) 8 1 (1 ∷ 1 ∷ 1 ∷ 1 ∷ 1 ∷ 1 ∷ 1 ∷ 1 ∷ [])) ≡ bits_of_bytes (0x55 ∷ 0x55 ∷ 0x40 ∷ []) }
{}

/// The unrestricted set at four bits: the second extension.
pub fn four_bits()
    ensures { filled_up (chosen_block_body (plain 4) 8 1 (2 ∷ [])) ≡ bits_of_bytes (0x11 ∷ 0xE0 ∷ []) }
{}

/// The restricted set at four bits: the second extension.
pub fn four_bits_restricted()
    ensures { filled_up (chosen_block_body (restricted 4) 8 1 (2 ∷ [])) ≡ bits_of_bytes (0x23 ∷ 0xC0 ∷ []) }
{}

/// A run of one block, in three bits.
pub fn two_bits_restricted_run()
    ensures { filled_up (chosen_block_body (restricted 2) 8 1 (0 ∷ [])) ≡ bits_of_bytes (0x20 ∷ []) }
{}

/// The pair (2, 0), of number 3.
pub fn two_bits_restricted_two()
    ensures { filled_up (chosen_block_body (restricted 2) 8 1 (2 ∷ [])) ≡ bits_of_bytes (0x47 ∷ 0x80 ∷ []) }
{}

/// The pair (3, 0), of number 6.
pub fn two_bits_restricted_three()
    ensures { filled_up (chosen_block_body (restricted 2) 8 1 (3 ∷ [])) ≡ bits_of_bytes (0x40 ∷ 0xF0 ∷ []) }
{}

/// Eight times the greatest value.
pub fn two_bits_restricted_uncoded()
    ensures { filled_up (chosen_block_body (restricted 2) 8 1 (3 ∷ 3 ∷ 3 ∷ 3 ∷ 3 ∷ 3 ∷ 3 ∷ 3 ∷ [])) ≡ bits_of_bytes (0xFF ∷ 0xFF ∷ 0x80 ∷ []) }
{}

/// Uncoded and the second extension are equally short.
pub fn uncoded_before_second()
    ensures { filled_up (chosen_block_body (restricted 2) 8 1 (2 ∷ 0 ∷ 2 ∷ 0 ∷ 2 ∷ 0 ∷ 0 ∷ 1 ∷ [])) ≡ bits_of_bytes (0xC4 ∷ 0x40 ∷ 0x80 ∷ []) }
{}

/// A run of one block.
pub fn one_zero_block_is_read()
    ensures { numbers_read (plain 8) 1 8 (bits_of_bytes (0x08 ∷ [])) ≡ Some (zeros 8) }
{}

/// The rest code stands for a rest of any length.
pub fn rest_of_one_block_is_read()
    ensures { numbers_read (plain 8) 1 8 (bits_of_bytes (0x00 ∷ 0x80 ∷ [])) ≡ Some (zeros 8) }
{}

/// A rest of five blocks by its plain code.
pub fn run_of_a_whole_rest_is_read()
    ensures { numbers_read (plain 8) 8 40 (bits_of_bytes (0x00 ∷ 0x40 ∷ [])) ≡ Some (zeros 40) }
{}

/// The pair (3, 3), of number 24.
pub fn greatest_pair_is_read()
    ensures { numbers_read (plain 2) 1 8 (bits_of_bytes (0x10 ∷ 0x00 ∷ 0x00 ∷ 0x0F ∷ [])) ≡ Some (3 ∷ 3 ∷ 0 ∷ 0 ∷ 0 ∷ 0 ∷ 0 ∷ 0 ∷ []) }
{}

/// Seven filled values of 255.
pub fn filled_values_are_dropped()
    ensures { numbers_read (plain 8) 1 1 (bits_of_bytes (0xF2 ∷ 0x1F ∷ 0xFF ∷ 0xFF ∷ 0xFF ∷ 0xFF ∷ 0xFF ∷ 0xFF ∷ 0xE0 ∷ [])) ≡ Some (144 ∷ []) }
{}

/// What 144 and seven zeros cost under this option.
pub fn cost_uncoded()
    ensures { cost (plain 8) Uncoded (144 ∷ zeros 7) ≡ 67 }
{}

/// What 144 and seven zeros cost under this option.
pub fn cost_second()
    ensures { cost (plain 8) Second (144 ∷ zeros 7) ≡ 10448 }
{}

/// What 144 and seven zeros cost under this option.
pub fn cost_split_0()
    ensures { cost (plain 8) (Split 0) (144 ∷ zeros 7) ≡ 155 }
{}

/// What 144 and seven zeros cost under this option.
pub fn cost_split_3()
    ensures { cost (plain 8) (Split 3) (144 ∷ zeros 7) ≡ 53 }
{}

/// What 144 and seven zeros cost under this option.
pub fn cost_split_4()
    ensures { cost (plain 8) (Split 4) (144 ∷ zeros 7) ≡ 52 }
{}

/// What 144 and seven zeros cost under this option.
pub fn cost_split_5()
    ensures { cost (plain 8) (Split 5) (144 ∷ zeros 7) ≡ 55 }
{}
