//! Worked examples of what a reader refuses, as laws on the definitions.

ghost use Rattle.std.specs.Prelude.{◌≡◌, ◌∷◌, [], ◌++◌, Some};
ghost use Rattle.cube_core.specs.declared.fault.Fault.TheVariants.{BadCode, Truncated};
ghost use Rattle.header_bits.specs.Bits.{bits_of, bits_of_bytes};
ghost use Rattle.sample_adaptive.specs.Reading.{sample_body_fault};
ghost use Rattle.sample_adaptive.specs.Examples.{common, short_limit, bands_apart, bands_in_groups};

/// 3 in D bits after eight zeros: its code word is three zeros and a one.
pub fn needless_escape()
    ensures { sample_body_fault 176 (short_limit 8) (bands_apart 1 2 1) (bits_of_bytes (0x90 ∷ 0x00 ∷ 0x03 ∷ [])) ≡ Some (BadCode 1) }
{}

/// The second word has no bits.
pub fn last_byte_gone()
    ensures { sample_body_fault 160 common (bands_apart 1 2 1) (bits_of_bytes (0x90 ∷ [])) ≡ Some (Truncated 160) }
{}

/// Four zeros and a one are the code word of 4, which two bits do not hold.
pub fn number_above_the_greatest()
    ensures { sample_body_fault 7 (short_limit 2) (bands_apart 1 2 1) (bits_of 2 0 ++ bits_of 5 1) ≡ Some (BadCode 1) }
{}

/// 3 after eight zeros: its code word is three zeros and a one.
pub fn needless_escape_of_two_bits()
    ensures { sample_body_fault 12 (short_limit 2) (bands_apart 1 2 1) (bits_of 2 0 ++ bits_of 10 3) ≡ Some (BadCode 1) }
{}

/// The second residual of the second band, band after band.
pub fn third_place()
    ensures { sample_body_fault 192 (short_limit 8) (bands_apart 1 2 2) (bits_of_bytes (0x90 ∷ 0xC8 ∷ 0x00 ∷ 0x01 ∷ 0x80 ∷ [])) ≡ Some (BadCode 3) }
{}

/// The second residual of the first band, with interleaved lines.
pub fn second_place()
    ensures { sample_body_fault 184 (short_limit 8) (bands_in_groups 1 1 2 2) (bits_of_bytes (0x90 ∷ 0x90 ∷ 0x00 ∷ 0x03 ∷ [])) ≡ Some (BadCode 2) }
{}
