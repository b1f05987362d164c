//! Worked examples of shapes, orders and raw layouts.
#![tactic(auto, unfolding(crate::specs::Unfold::everything))]

ghost use Rattle.std.specs.Prelude.{◌≡◌, [], ◌∷◌, take, pos, neg_ℤ, true, false, Err, Ok};
ghost use Rattle.cube_core.specs.declared.fault.Fault.TheVariants.{FieldRange};
ghost use Rattle.cube_core.specs.declared.fault.Field.TheVariants.{Columns, DynamicRange};
ghost use Rattle.cube_core.specs.declared.layout.RawOrder.TheVariants as raw;
ghost use Rattle.cube_core.specs.declared.order.Order.TheVariants.{Bsq, Bi};
ghost use Rattle.cube_core.specs.Kind.{kind_or_fault, smin, smax, smid};
ghost use Rattle.cube_core.specs.Layout.{raw_value, raw_bytes};
ghost use Rattle.cube_core.specs.Order.{places, place_index};
ghost use Rattle.cube_core.specs.Examples.{sizes, place, unsigned, signed, layout, lone, numbered};
ghost use Rattle.cube_core.specs.Shape.{sizes_or_fault};

/// Three bands, two a group: the last group has one.
pub fn groups_of_two()
    ensures first { take 7 (places (sizes 2 2 3) (Bi 2)) ≡ place 0 0 0 ∷ place 1 0 0 ∷ place 0 0 1 ∷ place 1 0 1 ∷ place 2 0 0 ∷ place 2 0 1 ∷ place 0 1 0
        ∷ [] }
    ensures index { place_index (sizes 2 2 3) (Bi 2) (place 2 0 1) ≡ 5 }
{}

/// Band after band, by line, and by pixel.
pub fn three_orders()
    ensures sequential { places (sizes 2 1 2) Bsq ≡ place 0 0 0 ∷ place 0 0 1 ∷ place 1 0 0 ∷ place 1 0 1 ∷ [] }
    ensures by_line { places (sizes 2 2 2) (Bi 1) ≡ place 0 0 0 ∷ place 0 0 1 ∷ place 1 0 0 ∷ place 1 0 1 ∷ place 0 1 0 ∷ place 0 1 1 ∷ place 1 1 0
        ∷ place 1 1 1 ∷ [] }
    ensures by_pixel { places (sizes 2 1 2) (Bi 2) ≡ place 0 0 0 ∷ place 1 0 0 ∷ place 0 0 1 ∷ place 1 0 1 ∷ [] }
{}

/// Bits and sizes out of range, and the greatest sizes.
pub fn ranges()
    ensures bits { kind_or_fault (unsigned 17) ≡ Err (FieldRange DynamicRange (pos 17)) }
    ensures columns { sizes_or_fault (sizes 0 1 1) ≡ Err (FieldRange Columns (pos 0)) }
    ensures greatest { sizes_or_fault (sizes 65536 65536 65536) ≡ Ok (sizes 65536 65536 65536) }
{}

/// The least, greatest and middle samples of eight bits.
pub fn samples_of_eight_bits()
    ensures least { smin (signed 8) ≡ neg_ℤ (pos 128) }
    ensures greatest { smax (signed 8) ≡ pos 127 }
    ensures middle { smid (signed 8) ≡ pos 0 }
    ensures least_unsigned { smin (unsigned 8) ≡ pos 0 }
    ensures greatest_unsigned { smax (unsigned 8) ≡ pos 255 }
    ensures middle_unsigned { smid (unsigned 8) ≡ pos 128 }
{}

/// Two bytes with the low one first: 2048 has twelve bits, 2047 eleven.
pub fn low_byte_first()
    ensures over { raw_value (layout raw.Bsq 2 true) (unsigned 11) (0x00 ∷ 0x08 ∷ []) ≡ pos 2048 }
    ensures most { raw_value (layout raw.Bsq 2 true) (unsigned 11) (0xFF ∷ 0x07 ∷ []) ≡ pos 2047 }
{}

/// The least sample of sixteen bits, in two's complement, the high byte first.
pub fn high_byte_first()
    ensures written { raw_bytes (lone (signed 16) (neg_ℤ (pos 32768))) (layout raw.Bsq 2 false) ≡ 0x80 ∷ 0x00 ∷ [] }
    ensures read { raw_value (layout raw.Bsq 2 false) (signed 16) (0x80 ∷ 0x00 ∷ []) ≡ neg_ℤ (pos 32768) }
{}

/// The samples of two bands of two rows of three columns, in each order.
pub fn layouts_of_a_cube()
    ensures sequential { raw_bytes numbered (layout raw.Bsq 1 false) ≡ 0 ∷ 1 ∷ 2 ∷ 3 ∷ 4 ∷ 5 ∷ 6 ∷ 7 ∷ 8 ∷ 9 ∷ 10 ∷ 11 ∷ [] }
    ensures by_line { raw_bytes numbered (layout raw.Bil 1 false) ≡ 0 ∷ 1 ∷ 2 ∷ 6 ∷ 7 ∷ 8 ∷ 3 ∷ 4 ∷ 5 ∷ 9 ∷ 10 ∷ 11 ∷ [] }
    ensures by_pixel { raw_bytes numbered (layout raw.Bip 1 false) ≡ 0 ∷ 6 ∷ 1 ∷ 7 ∷ 2 ∷ 8 ∷ 3 ∷ 9 ∷ 4 ∷ 10 ∷ 5 ∷ 11 ∷ [] }
{}
