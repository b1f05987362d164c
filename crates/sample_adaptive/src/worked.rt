//! Worked examples of the coder's bodies, as laws on its definitions.
//!
//! A body is given as bytes, with the zero bits that fill the last one.

ghost use Rattle.std.specs.Prelude.{◌≡◌, ◌∷◌, [], take};
ghost use Rattle.header_bits.specs.Bits.{bits_of_bytes};
ghost use Rattle.sample_adaptive.specs.Body.{sample_body};
ghost use Rattle.header_bits.specs.Examples.{filled_up};
ghost use Rattle.sample_adaptive.specs.Examples.{common, of_bits, short_limit, rescaling, with_table, bands_apart, bands_in_groups};

/// The first residual of a band is written in D bits.
pub fn one_sample()
    ensures { filled_up (sample_body common (bands_apart 1 1 1) (144 ∷ [])) ≡ bits_of_bytes (0x90 ∷ []) }
{}

/// A residual after the first one has a code word: a one and three low bits.
pub fn two_equal_samples()
    ensures { filled_up (sample_body common (bands_apart 1 2 1) (144 ∷ 0 ∷ [])) ≡ bits_of_bytes (0x90 ∷ 0x80 ∷ []) }
{}

/// The quotient 20 / 8 in zeros, a one, and three low bits.
pub fn two_unlike_samples()
    ensures { filled_up (sample_body common (bands_apart 2 1 1) (144 ∷ 20 ∷ [])) ≡ bits_of_bytes (0x90 ∷ 0x30 ∷ []) }
{}

/// Each band has a first residual.
pub fn first_of_each_band()
    ensures { filled_up (sample_body common (bands_apart 1 1 2) (144 ∷ 146 ∷ [])) ≡ bits_of_bytes (0x90 ∷ 0x92 ∷ []) }
{}

/// Two bands of one sample.
pub fn second_band_predicted_from_first()
    ensures { filled_up (sample_body common (bands_apart 1 1 2) (144 ∷ 2 ∷ [])) ≡ bits_of_bytes (0x90 ∷ 0x02 ∷ []) }
{}

/// Three samples in each of two bands.
pub fn step_rounded_down()
    ensures { filled_up (sample_body common (bands_apart 1 3 2) (55 ∷ 3 ∷ 15 ∷ 0 ∷ 3 ∷ 0 ∷ [])) ≡ bits_of_bytes (0x37 ∷ 0xB7 ∷ 0x80 ∷ 0x5C ∷ 0x00 ∷ []) }
{}

/// A residual of 16 bits.
pub fn signed_sixteen_bits()
    ensures { filled_up (sample_body (of_bits 16) (bands_apart 1 1 1) (65535 ∷ [])) ≡ bits_of_bytes (0xFF ∷ 0xFF ∷ []) }
{}

/// After as many zeros as the unary length limit comes the residual in D bits.
pub fn escape()
    ensures { filled_up (sample_body (short_limit 8) (bands_apart 1 2 1) (144 ∷ 19 ∷ [])) ≡ bits_of_bytes (0x90 ∷ 0x00 ∷ 0x13 ∷ []) }
{}

/// Cube A, band after band.
pub fn cube_a_bsq()
    ensures { filled_up (sample_body common (bands_apart 3 2 2) (55 ∷ 3 ∷ 5 ∷ 0 ∷ 4 ∷ 2 ∷ 20 ∷ 1 ∷ 2 ∷ 2 ∷ 1 ∷ 2 ∷ []))
        ≡ bits_of_bytes (0x37 ∷ 0xBD ∷ 0x84 ∷ 0xC2 ∷ 0x93 ∷ 0x5A ∷ 0xE0 ∷ []) }
{}

/// Cube A, its lines interleaved.
pub fn cube_a_bil()
    ensures { filled_up (sample_body common (bands_in_groups 1 3 2 2) (55 ∷ 3 ∷ 5 ∷ 20 ∷ 1 ∷ 2 ∷ 0 ∷ 4 ∷ 2 ∷ 2 ∷ 1 ∷ 2 ∷ []))
        ≡ bits_of_bytes (0x37 ∷ 0xBD ∷ 0x14 ∷ 0x9A ∷ 0x84 ∷ 0xDA ∷ 0xE0 ∷ []) }
{}

/// Cube A, its pixels interleaved.
pub fn cube_a_bip()
    ensures { filled_up (sample_body common (bands_in_groups 2 3 2 2) (55 ∷ 20 ∷ 3 ∷ 1 ∷ 5 ∷ 2 ∷ 0 ∷ 2 ∷ 4 ∷ 1 ∷ 2 ∷ 2 ∷ []))
        ≡ bits_of_bytes (0x37 ∷ 0x14 ∷ 0xB9 ∷ 0xDA ∷ 0x8C ∷ 0x97 ∷ 0x60 ∷ []) }
{}

/// The greatest residual of 11 bits is escaped.
pub fn register_wraps()
    ensures { filled_up (sample_body (of_bits 11) (bands_apart 1 2 2) (2039 ∷ 8 ∷ 7 ∷ 2047 ∷ [])) ≡ bits_of_bytes (0xFE ∷ 0xE8 ∷ 0x00 ∷ 0xE0 ∷ 0x00 ∷ 0x1F
        ∷ 0xFC ∷ []) }
{}

/// The same with a last residual of 0.
pub fn wide_register()
    ensures { filled_up (sample_body (of_bits 11) (bands_apart 1 2 2) (2039 ∷ 8 ∷ 7 ∷ 0 ∷ [])) ≡ bits_of_bytes (0xFE ∷ 0xE8 ∷ 0x00 ∷ 0xF0 ∷ []) }
{}

/// The residuals of a cube whose weights start from a table.
pub fn weight_table()
    ensures { filled_up (sample_body common (bands_apart 1 2 2) (55 ∷ 19 ∷ 99 ∷ 30 ∷ [])) ≡ bits_of_bytes (0x37 ∷ 0x2D ∷ 0x8C ∷ 0x70 ∷ []) }
{}

/// A table that holds the constant is as good as the constant.
pub fn table_of_one_constant()
    ensures { filled_up (sample_body (with_table (3 ∷ [])) (bands_apart 1 2 1) (144 ∷ 0 ∷ [])) ≡ bits_of_bytes (0x90 ∷ 0x80 ∷ []) }
{}

/// Each band starts from its own entry of the table.
pub fn table_of_two_constants()
    ensures { filled_up (sample_body (with_table (3 ∷ 0 ∷ [])) (bands_apart 1 2 2) (144 ∷ 0 ∷ 0 ∷ 0 ∷ [])) ≡ bits_of_bytes (0x90 ∷ 0x80 ∷ 0x08 ∷ []) }
{}

/// The halved sum is rounded up, and so the last word has one low bit.
pub fn rescaling_rounds_up()
    ensures { sample_body rescaling (bands_apart 1 16 1) (0 ∷ 2 ∷ 0 ∷ 0 ∷ 0 ∷ 0 ∷ 0 ∷ 0 ∷ 0 ∷ 0 ∷ 0 ∷ 0 ∷ 0 ∷ 0 ∷ 0 ∷ 0 ∷ [])
        ≡ take 45 (bits_of_bytes (0x00 ∷ 0xA8 ∷ 0x92 ∷ 0x55 ∷ 0x55 ∷ 0x50 ∷ [])) }
{}

/// Three bands of two samples.
pub fn three_bands()
    ensures { filled_up (sample_body common (bands_apart 1 2 3) (254 ∷ 255 ∷ 23 ∷ 255 ∷ 255 ∷ 11 ∷ [])) ≡ bits_of_bytes (0xFE ∷ 0x00 ∷ 0x00 ∷ 0xFF ∷ 0x17
        ∷ 0x00 ∷ 0x00 ∷ 0xFF ∷ 0xFF ∷ 0x58 ∷ []) }
{}

/// Two bands of two samples, with an escape.
pub fn coarse_weight_table()
    ensures { filled_up (sample_body common (bands_apart 1 2 2) (254 ∷ 13 ∷ 79 ∷ 143 ∷ [])) ≡ bits_of_bytes (0xFE ∷ 0x6A ∷ 0x78 ∷ 0x00 ∷ 0x04 ∷ 0x78 ∷ []) }
{}

/// Two bands of two samples, each with a long word.
pub fn fine_weight_table()
    ensures { filled_up (sample_body common (bands_apart 1 2 2) (193 ∷ 62 ∷ 61 ∷ 85 ∷ [])) ≡ bits_of_bytes (0xC1 ∷ 0x01 ∷ 0xC7 ∷ 0xA0 ∷ 0x06 ∷ 0x80 ∷ []) }
{}

/// Two bands with escapes.
pub fn no_error()
    ensures { filled_up (sample_body common (bands_apart 1 3 2) (254 ∷ 30 ∷ 255 ∷ 255 ∷ 0 ∷ 255 ∷ [])) ≡ bits_of_bytes (0xFE ∷ 0x1C ∷ 0x00 ∷ 0x03 ∷ 0xFF ∷ 0xF0
        ∷ 0x00 ∷ 0x01 ∷ 0xFE ∷ []) }
{}

/// Two bands whose code parameter grows.
pub fn weight_stops_at_the_least()
    ensures { filled_up (sample_body common (bands_apart 1 3 2) (56 ∷ 55 ∷ 27 ∷ 76 ∷ 27 ∷ 3 ∷ []))
        ≡ bits_of_bytes (0x38 ∷ 0x03 ∷ 0xDB ∷ 0x4C ∷ 0x17 ∷ 0x30 ∷ []) }
{}

/// A residual of 0 before an escape.
pub fn greatest_prediction()
    ensures { filled_up (sample_body common (bands_apart 1 3 2) (97 ∷ 255 ∷ 182 ∷ 228 ∷ 0 ∷ 149 ∷ [])) ≡ bits_of_bytes (0x61 ∷ 0x00 ∷ 0x00 ∷ 0xFF ∷ 0x3B ∷ 0x72
        ∷ 0x40 ∷ 0x00 ∷ 0x04 ∷ 0xA8 ∷ []) }
{}

/// Two bands of 24 samples, of which many are at either end of their range.
pub fn twenty_four_samples_a_band()
    ensures { filled_up (sample_body common (bands_apart 8 3 2) (92 ∷ 169 ∷ 172 ∷ 255 ∷ 143 ∷ 87 ∷ 255 ∷ 0 ∷ 161 ∷ 255 ∷ 0 ∷ 0 ∷ 255 ∷ 197 ∷ 255 ∷ 0 ∷ 0 ∷ 149
        ∷ 0 ∷ 255 ∷ 255 ∷ 18 ∷ 0 ∷ 81 ∷ 39 ∷ 255 ∷ 0 ∷ 0 ∷ 158 ∷ 173 ∷ 0 ∷ 0 ∷ 40 ∷ 144 ∷ 255 ∷ 8 ∷ 0 ∷ 255 ∷ 39 ∷ 0 ∷ 79 ∷ 0 ∷ 130 ∷ 255 ∷ 0 ∷ 141 ∷ 77
        ∷ 255 ∷ [])) ≡ bits_of_bytes (0x5C ∷ 0x00 ∷ 0x00 ∷ 0xA9 ∷ 0x36 ∷ 0x0F ∷ 0xE4 ∷ 0xF5 ∷ 0x71 ∷ 0xFE ∷ 0x01 ∷ 0x84 ∷ 0x7F ∷ 0x81 ∷ 0x00 ∷ 0x7F ∷ 0x11
        ∷ 0x47 ∷ 0xF8 ∷ 0x10 ∷ 0x0A ∷ 0xB0 ∷ 0x07 ∷ 0xF1 ∷ 0xFE ∷ 0x94 ∷ 0x05 ∷ 0x12 ∷ 0x70 ∷ 0x00 ∷ 0x0F ∷ 0xF8 ∷ 0x10 ∷ 0x03 ∷ 0xE3 ∷ 0x6C ∷ 0x08 ∷ 0x1A
        ∷ 0x0A ∷ 0x03 ∷ 0xFC ∷ 0x88 ∷ 0x03 ∷ 0xFE ∷ 0x78 ∷ 0x09 ∷ 0xF0 ∷ 0x08 ∷ 0x43 ∷ 0xFC ∷ 0x02 ∷ 0x6A ∷ 0x68 ∷ 0xFE ∷ []) }
{}
