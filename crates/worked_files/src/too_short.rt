//! Files that are too short for their number of samples.
#![tactic(auto, unfolding(crate::specs::Unfold::everything))]

ghost use Rattle.std.specs.Prelude.{◌≡◌, ◌++◌, ◌∷◌, [], Err, false, replicate};
ghost use Rattle.cube_core.specs.declared.fault.Fault.TheVariants.{ShortHeader, Truncated};
ghost use Rattle.cube_core.specs.Examples.{sizes};
ghost use Rattle.header_bits.specs.Bits.{bits_of};
ghost use Rattle.header_bits.specs.Parts.{fine};
ghost use Rattle.header_bits.specs.Examples.{block, with_sample_coder};
ghost use Rattle.file_format.specs.MinimumLength.{minimum_length_test};
ghost use Rattle.worked_files.specs.Examples.{bytes, test, tests_of_cuts};

/// 32 bits for 33 samples, though they contain a bad code word.
pub fn fewer_bits_than_samples()
    ensures { test 23 0x00000100210001110000080002A0925900422090000300 ≡ Err (Truncated 184) }
{}

/// As many bits as samples are not too few.
pub fn as_many_bits_as_samples()
    ensures { minimum_length_test 184 (record (with_sample_coder 8 6 1 0) { shape = sizes 1 32 1 }) (bits_of 32 0x90000300) ≡ fine }
{}

/// The greatest sizes, and nothing after the header.
pub fn nothing_after_the_header()
    ensures samples { test 19 0x00000000000000110000080002A09259008226 ≡ Err (Truncated 152) }
    ensures blocks { test 19 0x000000000000001100000C0002A09259000001 ≡ Err (Truncated 152) }
{}

/// Three bits for each segment, and one bit fewer: 130 blocks in one reference interval are three segments.
pub fn three_bits_for_each_segment()
    ensures enough { minimum_length_test 161 (block 1 1040 1 false 4096) (bits_of 9 0) ≡ fine }
    ensures too_few { minimum_length_test 160 (block 1 1040 1 false 4096) (bits_of 8 0) ≡ Err (Truncated 160) }
{}

/// Two equal samples' file, cut off before each of its bytes.
pub fn cut_off_before_each_byte()
    ensures { tests_of_cuts (bytes 21 0x00000100020001110000080002A092590082269080) 0 21 ≡ replicate 19 (Err ShortHeader) ++ Err (Truncated 152)
        ∷ Err (Truncated 160) ∷ [] }
{}

/// The same for a block of one sample.
pub fn block_cut_off_before_each_byte()
    ensures header { tests_of_cuts (bytes 26 0x000001000100011100000C0002A09259000001A00FF000000000) 0 19 ≡ replicate 19 (Err ShortHeader) }
    ensures body { tests_of_cuts (bytes 26 0x000001000100011100000C0002A09259000001A00FF000000000) 19 7 ≡ Err (Truncated 152) ∷ Err (Truncated 160)
        ∷ Err (Truncated 168) ∷ Err (Truncated 176) ∷ Err (Truncated 184) ∷ Err (Truncated 192) ∷ Err (Truncated 200) ∷ [] }
{}
