//! Worked files by the restricted set of code options.
#![tactic(auto, unfolding(crate::specs::Unfold::everything))]

ghost use Rattle.std.specs.Prelude.{◌≡◌, ◌∷◌, [], replicate, true};
ghost use Rattle.file_format.specs.File.{file_of_residuals};
ghost use Rattle.worked_files.specs.Examples.{bytes, file, few_bits};

/// Two bits: the residual 0 makes a zero block.
pub fn zero_block_of_two_bits()
    ensures { file (few_bits 1 2 true) (2 ∷ []) ≡ bytes 20 0x000001000100010500000C0002A0925900100120 }
{}

/// Two bits: the residuals 2 and 3 go by the second extension.
pub fn second_extension_of_two_bits()
    ensures two { file (few_bits 1 2 true) (3 ∷ []) ≡ bytes 21 0x000001000100010500000C0002A092590010014780 }
    ensures three { file (few_bits 1 2 true) (0 ∷ []) ≡ bytes 21 0x000001000100010500000C0002A0925900100140F0 }
{}

/// Two bits: a block of the greatest residual is uncoded, after one bit.
pub fn uncoded_block_of_two_bits()
    ensures { file_of_residuals (replicate 8 3) (few_bits 8 2 true) ≡ bytes 22 0x000001000800010500000C0002A09259001001FFFF80 }
{}
