//! Files whose headers hold tables: the first fault of each.
#![tactic(auto, unfolding(crate::specs::Unfold::everything))]

ghost use Rattle.std.specs.Prelude.{◌≡◌, ◌++◌, ◌∷◌, [], Err, negsuc, replicate};
ghost use Rattle.cube_core.specs.declared.fault.Fault.TheVariants.{ShortHeader, Reserved, Disagree, TableElsewhere, Truncated};
ghost use Rattle.cube_core.specs.declared.fault.Rule.TheVariants as rule;
ghost use Rattle.header_bits.specs.Parts.{fine};
ghost use Rattle.header_bits.specs.Examples.{with_constants, with_weights};
ghost use Rattle.worked_files.specs.Examples.{file, test, tests_of_cuts};

/// Without previous bands a table has no entries, and no bytes.
pub fn table_of_no_weights()
    ensures { test 20 0x00000100010001110000080002A0925963822690 ≡ fine }
{}

/// The file of one weight, cut off before each of its bytes.
pub fn weights_cut_off_before_each_byte()
    ensures header { tests_of_cuts (file (with_weights 1 2 2 1 3 (negsuc 0 ∷ [])) (100 ∷ 110 ∷ 50 ∷ 60 ∷ [])) 0 20 ≡ replicate 20 (Err ShortHeader) }
    ensures body { tests_of_cuts (file (with_weights 1 2 2 1 3 (negsuc 0 ∷ [])) (100 ∷ 110 ∷ 50 ∷ 60 ∷ [])) 20 4 ≡ Err (Truncated 160) ∷ Err (Truncated 168)
        ∷ Err (Truncated 176) ∷ Err (Truncated 184) ∷ [] }
{}

/// The file of one constant, cut off before each of its bytes.
pub fn constants_cut_off_before_each_byte()
    ensures { tests_of_cuts (file (with_constants 1 2 1 (3 ∷ [])) (200 ∷ 200 ∷ [])) 0 22 ≡ replicate 20 (Err ShortHeader) ++ Err (Truncated 160)
        ∷ Err (Truncated 168) ∷ [] }
{}

/// A fill bit of the weight table is one, and the body is missing.
pub fn fill_of_weights_before_body()
    ensures { test 20 0x00000100020002110000080006A0925963E18226 ≡ Err (Reserved 143) }
{}

/// A constant of 7, with samples of eight bits, and the body is missing.
pub fn constant_before_body()
    ensures { test 20 0x00000100020001110000080002A0925900823F70 ≡ Err (Disagree rule.AccumulatorEntry) }
{}

/// Custom weights that aren't in the file.
pub fn weights_from_elsewhere()
    ensures { test 20 0x00000100010001110000080002A0925940822690 ≡ Err TableElsewhere }
{}
