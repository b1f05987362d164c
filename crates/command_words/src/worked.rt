//! Worked examples of what command lines ask for.

ghost use Rattle.std.specs.Prelude.{◌≡◌, ◌≢◌, ◌∷◌, [], Some, codes};
ghost use Rattle.clap.specs.Simple.{matches_of};
ghost use Rattle.clap.specs.Walk.{first_of, one_of};
ghost use Rattle.command_words.specs.Options.{compress_app, expand_app};
ghost use Rattle.command_words.specs.Words.{AreTaken};
ghost use Rattle.command_words.specs.Worked.{column_words};

/// The options of a column of two samples are accepted: those that are given, and the defaults of the others.
pub fn options_of_a_column()
    ensures taken { AreTaken compress_app column_words }
    ensures sizes { one_of (codes "rows") (matches_of compress_app column_words) ≡ Some (codes "2") }
    ensures files { first_of (codes "OUT") (matches_of compress_app column_words) ≡ Some (codes "b") }
    ensures flag { one_of (codes "reduced") (matches_of compress_app column_words) ≡ Some (codes "true") }
    ensures no_flag { one_of (codes "signed") (matches_of compress_app column_words) ≡ Some (codes "false") }
    ensures left_out { one_of (codes "umax") (matches_of compress_app column_words) ≡ Some (codes "16") }
{}

/// A command line is refused with a size left out, an unknown option, an option twice or a word too many.
pub fn lines_that_are_not_taken()
    ensures rows { AreTaken compress_app (codes "compress" ∷ codes "--columns=1" ∷ codes "--bands=1" ∷ codes "--bits=8" ∷ codes "a" ∷ codes "b" ∷ []) → ⊥ }
    ensures unknown { AreTaken expand_app (codes "expand" ∷ codes "--restricted" ∷ codes "a" ∷ codes "b" ∷ []) → ⊥ }
    ensures twice { AreTaken expand_app (codes "expand" ∷ codes "--bytes=1" ∷ codes "--bytes=1" ∷ codes "a" ∷ codes "b" ∷ []) → ⊥ }
    ensures many { AreTaken expand_app (codes "expand" ∷ codes "a" ∷ codes "b" ∷ codes "c" ∷ []) → ⊥ }
    ensures help { AreTaken expand_app (codes "expand" ∷ codes "--help" ∷ codes "a" ∷ codes "b" ∷ []) → ⊥ }
{}
