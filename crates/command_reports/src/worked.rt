//! Worked examples of the lines of a header.
#![tactic(auto)]

ghost use Rattle.std.specs.Prelude.{◌≡◌, ◌∷◌, [], false, codes};
ghost use Rattle.cube_core.specs.declared.order.Order.TheVariants.{Bi};
ghost use Rattle.header_bits.specs.declared.params.CountStart.TheVariants.{Each};
ghost use Rattle.header_bits.specs.declared.params.Coder.TheVariants.{Sample};
ghost use Rattle.header_bits.specs.Examples.{common, cube_a, block, with_weights};
ghost use Rattle.command_reports.specs.Lines.{header_lines, coder_lines, start_text};

/// The header of two samples, one below the other.
pub fn two_samples()
    ensures { header_lines (common 1 2 1) 19 ≡ codes "user 0\ncolumns 1\nrows 2\nbands 1\nsample unsigned\nbits 8\norder bsq\nword 1\ncoder sample\nprevious 0\nmode reduced\nsums column\nregister 32\nomega 13\ninterval 64\nvmin -1\nvmax 3\nstart usual\numax 16\ngamma-star 6\ngamma-zero 1\nk 3\nheader 19\n" }
{}

/// The block-adaptive coder has other parameters.
pub fn block_coder()
    ensures { header_lines (block 1 1 1 false 1) 19 ≡ codes "user 0\ncolumns 1\nrows 1\nbands 1\nsample unsigned\nbits 8\norder bsq\nword 1\ncoder block\nprevious 0\nmode reduced\nsums column\nregister 32\nomega 13\ninterval 64\nvmin -1\nvmax 3\nstart usual\nblock 8\nrestricted no\nreference 1\nheader 19\n" }
{}

/// Cube A, whose two bands are interleaved by pixel: the depth follows the order's name.
pub fn interleaved_bands()
    ensures { header_lines (cube_a (Bi 2)) 19 ≡ codes "user 0\ncolumns 3\nrows 2\nbands 2\nsample unsigned\nbits 8\norder bi 2\nword 1\ncoder sample\nprevious 1\nmode full\nsums neighbour\nregister 32\nomega 13\ninterval 64\nvmin -1\nvmax 3\nstart usual\numax 16\ngamma-star 6\ngamma-zero 1\nk 3\nheader 19\n" }
{}

/// A table of weights is printed with its resolution, and a table of constants by its name.
pub fn tables()
    ensures weights { start_text (with_weights 1 2 2 1 3 []).start ≡ codes "table 3" }
    ensures constants { coder_lines (Sample 16 6 1 (Each (3 ∷ []))) ≡ codes "umax 16\ngamma-star 6\ngamma-zero 1\nk table\n" }
{}
