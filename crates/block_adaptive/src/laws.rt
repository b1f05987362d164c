//! Laws of the coder's definitions.

ghost use Rattle.block_adaptive.specs.Laws.{OneText, OneBody, OptionIsLeast, ChosenIsLawful, ChosenIsBody, DataSetIsTaken, BodyIsRead, PairBound};
ghost use Rattle.block_adaptive.specs.Laws.{SegmentsAreCounted, NoShorterBody, FaultIsNoDataSet};
ghost use Rattle.block_adaptive.specs.Prefixes.{TakenIsPrefix};

/// Two lawful data sets are equal if one is a prefix of the other.
#[tactic(auto, using(crate::proofs::Again::one_text))]
pub fn one_text()
    ensures { OneText }
{}

/// The chosen option is the shortest, and of equally short ones the first.
#[tactic(auto, using(crate::proofs::Tried::option_is_least))]
pub fn option_is_least()
    ensures { OptionIsLeast }
{}

/// The chosen data sets of blocks are lawful, and stand for the blocks.
#[tactic(auto, using(crate::proofs::Lawful::chosen_is_lawful))]
pub fn chosen_is_lawful()
    ensures { ChosenIsLawful }
{}

/// What is read as a data set is lawful, and the bits begin with it.
pub fn data_set_is_taken()
    ensures { DataSetIsTaken }
{}

/// No body of residuals is a prefix of a body of as many other residuals.
pub fn one_body()
    ensures { OneBody }
{}

/// The chosen body of residuals is a body of them.
#[tactic(auto, using(crate::proofs::Bodies::chosen_is_body))]
pub fn chosen_is_body()
    ensures { ChosenIsBody }
{}

/// What a writer has appended is a prefix of the chosen body, whatever residuals follow.
#[tactic(auto, using(crate::proofs::Calls::taken_is_prefix))]
pub fn taken_is_prefix()
    ensures { TakenIsPrefix }
{}

/// The data sets of a body are read exactly if the bits begin with lawful data sets for all blocks.
pub fn body_is_read()
    ensures { BodyIsRead }
{}

/// A pair of values up to m has at most 2·m·(m + 1) zeros under the second extension.
#[tactic(auto, using(crate::proofs::Triangles::pair_below))]
pub fn pair_bound()
    ensures { PairBound }
{}

/// `segment_count` is the number of segments of the blocks of residuals, and the segments have all blocks.
pub fn segments_are_counted()
    ensures { SegmentsAreCounted }
{}

/// A body has at least three bits for each segment of its blocks.
pub fn no_shorter_body()
    ensures { NoShorterBody }
{}

/// Where a data set is refused, no lawful data set is a prefix of the bits. Unless they ended too early, none
/// is whatever bits follow.
#[tactic(auto, using(crate::proofs::Stable::fault_is_no_data_set))]
pub fn fault_is_no_data_set()
    ensures { FaultIsNoDataSet }
{}
