//! What holds of the definitions alone.

ghost use Rattle.coder_pipe.specs.Plans.{PlanFaultIsExact};
ghost use Rattle.coder_pipe.specs.Weave.{PartsOfWeave, WeaveOfParts, WeaveOfTaken};

/// The parts of all predictors, interleaved along the encoding order, are the residuals.
#[tactic(auto, using(crate::proofs::Weaves::weave_of_parts))]
pub fn weave_of_parts()
    ensures { WeaveOfParts }
{}

/// A list along the first places is what its parts interleave to.
#[tactic(auto, using(crate::proofs::Weaves::weave_of_taken))]
pub fn weave_of_taken()
    ensures { WeaveOfTaken }
{}

/// Lists with one item for each place of their predictors are the parts of the list that they interleave to.
pub fn parts_of_weave()
    ensures { PartsOfWeave }
{}

/// A plan has no refusal exactly where it may be made.
#[tactic(auto, using(crate::proofs::Planning::plan_fault_is_exact))]
pub fn plan_fault_is_exact()
    ensures { PlanFaultIsExact }
{}
