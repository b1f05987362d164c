//! Plans: which predictor each band is dealt to, and how many residuals a lane has room for.

ghost use Rattle.std.specs.Prelude.{◌≡◌, ◌⊎◌, ◌+◌, ◌<◌, ◌^◌, ◌↔◌, drop, length, slice_index, IfOk, IfErr, OnOk, OnErr};
ghost use Rattle.cube_core.specs.declared.fault.Fault.TheVariants.{WantOfMemory};
ghost use Rattle.header_bits.specs.Lawful.{IsLawful, in_range_or};
ghost use Rattle.header_bits.specs.Parts.{fine};
ghost use Rattle.coder_pipe.specs.Plans.{IsPlan, MayPlan, owner_fault, length_fault, plan_fault};

use crate::copied::copied;
use cube_core::fault::{Fault, Field};
use header_bits::params::Params;
use std::alloc::Global;
use std::marker::Model;

/// The greatest band number that is reported.
const GREATEST_REPORTED: usize = 4_294_967_295;

/// The predictor of each band of an image, and how many residuals a predictor's lane has room for.
#[derive(Drop)]
pub struct Plan {
    params: Params,
    predictors: u32,
    deal: Vec<u8>,
    slots: u32,
}

impl Model for Plan {
    ghost use Rattle.coder_pipe.specs.Plans.{PlanState, IsPlan};

    ghost Value = { PlanState };

    ghost view = { λ plan. record { params = plan.params; predictors = plan.predictors; deal = plan.deal.items; slots = plan.slots } };

    ghost invariant = { λ plan. IsPlan (record { params = plan.params; predictors = plan.predictors; deal = plan.deal.items; slots = plan.slots }) };
}

impl Plan {
    /// Returns a plan for an image of lawful parameters: band z belongs to predictor `deal[z]`, and each
    /// predictor's lane has room for `slots` residuals.
    ///
    /// There are 1 to 64 predictors and 1 to 65,536 slots. Returns `FieldRange` of `Predictors`, then of
    /// `Slots`, if they are out of range. Returns `BadDeal` with the first band whose predictor doesn't exist;
    /// if there is none and the deal doesn't have exactly one entry for each band, with the first band that
    /// either the deal or the image lacks. Only after these it returns `WantOfMemory`, if the copy of the deal
    /// or of the parameters' tables can't be allocated.
    pub fn new(
        alloc: Global,
        params: &Params,
        predictors: u32,
        deal: &[u8],
        slots: u32,
    ) -> Result<Plan, Fault>
        requires { IsLawful params.now }
        ensures plan { IfOk result (λ plan. plan ≡ record { params = params.now; predictors = predictors; deal = deal.now; slots = slots }) }
        ensures may { OnOk result (MayPlan predictors slots params.now.shape.bands deal.now) }
        ensures refused { IfErr result (λ e. ((e ≡ WantOfMemory) × MayPlan predictors slots params.now.shape.bands deal.now)
            ⊎ (plan_fault predictors slots params.now.shape.bands deal.now ≡ Err e)) }
    {
        test_plan(predictors, slots, params.shape.bands(), deal)?;
        Plan::made(alloc, params, predictors, deal, slots)
    }

    /// Returns a plan for arguments that were checked. Its only refusal is `WantOfMemory`.
    fn made(
        alloc: Global,
        params: &Params,
        predictors: u32,
        deal: &[u8],
        slots: u32,
    ) -> Result<Plan, Fault>
        requires lawful { IsLawful params.now }
        requires may { MayPlan predictors slots params.now.shape.bands deal.now }
        ensures plan { IfOk result (λ plan. plan ≡ record { params = params.now; predictors = predictors; deal = deal.now; slots = slots }) }
        ensures refused { IfErr result (λ e. e ≡ WantOfMemory) }
    {
        Ok(Plan {
            params: copied(alloc, params)?,
            predictors,
            deal: deal.to_vec(alloc)?,
            slots,
        })
    }

    /// Lemma: what holds of every plan. It does nothing at run time.
    pub fn prove_is_plan(&self)
        ensures { IsPlan self.now }
    {
        let _ = &self.slots;
    }

    /// Returns the parameters that the plan is for.
    pub fn params(&self) -> &Params
        ensures { result.now ≡ self.now.params }
    {
        &self.params
    }

    /// Returns the number of predictors.
    pub fn predictors(&self) -> u32
        ensures { result ≡ self.now.predictors }
    {
        self.predictors
    }

    /// Returns the predictor of each band.
    pub fn deal(&self) -> &[u8]
        ensures { result.now ≡ self.now.deal }
    {
        &self.deal
    }

    /// Returns how many residuals a lane has room for.
    pub fn slots(&self) -> u32
        ensures { result ≡ self.now.slots }
    {
        self.slots
    }
}

/// Returns the first refusal of a plan.
#[tactic(auto, unfolding(crate::specs::Plans::plan_fault))]
fn test_plan(predictors: u32, slots: u32, bands: u32, deal: &[u8]) -> Result<(), Fault>
    ensures { result ≡ plan_fault predictors slots bands deal.now }
{
    in_range(Field::Predictors, 64, predictors)?;
    in_range(Field::Slots, 65_536, slots)?;
    test_owners(predictors, deal)?;
    test_length(bands, deal)
}

/// Refuses a number that isn't 1 to `most`.
fn in_range(field: Field, most: u32, number: u32) -> Result<(), Fault>
    ensures { result ≡ in_range_or field 1 most number }
{
    let value = i64::from(number);
    if 1 <= number && number <= most {
        Ok(())
    } else {
        Err(Fault::FieldRange { field, value })
    }
}

/// Refuses the first band whose predictor doesn't exist.
#[tactic(auto, using(crate::proofs::Planning::owner_there, crate::proofs::Planning::owner_lacks, crate::proofs::Planning::owner_none))]
fn test_owners(predictors: u32, deal: &[u8]) -> Result<(), Fault>
    ensures { result ≡ owner_fault predictors 0 deal.now }
{
    for (z, owner) in deal.iter().enumerate() {
        if u32::from(*owner) >= predictors {
            let band = z.min(GREATEST_REPORTED) as u32;
            return Err(Fault::BadDeal { band });
        }
    }
    Ok(())
}

/// Refuses the first band that has no entry, or the first entry that has no band.
fn test_length(bands: u32, deal: &[u8]) -> Result<(), Fault>
    ensures { result ≡ length_fault bands deal.now }
{
    if deal.len() == bands as usize {
        return Ok(());
    }
    let band = deal.len().min(bands as usize) as u32;
    Err(Fault::BadDeal { band })
}
