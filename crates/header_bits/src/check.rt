//! Checking parameters, and the first reason why they aren't lawful.

ghost use Rattle.std.specs.Prelude.{◌≡◌, ◌↔◌, ◌≤◌, IsOk, OnOk};
ghost use Rattle.cube_core.specs.declared.fault.Fault.TheVariants.{Disagree};
ghost use Rattle.cube_core.specs.declared.fault.Rule.TheVariants as rule;
ghost use Rattle.cube_core.specs.Steps.{refuse_if};
ghost use Rattle.cube_core.specs.Shape.{AreSizes};
ghost use Rattle.cube_core.specs.Kind.{IsKind};
ghost use Rattle.header_bits.specs.declared.params.Coder.TheVariants.{Sample, Block};
ghost use Rattle.header_bits.specs.TableParts.{some_above};
ghost use Rattle.header_bits.specs.Lawful.{IsLawful, in_range_or, exponent_or, order_fault, update_fault, register_fault, predictor_fault, start_fault};
ghost use Rattle.header_bits.specs.Lawful.{weight_fault, entries_fault, count_fault, block_size_fault, coder_fault, params_fault};

use crate::field::ValueRange;
use crate::fields::{self, GREATEST_EXPONENT, LEAST_EXPONENT, is_block_size};
use crate::params::{Coder, CountStart, Params, WeightStart};
use crate::refusal::{disagree_if, out_of_range_if, refuse_if};
use crate::weight_part::{power_of_two, weight_count};
use cube_core::fault::{Fault, Field, Rule};
use cube_core::order::Order;
use cube_core::shape::Shape;

impl Params {
    /// Checks whether the parameters are lawful; if not, returns the first refusal in the order of the header's
    /// fields.
    ///
    /// `FieldRange` names a parameter out of its own range, with its value, and `Disagree` a rule that
    /// parameters break (CCSDS 123.0-B-1, "Header"). The first weight of a table that doesn't fit in the
    /// table's bits is refused as `WeightEntry`. It allocates nothing.
    pub fn check(&self) -> Result<(), Fault>
        ensures fault { result ≡ params_fault self.now }
        ensures lawful { IsOk result ↔ IsLawful self.now }
    {
        first_fault(self)
    }
}

/// Returns the first refusal of parameters.
#[tactic(auto, unfolding(crate::specs::Lawful::params_fault))]
fn first_fault(params: &Params) -> Result<(), Fault>
    ensures fault { result ≡ params_fault params.now }
    ensures ranges { OnOk result (AreSizes params.now.shape × IsKind params.now.kind) }
{
    in_range(Field::User, fields::USER.range, params.user)?;
    check_order(params.shape, params.order)?;
    in_range(Field::WordSize, fields::WORD_SIZE.range, params.word)?;
    check_predictor(params)?;
    check_start(params)?;
    check_coder(params)
}

/// Refuses a number that isn't in its range.
fn in_range(field: Field, range: ValueRange, number: u32) -> Result<(), Fault>
    ensures { result ≡ in_range_or field range.least range.most number }
{
    let value = i64::from(number);
    refuse_if(
        !(range.least <= number && number <= range.most),
        Fault::FieldRange { field, value },
    )
}

/// Refuses a weight update scaling exponent that isn't -6 to 9.
fn exponent_in_range(field: Field, exponent: i32) -> Result<(), Fault>
    ensures { result ≡ exponent_or field exponent }
{
    let value = i64::from(exponent);
    refuse_if(
        !(LEAST_EXPONENT <= exponent && exponent <= GREATEST_EXPONENT),
        Fault::FieldRange { field, value },
    )
}

/// Refuses a depth of interleaving that isn't 1 to the number of bands.
fn check_order(shape: Shape, order: Order) -> Result<(), Fault>
    ensures fault { result ≡ order_fault shape order }
    ensures sizes { AreSizes shape }
{
    match order {
        Order::Bsq => Ok(()),
        Order::Bi(depth) => {
            let none = Fault::FieldRange {
                field: Field::Depth,
                value: 0,
            };
            refuse_if(depth == 0, none)?;
            disagree_if(shape.bands() < depth, Rule::DepthOverBands)
        }
    }
}

/// Refuses unlawful parameters of the predictor.
fn check_predictor(params: &Params) -> Result<(), Fault>
    ensures fault { result ≡ predictor_fault params.now }
    ensures kind { OnOk result (IsKind params.now.kind) }
    ensures previous { OnOk result (params.now.previous ≤ 15) }
    ensures omega { OnOk result (params.now.omega ≤ 19) }
{
    let one_column = params.shape.columns() == 1;
    in_range(Field::Previous, fields::PREVIOUS.range, params.previous)?;
    disagree_if(!params.reduced & one_column, Rule::FullOneColumn)?;
    disagree_if(!params.column & one_column, Rule::NeighbourOneColumn)?;
    check_register(params)
}

/// Refuses an unlawful register size or weight resolution, and unlawful parameters of the weight update.
fn check_register(params: &Params) -> Result<(), Fault>
    ensures fault { result ≡ register_fault params.now }
    ensures kind { OnOk result (IsKind params.now.kind) }
    ensures omega { OnOk result (params.now.omega ≤ 19) }
{
    in_range(Field::Register, fields::REGISTER.range, params.register)?;
    in_range(Field::Omega, fields::OMEGA.range, params.omega)?;
    let least = params.kind.bits() + params.omega + 2;
    disagree_if(params.register < least, Rule::RegisterTooSmall)?;
    check_update(params)
}

/// Refuses unlawful parameters of the weight update.
fn check_update(params: &Params) -> Result<(), Fault>
    ensures { result ≡ update_fault params.now }
{
    in_range(Field::Interval, fields::INTERVAL.range, params.interval_log)?;
    exponent_in_range(Field::VMin, params.vmin)?;
    exponent_in_range(Field::VMax, params.vmax)?;
    disagree_if(params.vmax < params.vmin, Rule::ExponentOrder)
}

/// Refuses a weight table for its resolution, its length, or its first entry that doesn't fit in its bits.
fn check_start(params: &Params) -> Result<(), Fault>
    requires previous { params.now.previous ≤ 15 }
    requires omega { params.now.omega ≤ 19 }
    ensures { result ≡ start_fault params.now params.now.start }
{
    let WeightStart::Table { q, values } = &params.start else {
        return Ok(());
    };
    let weights = values.as_slice();
    let bands = params.shape.bands();
    let count = weight_count(params.previous, params.reduced, bands);
    out_of_range_if(*q < fields::RESOLUTION.range.least, Field::Resolution, *q)?;
    disagree_if(params.omega + 3 < *q, Rule::ResolutionOverOmega)?;
    disagree_if(weights.len() != count, Rule::WeightTableLength)?;
    check_weights(*q, weights)
}

/// Refuses the first weight that isn't a signed number of `bits` bits.
fn check_weights(bits: u32, weights: &[i32]) -> Result<(), Fault>
    requires { (1 ≤ bits) × (bits ≤ 22) }
    ensures { result ≡ entries_fault bits weights.now }
{
    for weight in weights {
        check_weight(bits, *weight)?;
    }
    Ok(())
}

/// Refuses a weight that isn't a signed number of `bits` bits.
fn check_weight(bits: u32, weight: i32) -> Result<(), Fault>
    requires { (1 ≤ bits) × (bits ≤ 22) }
    ensures { result ≡ weight_fault bits weight }
{
    let bound = power_of_two(bits - 1);
    let entry = Fault::FieldRange {
        field: Field::WeightEntry,
        value: i64::from(weight),
    };
    refuse_if(!(-bound <= weight && weight <= bound - 1), entry)
}

/// Refuses unlawful parameters of the entropy coder.
fn check_coder(params: &Params) -> Result<(), Fault>
    ensures { result ≡ coder_fault params.now params.now.coder }
{
    match &params.coder {
        Coder::Sample {
            umax,
            gamma_star,
            gamma_zero,
            start,
        } => check_sample(params, *umax, *gamma_star, *gamma_zero, start),
        Coder::Block {
            size,
            restricted,
            reference,
        } => check_block(params, *size, *restricted, *reference),
    }
}

/// Refuses unlawful parameters of the sample-adaptive coder.
fn check_sample(
    params: &Params,
    umax: u32,
    gamma_star: u32,
    gamma_zero: u32,
    start: &CountStart,
) -> Result<(), Fault>
    ensures { result ≡ coder_fault params.now (Sample umax gamma_star gamma_zero start.now) }
{
    in_range(Field::Umax, fields::UMAX.range, umax)?;
    in_range(Field::GammaStar, fields::GAMMA_STAR.range, gamma_star)?;
    in_range(Field::GammaZero, fields::GAMMA_ZERO.range, gamma_zero)?;
    disagree_if(gamma_star < gamma_zero + 1, Rule::CounterOrder)?;
    check_count(params, start)
}

/// Refuses unlawful parameters of the block-adaptive coder.
fn check_block(params: &Params, size: u32, restricted: bool, reference: u32) -> Result<(), Fault>
    ensures { result ≡ coder_fault params.now (Block size restricted reference) }
{
    check_block_size(size)?;
    let deep = params.kind.bits() > 4;
    disagree_if(restricted & deep, Rule::RestrictedOverFour)?;
    in_range(Field::Reference, fields::REFERENCE.range, reference)
}

/// Refuses a constant above D - 2, and a table that isn't one constant for each band.
fn check_count(params: &Params, start: &CountStart) -> Result<(), Fault>
    ensures { result ≡ count_fault params.now start.now }
{
    match start {
        CountStart::Constant(k) => disagree_if(params.kind.bits() - 2 < *k, Rule::StartConstant),
        CountStart::Each(table) => {
            let constants = table.as_slice();
            let bands = params.shape.bands() as usize;
            disagree_if(constants.len() != bands, Rule::AccumulatorTableLength)?;
            check_constants(params.kind.bits() - 2, constants)
        }
    }
}

/// Refuses constants if one of them is above `most`.
fn check_constants(most: u32, constants: &[u8]) -> Result<(), Fault>
    ensures { result ≡ refuse_if (some_above most constants.now) (Disagree rule.AccumulatorEntry) }
{
    for constant in constants {
        if most < u32::from(*constant) {
            return Err(Fault::Disagree {
                rule: Rule::AccumulatorEntry,
            });
        }
    }
    Ok(())
}

/// Refuses a block size that isn't 8, 16, 32 or 64.
fn check_block_size(size: u32) -> Result<(), Fault>
    ensures { result ≡ block_size_fault size }
{
    let value = i64::from(size);
    let field = Field::BlockSize;
    refuse_if(!is_block_size(size), Fault::FieldRange { field, value })
}
