//! From the records and tables of C to parameters and layouts, each number checked.

ghost use Rattle.std.specs.Prelude.{◌≡◌, ◌⊎◌, ◌||◌, ◌&&◌, ◌==◌, nat_le, length, Ok, Err, Result, IfOk, IfErr, OnOk, IsOk};
ghost use Rattle.cube_core.specs.declared.fault.Fault.TheVariants.{WantOfMemory, Disagree};
ghost use Rattle.cube_core.specs.Layout.{IsLayout};
ghost use Rattle.header_bits.specs.Lawful.{IsLawful};
ghost use Rattle.ccsds123.specs.declared.refusal.Refusal.TheVariants.{Coder as OfCoder};
ghost use Rattle.ccsds123.specs.Asked.{unless, by_coder, is_set, shape_of, kind_of, order_by, start_by, count_by, coder_of as coder_by};
ghost use Rattle.ccsds123.specs.Asked.{params_of as params_by, size_test, choice_test, shape_test, raw_shape_test, weights_test, accumulators_test, params_test};
ghost use Rattle.ccsds123.specs.Asked.{has_accumulators as have_accumulators, raw_order_by, layout_of as layout_by, layout_test, together_test, AsksParams};

use crate::records::{LayoutRecord, ParamsRecord};
use crate::refusal::{Member, Refusal};
use cube_core::fault::{Fault, Rule};
use cube_core::kind::Kind;
use cube_core::layout::{Layout, RawOrder};
use cube_core::order::Order;
use cube_core::shape::Shape;
use header_bits::params::{Coder, CountStart, Params, WeightStart};
use header_bits::tables::{ConstantTable, WeightTable};
use std::alloc::Global;

/// How many bytes the parameters have: 29 members of four bytes.
pub const PARAMS_SIZE: u32 = 116;

/// Returns the parameters that a record and tables ask for, or the first reason why they ask for none, as `params_test`
/// lists them; or `WantOfMemory` if a table can't be copied.
#[tactic(auto, unfolding(crate::specs::Asked::AsksParams, crate::specs::Asked::params_test))]
pub fn params_of(
    alloc: Global,
    given: &ParamsRecord,
    weights: &[i32],
    accumulators: &[u8],
) -> Result<Params, Refusal>
    ensures { AsksParams given.now weights.now accumulators.now result }
{
    let (shape, kind) = shape_of(given)?;
    test_tables(given, weights, accumulators)?;
    let start = start_of(alloc, given, weights).map_err(Refusal::Coder)?;
    let coder = coder_of(alloc, given, accumulators).map_err(Refusal::Coder)?;
    let params = Params {
        shape,
        kind,
        order: order_of(given),
        user: given.user,
        word: given.word,
        previous: given.previous,
        reduced: given.reduced != 0,
        column: given.column_sums != 0,
        register: given.register_bits,
        omega: given.omega,
        interval_log: given.interval_log,
        vmin: given.vmin,
        vmax: given.vmax,
        start,
        coder,
    };
    params.check().map_err(Refusal::Coder)?;
    Ok(params)
}

/// Returns the shape and the kind of a record, whose other choices are ones too.
#[tactic(auto, unfolding(crate::specs::Asked::shape_test))]
pub fn shape_of(given: &ParamsRecord) -> Result<(Shape, Kind), Refusal>
    ensures found { IfOk result (λ found. (shape_test given.now ≡ Ok tt) × (found.0 ≡ shape_of given.now) × (found.1 ≡ kind_of given.now)) }
    ensures refused { IfErr result (λ e. shape_test given.now ≡ Err e) }
{
    test_size(given)?;
    test_choice(Member::Order, 1, given.order)?;
    test_choice(Member::Coder, 1, given.coder)?;
    let shape = Shape::new(given.columns, given.rows, given.bands).map_err(Refusal::Coder)?;
    let kind = Kind::new(given.is_signed != 0, given.bits).map_err(Refusal::Coder)?;
    Ok((shape, kind))
}

/// Returns the shape of a record alone.
#[tactic(auto, unfolding(crate::specs::Asked::raw_shape_test))]
pub fn raw_shape_of(given: &ParamsRecord) -> Result<Shape, Refusal>
    ensures shape { IfOk result (λ s. (raw_shape_test given.now ≡ Ok tt) × (s ≡ shape_of given.now)) }
    ensures refused { IfErr result (λ e. raw_shape_test given.now ≡ Err e) }
{
    test_size(given)?;
    Shape::new(given.columns, given.rows, given.bands).map_err(Refusal::Coder)
}

/// Refuses a record of another size than this library's.
pub fn test_size(given: &ParamsRecord) -> Result<(), Refusal>
    ensures { result ≡ size_test given.now }
{
    let size = Refusal::StructSize {
        wanted: PARAMS_SIZE,
        had: given.size,
    };
    unless(given.size == PARAMS_SIZE, size)
}

/// Refuses a member above its greatest constant.
fn test_choice(member: Member, most: u32, value: u32) -> Result<(), Refusal>
    ensures { result ≡ choice_test member most value }
{
    unless(value <= most, Refusal::Choice { member, value })
}

/// Refuses entries of a table that isn't asked for.
fn test_tables(given: &ParamsRecord, weights: &[i32], accumulators: &[u8]) -> Result<(), Refusal>
    ensures weights { IfErr result (λ e. (weights_test given.now weights.now ≡ Err e)
        ⊎ ((weights_test given.now weights.now ≡ Ok tt) × (accumulators_test given.now accumulators.now ≡ Err e))) }
    ensures passed { OnOk result ((weights_test given.now weights.now ≡ Ok tt) × (accumulators_test given.now accumulators.now ≡ Ok tt)) }
{
    let surplus = disagree(Rule::DefaultWithTable);
    unless(given.weight_table != 0 || weights.is_empty(), surplus)?;
    let surplus = disagree(Rule::AccumulatorTableLength);
    unless(has_accumulators(given) || accumulators.is_empty(), surplus)
}

fn disagree(rule: Rule) -> Refusal
    ensures { result ≡ OfCoder (Disagree rule) }
{
    Refusal::Coder(Fault::Disagree { rule })
}

pub(crate) fn has_accumulators(given: &ParamsRecord) -> bool
    ensures { result ≡ have_accumulators given.now }
{
    given.coder == 0 && given.accumulator_table != 0
}

fn unless(passes: bool, refusal: Refusal) -> Result<(), Refusal>
    ensures { result ≡ unless passes refusal }
{
    if passes { Ok(()) } else { Err(refusal) }
}

fn order_of(given: &ParamsRecord) -> Order
    ensures { result ≡ order_by given.now.order given.now.depth }
{
    match given.order {
        0 => Order::Bsq,
        _ => Order::Bi(given.depth),
    }
}

/// Returns the start of the weights, with a copy of their table.
fn start_of(alloc: Global, given: &ParamsRecord, weights: &[i32]) -> Result<WeightStart, Fault>
    ensures start { IfOk result (λ start. start ≡ start_by (is_set given.now.weight_table) given.now.weight_bits weights.now) }
    ensures refused { IfErr result (λ e. e ≡ WantOfMemory) }
{
    if given.weight_table == 0 {
        return Ok(WeightStart::Usual);
    }
    Ok(WeightStart::Table {
        q: given.weight_bits,
        values: WeightTable::new(Vec::from_slice(alloc, weights)?),
    })
}

/// Returns the entropy coder, with a copy of its table.
fn coder_of(alloc: Global, given: &ParamsRecord, accumulators: &[u8]) -> Result<Coder, Fault>
    ensures coder { IfOk result (λ coder. coder ≡ coder_by given.now accumulators.now) }
    ensures refused { IfErr result (λ e. e ≡ WantOfMemory) }
{
    if given.coder == 0 {
        return Ok(Coder::Sample {
            umax: given.umax,
            gamma_star: given.gamma_star,
            gamma_zero: given.gamma_zero,
            start: count_of(alloc, given, accumulators)?,
        });
    }
    Ok(Coder::Block {
        size: given.block,
        restricted: given.restricted != 0,
        reference: given.reference,
    })
}

/// Returns the constants that accumulators start from, with a copy of their table.
fn count_of(alloc: Global, given: &ParamsRecord, accumulators: &[u8]) -> Result<CountStart, Fault>
    ensures start { IfOk result (λ start. start ≡ count_by (is_set given.now.accumulator_table) given.now.k accumulators.now) }
    ensures refused { IfErr result (λ e. e ≡ WantOfMemory) }
{
    if given.accumulator_table == 0 {
        return Ok(CountStart::Constant(given.k));
    }
    let constants = Vec::from_slice(alloc, accumulators)?;
    Ok(CountStart::Each(ConstantTable::new(constants)))
}

/// Returns the layout of a record, or the first reason why it has none.
#[tactic(auto, unfolding(crate::specs::Asked::layout_test))]
pub fn layout_of(given: &LayoutRecord) -> Result<Layout, Refusal>
    ensures layout { IfOk result (λ l. (layout_test given.now ≡ Ok tt) × IsLayout l × (l ≡ layout_by given.now)) }
    ensures refused { IfErr result (λ e. layout_test given.now ≡ Err e) }
{
    test_choice(Member::Interleave, 2, given.interleave)?;
    let bytes = Refusal::Choice {
        member: Member::Bytes,
        value: given.bytes,
    };
    unless(given.bytes == 1 || given.bytes == 2, bytes)?;
    Ok(Layout {
        order: raw_order_of(given),
        bytes: given.bytes,
        little: given.little != 0,
    })
}

/// Refuses a band-sequential order where the layout interleaves bands, and then a band-sequential layout where the order does.
#[tactic(auto, unfolding(crate::specs::Asked::together_test))]
pub fn test_together(params: &ParamsRecord, layout: &LayoutRecord) -> Result<(), Refusal>
    ensures { result ≡ together_test params.now layout.now }
{
    let order = Refusal::Choice {
        member: Member::Order,
        value: params.order,
    };
    unless(params.order != 0 || layout.interleave == 0, order)?;
    let interleave = Refusal::Choice {
        member: Member::Interleave,
        value: layout.interleave,
    };
    unless(params.order == 0 || layout.interleave != 0, interleave)
}

fn raw_order_of(given: &LayoutRecord) -> RawOrder
    ensures { result ≡ raw_order_by given.now.interleave }
{
    match given.interleave {
        0 => RawOrder::Bsq,
        1 => RawOrder::Bil,
        _ => RawOrder::Bip,
    }
}
