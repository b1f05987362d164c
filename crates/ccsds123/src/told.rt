//! From parameters to the record that C reads, and to the tables beside it.

ghost use Rattle.std.specs.Prelude.{◌≡◌};
ghost use Rattle.header_bits.specs.Header.{is_custom, resolution_of as resolution};
ghost use Rattle.ccsds123.specs.Header.{flag_of, order_number, depth_of, weights_of as weights_in, accumulators_of as accumulators_among, accumulators_in};
ghost use Rattle.ccsds123.specs.Header.{zeros, predictor_record, constant_in, table_in, with_coder, params_record as record_by};

use crate::asked::PARAMS_SIZE;
use crate::records::ParamsRecord;
use cube_core::order::Order;
use header_bits::params::{Coder, CountStart, Params, WeightStart};

/// Returns the record of parameters. Members that their order or coder doesn't use are 0.
#[tactic(auto, unfolding(crate::specs::Header::params_record))]
pub fn record_of(params: &Params) -> ParamsRecord
    ensures { result ≡ record_by params.now }
{
    with_coder(predictor_record(params), &params.coder)
}

/// Returns the numbers of an image and its predictor.
fn predictor_record(params: &Params) -> ParamsRecord
    ensures { result ≡ predictor_record params.now }
{
    ParamsRecord {
        columns: params.shape.columns(),
        rows: params.shape.rows(),
        bands: params.shape.bands(),
        bits: params.kind.bits(),
        is_signed: flag_of(params.kind.is_signed()),
        order: order_number(params.order),
        depth: depth_of(params.order),
        user: params.user,
        word: params.word,
        previous: params.previous,
        reduced: flag_of(params.reduced),
        column_sums: flag_of(params.column),
        register_bits: params.register,
        omega: params.omega,
        interval_log: params.interval_log,
        vmin: params.vmin,
        vmax: params.vmax,
        weight_table: flag_of(is_custom(&params.start)),
        weight_bits: resolution_of(&params.start),
        ..zeros()
    }
}

/// Returns a record whose members are all 0 but for its size.
pub(crate) fn zeros() -> ParamsRecord
    ensures { result ≡ zeros }
{
    ParamsRecord {
        size: PARAMS_SIZE,
        columns: 0,
        rows: 0,
        bands: 0,
        bits: 0,
        is_signed: 0,
        order: 0,
        depth: 0,
        user: 0,
        word: 0,
        previous: 0,
        reduced: 0,
        column_sums: 0,
        register_bits: 0,
        omega: 0,
        interval_log: 0,
        vmin: 0,
        vmax: 0,
        weight_table: 0,
        weight_bits: 0,
        coder: 0,
        umax: 0,
        gamma_star: 0,
        gamma_zero: 0,
        k: 0,
        accumulator_table: 0,
        block: 0,
        reference: 0,
        restricted: 0,
    }
}

/// Returns a record with the numbers of a coder.
fn with_coder(given: ParamsRecord, coder: &Coder) -> ParamsRecord
    ensures { result ≡ with_coder given coder.now }
{
    match coder {
        Coder::Sample {
            umax,
            gamma_star,
            gamma_zero,
            start,
        } => ParamsRecord {
            umax: *umax,
            gamma_star: *gamma_star,
            gamma_zero: *gamma_zero,
            k: constant_in(start),
            accumulator_table: table_in(start),
            ..given
        },
        Coder::Block {
            size,
            restricted,
            reference,
        } => ParamsRecord {
            coder: 1,
            block: *size,
            reference: *reference,
            restricted: flag_of(*restricted),
            ..given
        },
    }
}

/// Returns the constant that accumulators start from, and 0 where there is a table of them.
fn constant_in(start: &CountStart) -> u32
    ensures { result ≡ constant_in start.now }
{
    match start {
        CountStart::Constant(k) => *k,
        CountStart::Each(_) => 0,
    }
}

/// Returns 1 where there is a table of constants, and 0 where there is one for all bands.
fn table_in(start: &CountStart) -> u32
    ensures { result ≡ table_in start.now }
{
    match start {
        CountStart::Constant(_) => 0,
        CountStart::Each(_) => 1,
    }
}

/// Returns the weights that parameters start from, or none where they start from the usual ones.
pub fn weights_of(params: &Params) -> &[i32]
    ensures { result.now ≡ weights_in params.now.start }
{
    match &params.start {
        WeightStart::Usual => &[],
        WeightStart::Table { values, .. } => values.as_slice(),
    }
}

/// Returns the constants of each band, or none where there is one for all, or no accumulator.
pub fn accumulators_of(params: &Params) -> &[u8]
    ensures { result.now ≡ accumulators_among params.now.coder }
{
    match &params.coder {
        Coder::Sample {
            start: CountStart::Each(table),
            ..
        } => table.as_slice(),
        _ => &[],
    }
}

fn flag_of(is_set: bool) -> u32
    ensures { result ≡ flag_of is_set }
{
    u32::from(is_set)
}

fn order_number(order: Order) -> u32
    ensures { result ≡ order_number order }
{
    match order {
        Order::Bsq => 0,
        Order::Bi(_) => 1,
    }
}

fn depth_of(order: Order) -> u32
    ensures { result ≡ depth_of order }
{
    match order {
        Order::Bsq => 0,
        Order::Bi(depth) => depth,
    }
}

fn is_custom(start: &WeightStart) -> bool
    ensures { result ≡ is_custom start.now }
{
    match start {
        WeightStart::Usual => false,
        WeightStart::Table { .. } => true,
    }
}

fn resolution_of(start: &WeightStart) -> u32
    ensures { result ≡ resolution start.now }
{
    match start {
        WeightStart::Usual => 0,
        WeightStart::Table { q, .. } => *q,
    }
}
