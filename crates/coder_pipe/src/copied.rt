//! Copies of parameters, with their tables.

ghost use Rattle.std.specs.Prelude.{◌≡◌, IfOk, IfErr};
ghost use Rattle.cube_core.specs.declared.fault.Fault.TheVariants.{WantOfMemory};

use cube_core::fault::Fault;
use header_bits::params::{Coder, CountStart, Params, WeightStart};
use header_bits::tables::{ConstantTable, WeightTable};
use std::alloc::Global;

/// Returns a copy of the parameters, or `WantOfMemory` if their tables can't be allocated.
pub(crate) fn copied(alloc: Global, params: &Params) -> Result<Params, Fault>
    ensures same { IfOk result (λ p. p ≡ params.now) }
    ensures refused { IfErr result (λ e. e ≡ WantOfMemory) }
{
    Ok(Params {
        shape: params.shape,
        kind: params.kind,
        order: params.order,
        user: params.user,
        word: params.word,
        previous: params.previous,
        reduced: params.reduced,
        column: params.column,
        register: params.register,
        omega: params.omega,
        interval_log: params.interval_log,
        vmin: params.vmin,
        vmax: params.vmax,
        start: same_start(alloc, &params.start)?,
        coder: same_coder(alloc, &params.coder)?,
    })
}

/// Returns a copy of the weight start.
fn same_start(alloc: Global, start: &WeightStart) -> Result<WeightStart, Fault>
    ensures same { IfOk result (λ s. s ≡ start.now) }
    ensures refused { IfErr result (λ e. e ≡ WantOfMemory) }
{
    match start {
        WeightStart::Usual => Ok(WeightStart::Usual),
        WeightStart::Table { q, values } => Ok(WeightStart::Table {
            q: *q,
            values: WeightTable::new(values.as_slice().to_vec(alloc)?),
        }),
    }
}

/// Returns a copy of the coder's parameters.
fn same_coder(alloc: Global, coder: &Coder) -> Result<Coder, Fault>
    ensures same { IfOk result (λ c. c ≡ coder.now) }
    ensures refused { IfErr result (λ e. e ≡ WantOfMemory) }
{
    match coder {
        Coder::Sample {
            umax,
            gamma_star,
            gamma_zero,
            start,
        } => Ok(Coder::Sample {
            umax: *umax,
            gamma_star: *gamma_star,
            gamma_zero: *gamma_zero,
            start: same_counts(alloc, start)?,
        }),
        Coder::Block {
            size,
            restricted,
            reference,
        } => Ok(Coder::Block {
            size: *size,
            restricted: *restricted,
            reference: *reference,
        }),
    }
}

/// Returns a copy of the accumulator start.
fn same_counts(alloc: Global, start: &CountStart) -> Result<CountStart, Fault>
    ensures same { IfOk result (λ s. s ≡ start.now) }
    ensures refused { IfErr result (λ e. e ≡ WantOfMemory) }
{
    match start {
        CountStart::Constant(k) => Ok(CountStart::Constant(*k)),
        CountStart::Each(table) => Ok(CountStart::Each(ConstantTable::new(
            table.as_slice().to_vec(alloc)?,
        ))),
    }
}
