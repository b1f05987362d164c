//! The weaver: it interleaves what predictors send along the encoding order, and codes it.

ghost use Rattle.std.specs.Prelude.{◌≡◌, ◌<◌, ◌≤◌, ℕ, List, [], ◌∷◌, ◌++◌, length, take, slice_get, IfOk, IfErr, OnOk, OnErr};
ghost use Rattle.cube_core.specs.declared.fault.Fault.TheVariants.{WantOfMemory};
ghost use Rattle.header_bits.specs.declared.params.Params.{Params as Parameters};
ghost use Rattle.file_encoding.specs.Ends.{MayCode, MayCodeAll};
ghost use Rattle.file_format.specs.File.{file_of_residuals};
ghost use Rattle.file_encoding.specs.Own.{owners};
ghost use Rattle.coder_pipe.specs.Woven.{AreOfOne, AreOwnersFrom, HasWoven, WeavesAll};

use crate::plan::Plan;
use cube_core::fault::Fault;
use cube_core::order::Order;
use cube_core::shape::Shape;
use file_encoding::file_encoder::FileEncoder;
use header_bits::params::Params;
use std::alloc::Global;
use std::marker::Model;

/// Encodes an image whose residuals come from predictors. It sees no cube.
///
/// Contracts see which numbers it has taken, in encoding order, whoever they came from.
#[derive(Drop)]
pub struct Weaver {
    end: FileEncoder,
    deal: Vec<u8>,
    shape: Shape,
    order: Order,
}

impl Model for Weaver {
    ghost use Rattle.coder_pipe.specs.Woven.{WeaverState, IsAlong};

    ghost Value = { WeaverState };

    ghost view = { λ w. record { end = w.end; deal = w.deal.items } };

    ghost invariant = { λ w. IsAlong w.shape w.order (record { end = w.end; deal = w.deal.items }) };
}

impl Weaver {
    /// Returns the weaver of an image, by a plan for its parameters. It has taken nothing.
    ///
    /// Returns `WantOfMemory` if the header, the statistics of all bands, or the copy of the deal can't be
    /// allocated.
    pub fn new(alloc: Global, params: &Params, plan: &Plan) -> Result<Weaver, Fault>
        requires { plan.now.params ≡ params.now }
        ensures woven { IfOk result (λ w. HasWoven params.now plan.now.deal w []) }
        ensures refused { IfErr result (λ e. e ≡ WantOfMemory) }
    {
        plan.prove_is_plan();
        Ok(Weaver {
            end: FileEncoder::new(alloc, params)?,
            deal: plan.deal().to_vec(alloc)?,
            shape: params.shape,
            order: params.order,
        })
    }

    /// Returns the predictor of the next place, or `None` after the last. It allocates nothing.
    pub fn wants(&self) -> Option<u32>
        ensures { (p : Parameters) (deal numbers : List ℕ) → HasWoven p deal self.now numbers → result ≡ slice_get (owners deal p) (length numbers) }
    {
        let place = self.end.place()?;
        Some(u32::from(self.deal[place.z as usize]))
    }

    /// Returns a number of next places that all belong to one predictor, at most `most`: the rest of the row where places go
    /// along rows, and otherwise one. It is 0 only where there is no next place.
    pub fn wanted_run(&self, most: usize) -> usize
        requires { 0 < most }
        ensures most { result ≤ most }
        ensures owned { (p : Parameters) (deal numbers : List ℕ) → HasWoven p deal self.now numbers → AreOfOne (owners deal p) (length numbers) result }
        ensures some { 0 < length self.now.end.left → 0 < result }
    {
        let Some(place) = self.end.place() else {
            return 0;
        };
        if self.order.goes_along_rows() {
            most.min((self.shape.columns() - place.x) as usize)
        } else {
            1
        }
    }

    /// Returns the predictors of the next places, in order: those of the bands that come next at one row and
    /// column, at most `most`. There is at least one where there is a next place.
    pub fn wanted_column(&self, most: usize) -> &[u8]
        requires { 0 < most }
        ensures most { length result.now ≤ most }
        ensures owned { (p : Parameters) (deal numbers : List ℕ) → HasWoven p deal self.now numbers
            → AreOwnersFrom (owners deal p) (length numbers) result.now }
        ensures some { 0 < length self.now.end.left → 0 < length result.now }
    {
        let Some(place) = self.end.place() else {
            return &self.deal[..0];
        };
        let first = place.z as usize;
        let count = most.min(self.end.column() as usize);
        &self.deal[first..first + count]
    }

    /// Takes the next residual, which is at most 2^D - 1. Fewer residuals were taken than there are samples.
    ///
    /// Returns `WantOfMemory` if an allocation fails; then nothing was changed.
    pub fn take(&mut self, residual: u16) -> Result<(), Fault>
        requires { MayCode self.old.end residual }
        ensures woven { OnOk result ((p : Parameters) (deal numbers : List ℕ) → HasWoven p deal self.old numbers
            → HasWoven p deal self.new (numbers ++ residual ∷ [])) }
        ensures same { OnErr result (self.new ≡ self.old) }
        ensures refused { IfErr result (λ e. e ≡ WantOfMemory) }
    {
        let Some(place) = self.end.place() else {
            unreachable!()
        };
        self.end.put(place, residual)
    }

    /// Takes the next residuals, each of which is at most 2^D - 1. At least as many are still to come.
    ///
    /// Returns `WantOfMemory` if an allocation fails; then some of the first were taken, or none.
    pub fn take_all(&mut self, residuals: &[u16]) -> Result<(), Fault>
        requires { MayCodeAll self.old.end residuals.now }
        ensures woven { OnOk result (WeavesAll self.old self.new residuals.now) }
        ensures some { OnErr result ((n : ℕ) × (n < length residuals.now) × WeavesAll self.old self.new (take n residuals.now)) }
        ensures refused { IfErr result (λ e. e ≡ WantOfMemory) }
    {
        self.end.put_all(residuals)
    }

    /// Returns the bytes of the file, once a residual was taken for each sample.
    ///
    /// Returns `WantOfMemory` if they can't be allocated.
    pub fn finish(self) -> Result<Vec<u8>, Fault>
        requires { self.end.left ≡ [] }
        ensures file { IfOk result (λ bytes. (p : Parameters) (deal numbers : List ℕ) → HasWoven p deal self numbers
            → bytes.items ≡ file_of_residuals numbers p) }
        ensures refused { IfErr result (λ e. e ≡ WantOfMemory) }
    {
        let Weaver {
            end,
            deal: _,
            shape: _,
            order: _,
        } = self;
        end.finish()
    }
}
