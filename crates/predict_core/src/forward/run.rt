//! Advancing a band's predictor by a run: places of one row, one after another.

ghost use Rattle.std.specs.Prelude.{◌≡◌, ◌+◌, ◌*◌, ◌^◌, ◌<◌, ◌≤◌, ℕ, length, slice_index};
ghost use Rattle.cube_core.specs.Image.{IsPlace};
ghost use Rattle.header_bits.specs.declared.params.Params.{Params as Parameters};
ghost use Rattle.sample_prediction.specs.Residual.{run_residuals};
ghost use Rattle.predict_core.specs.Following.{Follows, MovesBy};

use crate::band::Band;
use crate::forward::chain::RunState;
use crate::forward::known_run::predict_run;
use crate::run::{PIECE, Run};
use sample_prediction::rows::Rows;

/// The least run that is computed in arrays of 64 places. For a shorter run they cost more than its places do.
pub(crate) const LEAST: usize = 9;

impl Band {
    /// Writes the mapped residuals of a run, as many as `residuals` has elements, and advances by as many
    /// places.
    ///
    /// A run has at most 64 places, all in the row of `rows`. Its first place is the next one, at column `x`. The
    /// image has the shape and kind of the parameters. Each residual is at most 2^D - 1
    /// (CCSDS 123.0-B-1, "Predictor"). The band holds its last piece as before.
    pub fn forward_run(&mut self, rows: &Rows, x: u32, residuals: &mut [u16])
        requires shape { rows.now.image.shape ≡ self.old.shape }
        requires kind { rows.now.image.kind ≡ self.old.kind }
        requires place { IsPlace rows.now.image.shape self.old.band rows.now.y x }
        requires few { length residuals.old ≤ 64 }
        requires inside { x + length residuals.old ≤ rows.now.image.shape.columns }
        requires next { self.old.t ≡ rows.now.y * rows.now.image.shape.columns + x }
        ensures moved { MovesBy (length residuals.old) self.old self.new }
        ensures held { self.new.piece ≡ self.old.piece }
        ensures bound { (i : ℕ) → i < length residuals.new → slice_index residuals.new i < 2 ^ rows.now.image.kind.bits }
        ensures residuals { (p : Parameters) → Follows p self.old rows.now.image
            → residuals.new ≡ run_residuals p rows.now.image self.old.band self.old.t (length residuals.old) }
        ensures follows { (p : Parameters) → Follows p self.old rows.now.image → Follows p self.new rows.now.image }
    {
        let y = rows.y();
        rows.prove_is_row();
        let count = residuals.len();
        if count < LEAST {
            self.forward_each(rows, y, x, residuals);
            return;
        }
        self.next += count as u64;
        let settings = &self.settings;
        let mut state = RunState::new(self.weights);
        let run = Run::new(rows, x, count);
        predict_run(&run, settings, &mut state);
        self.weights = state.weights;
        residuals.copy_from_slice(&state.residuals[..count]);
    }

    /// `forward_run`, one place after another.
    fn forward_each(&mut self, rows: &Rows, y: u32, x: u32, residuals: &mut [u16])
        requires row { rows.now.y ≡ y }
        requires shape { rows.now.image.shape ≡ self.old.shape }
        requires kind { rows.now.image.kind ≡ self.old.kind }
        requires place { IsPlace rows.now.image.shape self.old.band y x }
        requires few { length residuals.old ≤ PIECE }
        requires inside { x + length residuals.old ≤ rows.now.image.shape.columns }
        requires next { self.old.t ≡ y * rows.now.image.shape.columns + x }
        ensures moved { MovesBy (length residuals.old) self.old self.new }
        ensures held { self.new.piece ≡ self.old.piece }
        ensures bound { (i : ℕ) → i < length residuals.new → slice_index residuals.new i < 2 ^ rows.now.image.kind.bits }
        ensures residuals { (p : Parameters) → Follows p self.old rows.now.image
            → residuals.new ≡ run_residuals p rows.now.image self.old.band self.old.t (length residuals.old) }
        ensures follows { (p : Parameters) → Follows p self.old rows.now.image → Follows p self.new rows.now.image }
    {
        rows.prove_is_row();
        for i in 0..residuals.len() {
            residuals[i] = self.forward_in(rows, y, x + i as u32);
        }
    }
}
