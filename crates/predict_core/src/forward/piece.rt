//! Advancing a band's predictor by a piece of a row, whose mapped residuals it holds.

ghost use Rattle.std.specs.Prelude.{◌≡◌, ◌<◌, ◌≤◌, take, length, slice_index_or};
ghost use Rattle.predict_core.specs.Following.{IsPieceNext, HoldsPiece};

use crate::band::Band;
use crate::run::PIECE;
use sample_prediction::rows::Rows;

impl Band {
    /// Advances by `count` places of a row, and holds their mapped residuals until the next piece.
    ///
    /// `count` is at most 64, and all places are in the row of `rows`. The first of them is the next one, at column
    /// `x`. The image has the shape and kind of the parameters. Each residual is at most 2^D - 1
    /// (CCSDS 123.0-B-1, "Predictor").
    pub fn predict_piece(&mut self, rows: &Rows, x: u32, count: usize)
        requires next { IsPieceNext self.old rows.now.image rows.now.y x count }
        ensures held { HoldsPiece rows.now.image count self.old self.new }
    {
        let mut piece = [0; PIECE];
        self.forward_run(rows, x, &mut piece[..count]);
        self.piece = piece;
    }

    /// Returns the mapped residual of place `i`, 0 to 63, of the last piece. From the length of the piece on it is unspecified.
    #[inline]
    pub fn piece_residual(&self, i: usize) -> u16
        requires { i < 64 }
        ensures { result ≡ slice_index_or self.now.piece i 0 }
    {
        self.piece[i]
    }

    /// Returns the mapped residuals of the first `count` places of the last piece, at most 64. From the length of the piece on
    /// they are unspecified.
    #[inline]
    pub fn piece_residuals(&self, count: usize) -> &[u16]
        requires { count ≤ 64 }
        ensures value { result.now ≡ take count self.now.piece }
        ensures long { length result.now ≡ count }
    {
        &self.piece[..count]
    }
}
