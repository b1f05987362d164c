//! The parameters of a coded image. Its header holds all of them.

ghost use Rattle.std.specs.Prelude.{◌≡◌};
ghost use Rattle.header_bits.specs.Plain.{plain, plain_coder};

use crate::tables::{ConstantTable, WeightTable};
use cube_core::kind::Kind;
use cube_core::order::Order;
use cube_core::shape::Shape;

/// How an image is predicted and coded (CCSDS 123.0-B-1, "Header").
///
/// The fields may hold any numbers; `check` tells whether they are lawful together.
#[derive(Drop)]
pub struct Params {
    /// Nx, Ny and Nz.
    pub shape: Shape,
    /// Whether samples are signed, and D.
    pub kind: Kind,
    pub order: Order,
    /// User-defined data, 0 to 255.
    pub user: u32,
    /// B, the output word size: 1 to 8 bytes.
    pub word: u32,
    /// P, the number of previous bands used for prediction: 0 to 15.
    pub previous: u32,
    /// Whether the prediction mode is reduced; else it is full.
    pub reduced: bool,
    /// Whether local sums are column-oriented; else they are neighbour-oriented.
    pub column: bool,
    /// R, the register size: 32 to 64 bits.
    pub register: u32,
    /// Ω, the weight component resolution: 4 to 19.
    pub omega: u32,
    /// The logarithm of tinc, the weight update scaling exponent change interval: 4 to 11.
    pub interval_log: u32,
    /// The least weight update scaling exponent, -6 to 9.
    pub vmin: i32,
    /// The greatest weight update scaling exponent, -6 to 9.
    pub vmax: i32,
    pub start: WeightStart,
    pub coder: Coder,
}

impl Params {
    /// Returns the plainest parameters of an image: band-sequential order, reduced mode with column-oriented
    /// local sums, no previous band, default weights, and the sample-adaptive coder of `Coder::plain`; user-defined
    /// data of 0, output words of one byte, R = 32, Ω = 13, t_inc = 2^6, v_min = -1 and v_max = 3. Other
    /// parameters can be made from them by naming the fields that differ.
    ///
    /// They are lawful for samples of five bits or more.
    pub fn plain(shape: Shape, kind: Kind) -> Params
        ensures { result ≡ plain shape kind }
    {
        Params {
            shape,
            kind,
            order: Order::Bsq,
            user: 0,
            word: 1,
            previous: 0,
            reduced: true,
            column: true,
            register: 32,
            omega: 13,
            interval_log: 6,
            vmin: -1,
            vmax: 3,
            start: WeightStart::Usual,
            coder: Coder::plain(),
        }
    }
}

impl Coder {
    /// Returns the sample-adaptive coder with a unary length limit of 16, a rescaling counter size of 6,
    /// counters that start at 2, and the accumulator's constant 3.
    pub fn plain() -> Coder
        ensures { result ≡ plain_coder }
    {
        Coder::Sample {
            umax: 16,
            gamma_star: 6,
            gamma_zero: 1,
            start: CountStart::Constant(3),
        }
    }
}

/// The weights that a band starts from.
#[derive(Drop)]
pub enum WeightStart {
    /// The default weights of the standard.
    Usual,
    /// Custom weights, each given by a signed number of `q` bits, 3 to Ω + 3.
    Table { q: u32, values: WeightTable },
}

/// The entropy coder and its parameters.
#[derive(Drop)]
pub enum Coder {
    /// The sample-adaptive coder of CCSDS 123.0-B-1.
    Sample {
        /// The unary length limit: 8 to 32.
        umax: u32,
        /// γ*, the rescaling counter size: 4 to 9.
        gamma_star: u32,
        /// γ₀, the initial count exponent: 1 to 8, and less than γ*.
        gamma_zero: u32,
        start: CountStart,
    },
    /// The block-adaptive coder of CCSDS 121.0-B.
    Block {
        /// J, the samples in a block: 8, 16, 32 or 64.
        size: u32,
        /// Whether the set of code options is the restricted one, for samples of at most four bits.
        restricted: bool,
        /// r, the reference sample interval: 1 to 4,096 blocks.
        reference: u32,
    },
}

/// K, the accumulator initialization constant, 0 to D - 2: one for all bands, or one for each.
#[derive(Drop)]
pub enum CountStart {
    Constant(u32),
    Each(ConstantTable),
}
