//! The parameters of the predictor.

ghost use Rattle.std.specs.Prelude.{◌≡◌};
ghost use Rattle.sample_prediction.specs.Predictor.{predictor_of};
ghost use Rattle.sample_prediction.specs.Bounds.{IsPredictor};
ghost use Rattle.header_bits.specs.Lawful.{IsLawful};

use header_bits::params::Params;

/// The most components of a difference vector, and the most weights of a band: three directional ones, and one for each of 15
/// previous bands.
pub const MOST_COMPONENTS: usize = 18;

/// The predictor's parameters that are the same for all bands (CCSDS 123.0-B-1, "Predictor").
#[derive(Clone, Copy)]
pub struct Predictor {
    /// P, the number of previous bands used for prediction.
    pub previous: u32,
    /// Whether the mode is reduced; else it is full.
    pub reduced: bool,
    /// Whether local sums are column-oriented; else they are neighbour-oriented.
    pub column: bool,
    /// R, the number of bits of the register.
    pub register: u32,
    /// Ω, the number of fractional bits of a weight.
    pub omega: u32,
    /// The logarithm to base 2 of t_inc, the interval at which the exponent of the steps grows.
    pub interval_log: u32,
    /// v_min: the exponent of the steps starts at v_min + D - Ω.
    pub vmin: i32,
    /// v_max: it grows up to v_max + D - Ω.
    pub vmax: i32,
}

impl Predictor {
    /// Returns the predictor's parameters among those of an image, which are lawful.
    pub fn of(params: &Params) -> Predictor
        requires { IsLawful params.now }
        ensures value { result ≡ predictor_of params.now }
        ensures lawful { IsPredictor result }
    {
        Predictor {
            previous: params.previous,
            reduced: params.reduced,
            column: params.column,
            register: params.register,
            omega: params.omega,
            interval_log: params.interval_log,
            vmin: params.vmin,
            vmax: params.vmax,
        }
    }
}
