//! A number of bits that every body has.

ghost use Rattle.std.specs.Prelude.{◌≡◌};
ghost use Rattle.header_bits.specs.Lawful.{IsLawful};
ghost use Rattle.file_format.specs.MinimumLength.{minimum_length as fewest_bits, minimum_length_test};

use block_adaptive::segments::segment_count;
use cube_core::fault::Fault;
use header_bits::bit_reader::BitReader;
use header_bits::params::{Coder, Params};

/// Returns a number of bits that every body has under lawful parameters: one for each sample, or three for each segment of their
/// blocks. It allocates nothing.
pub fn minimum_length(params: &Params) -> u64
    requires { IsLawful params.now }
    ensures { result ≡ fewest_bits params.now }
{
    let samples = params.shape.sample_count();
    match params.coder {
        Coder::Sample { .. } => samples,
        Coder::Block {
            size,
            reference,
            ..
        } => 3 * segment_count(samples, size, reference),
    }
}

/// Tests that at least `minimum_length` bits are left, whatever they are. Returns `Truncated` otherwise.
pub(crate) fn test_length(params: &Params, reader: &BitReader) -> Result<(), Fault>
    requires { IsLawful params.now }
    ensures { result ≡ minimum_length_test reader.now.count params.now reader.now.left }
{
    if reader.left() < minimum_length(params) {
        return Err(Fault::Truncated {
            bit: reader.count(),
        });
    }
    Ok(())
}
