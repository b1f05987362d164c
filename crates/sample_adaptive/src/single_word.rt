//! Single code words, read back.

ghost use Rattle.std.specs.Prelude.{◌≡◌, ◌^◌, ◌<◌, length, Err, Some, IfOk, IfErr, OnErr};
ghost use Rattle.cube_core.specs.declared.fault.Fault.{Fault};
ghost use Rattle.sample_adaptive.specs.Taken.{CoderState, GetsResidual};

use crate::column::take_residual;
use crate::stats::Stats;
use cube_core::fault::Fault;
use header_bits::bit_reader::BitReader;

impl Stats {
    /// Reads residual `t` of band `z`, whose code word comes next, returns it, and updates the band's statistics.
    ///
    /// `t` counts the band's residuals from 0. Where no code word comes next, it returns `BadCode` with `t` as the place
    /// if the bits are of a code word's form but no residual's (a needless escape, or a number above 2^D - 1), and
    /// `Truncated` otherwise. Then the reader keeps its position, every later read returns the same, and nothing else
    /// was changed. `z` is below the number of bands.
    #[inline(always)]
    pub fn get(&mut self, z: u32, t: u64, reader: &mut BitReader) -> Result<u16, Fault>
        requires { z < length self.old.bands }
        ensures taken { GetsResidual z t result self.old reader.old self.new reader.new.left }
        ensures below { IfOk result (λ residual. residual < 2 ^ self.old.bits) }
        ensures again { (fault : Fault) → self.old.refused ≡ Some fault → result ≡ Err fault }
        ensures kept { IfErr result (λ fault. self.new ≡ record self.old { refused = Some fault }) }
        ensures same { OnErr result (reader.new ≡ reader.old) }
        ensures count { reader.new.count ≡ reader.old.count }
        ensures bands { (length self.new.bands ≡ length self.old.bands) × (self.new.bits ≡ self.old.bits) }
    {
        if let Some(fault) = self.refused {
            return Err(fault);
        }
        self.take_next(z, t, reader)
    }

    /// Reads residual `t` of band `z`, where none was refused.
    #[inline(always)]
    fn take_next(&mut self, z: u32, t: u64, reader: &mut BitReader) -> Result<u16, Fault>
        requires { z < length self.old.bands }
        ensures taken { GetsResidual z t result self.old reader.old self.new reader.new.left }
        ensures below { IfOk result (λ residual. residual < 2 ^ self.old.bits) }
        ensures kept { IfErr result (λ fault. self.new ≡ record self.old { refused = Some fault }) }
        ensures same { OnErr result (reader.new ≡ reader.old) }
        ensures count { reader.new.count ≡ reader.old.count }
        ensures bands { (length self.new.bands ≡ length self.old.bands) × (self.new.bits ≡ self.old.bits) }
    {
        let mut state = self.bands.get(z as usize);
        match take_residual(self.settings, t == 0, t, &mut state, reader) {
            Ok(residual) => {
                self.bands.set(z as usize, state);
                Ok(residual)
            }
            Err(fault) => {
                self.refused = Some(fault);
                Err(fault)
            }
        }
    }
}
