//! What is printed for a measured loop.

ghost use Rattle.std.specs.Prelude.{◌≡◌, true, false};
ghost use Rattle.speed.specs.Measured.{measured_numbers, measured_shape};

use anyhow::Result;
use cube_core::fault::Fault;
use cube_core::shape::Shape;
use std::alloc::Global;
use std::time::{Duration, Instant};

/// Prints a line for each measured loop.
#[derive(Clone, Copy)]
pub struct Report<'a> {
    rt: &'a HostRuntime,
    timed: bool,
}

impl<'a> Report<'a> {
    /// A report of names and checksums, on little data.
    pub fn of_checksums(rt: &'a HostRuntime) -> Report<'a>
        ensures { result.timed ≡ false }
    {
        Report { rt, timed: false }
    }

    /// A report that includes speeds, on enough data for them.
    pub fn of_times(rt: &'a HostRuntime) -> Report<'a>
        ensures { result.timed ≡ true }
    {
        Report { rt, timed: true }
    }

    pub fn alloc(&self) -> Global {
        self.rt.alloc()
    }

    /// How many numbers go through a lane.
    pub fn lane_numbers(&self) -> u64
        ensures { result ≡ measured_numbers self.now.timed }
    {
        if self.timed { 1_000_000 } else { 5_000 }
    }

    /// The shape of the cube that is processed.
    pub fn shape(&self) -> Result<Shape, Fault>
        ensures { result ≡ Ok (measured_shape self.now.timed) }
    {
        let shape = if self.timed {
            Shape::new(512, 512, 24)?
        } else {
            Shape::new(23, 17, 5)?
        };
        Ok(shape)
    }

    /// The time now.
    pub fn start(&self) -> Result<Instant> {
        Ok(Instant::now(self.rt)?)
    }

    /// Returns how much time has passed.
    pub fn since(&self, start: Instant) -> Result<Duration> {
        Ok(start.elapsed(self.rt)?)
    }

    /// Prints a loop's name, how many samples it processed in how many nanoseconds, and its checksum.
    pub fn line(&self, name: &str, samples: u64, time: Duration, checksum: u64) -> Result<()> {
        if self.timed {
            let nanos = time.as_nanos();
            println!(self.rt; "{name} {samples} {nanos} {checksum:016x}")?;
        } else {
            println!(self.rt; "{name} {checksum:016x}")?;
        }
        Ok(())
    }
}
