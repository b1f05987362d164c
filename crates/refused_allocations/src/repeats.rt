//! A count of repeated calls, and the numbers that are encoded.

/// A count of calls that were refused and then repeated, and the name of the last, where it has one.
#[derive(Drop)]
pub struct Again {
    count: u32,
    name: &'static str,
}

impl Again {
    /// Returns a count of 0.
    pub fn new() -> Again {
        Again { count: 0, name: "" }
    }

    /// Counts one more call.
    pub fn more(&mut self) {
        self.call("");
    }

    /// Counts one more call, of this name.
    pub fn call(&mut self, name: &'static str) {
        self.count = self.count.saturating_add(1);
        self.name = name;
    }

    /// Returns how many calls were repeated.
    pub fn count(&self) -> u32 {
        self.count
    }

    /// Returns the name of the last call that was repeated; it is empty where there is none.
    pub fn name(&self) -> &'static str {
        self.name
    }
}

/// Returns `count` numbers of 12 bits: runs of zeros of many lengths, and small, middle and great ones between them.
pub fn numbers(alloc: std::alloc::Global, count: u32) -> Result<Vec<u16>, cube_core::fault::Fault> {
    let mut numbers = Vec::new(alloc);
    let mut state = 1u64;
    for t in 0..count {
        state = state
            .wrapping_mul(6_364_136_223_846_793_005)
            .wrapping_add(1_442_695_040_888_963_407);
        let some = (state >> 52) as u16;
        numbers.push(match (t / 7 + t / 64) % 6 {
            0 => 4095,
            1 => some,
            2 => some >> 11,
            _ => 0,
        })?;
    }
    Ok(numbers)
}
