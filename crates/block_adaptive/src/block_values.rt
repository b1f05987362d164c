//! The values of a block: their sum, and the zeros that fill the last one.

ghost use Rattle.std.specs.Prelude.{ℕ, ◌-◌, ◌≡◌, ◌%◌, ◌≤◌, ◌++◌, length, sum, take, replicate};

/// Returns the sum of at most 64 numbers.
#[inline(always)]
pub(crate) fn sum_of(numbers: &[u16]) -> u32
    requires { length numbers.now ≤ 64 }
    ensures { result ≡ sum numbers.now }
{
    let mut total = 0;
    for i in 0..numbers.len() {
        total += u32::from(numbers[i]);
    }
    total
}

/// Returns the sum of a block, of eight values at a time: the inner loop then has a length that is known.
#[inline(always)]
pub(crate) fn sum_of_eights(block: &[u16]) -> u32
    requires few { length block.now ≤ 64 }
    requires eights { length block.now % 8 ≡ 0 }
    ensures { result ≡ sum block.now }
{
    let mut total = 0;
    let mut first = 0;
    while first < block.len() {
        total += sum_of(&block[first..first + 8]);
        first += 8;
    }
    total
}

/// Returns the first `held` values, followed by zeros.
#[tactic(auto, using(std::proofs::lemmas::Grind::common_steps, crate::proofs::Places::filled_next))]
pub(crate) fn filled_block(values: &[u16; 64], held: u32) -> [u16; 64]
    requires { held ≤ 64 }
    ensures { (n : ℕ) → held ≤ n → n ≤ 64 → take n result ≡ take held values.now ++ replicate (n - held) 0 }
{
    let mut block = *values;
    for i in held..64 {
        block[i as usize] = 0;
    }
    block
}
