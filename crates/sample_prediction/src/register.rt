//! The register that holds a prediction, in 64-bit words.

ghost use Rattle.std.specs.Prelude.{◌≡◌, ◌+◌, ◌^◌, ◌<◌, ◌≤◌, pos, negsuc, ◌≤ℤ◌, unsigned_abs, ◌+ℤ◌, ◌-ℤ◌, ◌*ℤ◌};
ghost use Rattle.sample_prediction.specs.Arithmetic.{wrapped, floor_div};

/// Returns what a register of `register` bits keeps of a number.
///
/// The bits above the register's are shifted out at the top of the word, and the shift back extends the sign.
pub fn wrapped_value(register: u32, value: i64) -> i64
    requires least { 32 ≤ register }
    requires most { register ≤ 64 }
    ensures { result ≡ wrapped register value }
{
    let unused = 64 - register;
    (value << unused) >> unused
}

/// Returns `value` divided by 2^`by`, rounded down.
pub fn floor_shift(value: i64, by: u32) -> i64
    requires { by < 64 }
    ensures value { result ≡ floor_div value (2 ^ by) }
    ensures bound { 1 ≤ by → unsigned_abs result ≤ 2 ^ 62 }
    ensures shrinks { unsigned_abs result ≤ unsigned_abs value }
{
    value >> by
}

/// Returns what goes into the register: the sum of the products, plus 2^Ω times the local sum less four times the middle.
pub fn register_of(omega: u32, product: i64, sum: i32, middle: i32) -> i64
    requires omega_in { omega ≤ 19 }
    requires product_in { unsigned_abs product ≤ 2 ^ 44 }
    requires sum_in { (negsuc 131071 ≤ℤ sum) × (sum ≤ℤ pos 262140) }
    requires middle_in { (pos 0 ≤ℤ middle) × (middle ≤ℤ pos 32768) }
    ensures value { result ≡ product +ℤ pos (2 ^ omega) *ℤ (sum -ℤ pos 4 *ℤ middle) }
    ensures bound { unsigned_abs result < 2 ^ 45 }
{
    product + raised(omega, distance_of(sum, middle))
}

/// Returns the distance of a local sum from four times the middle.
fn distance_of(sum: i32, middle: i32) -> i64
    requires sum_in { (negsuc 131071 ≤ℤ sum) × (sum ≤ℤ pos 262140) }
    requires middle_in { (pos 0 ≤ℤ middle) × (middle ≤ℤ pos 32768) }
    ensures value { result ≡ sum -ℤ pos 4 *ℤ middle }
    ensures bound { unsigned_abs result ≤ 2 ^ 18 }
{
    (sum - 4 * middle) as i64
}

/// Returns a distance with the fractional bits of the weights.
fn raised(omega: u32, distance: i64) -> i64
    requires omega_in { omega ≤ 19 }
    requires distance_in { unsigned_abs distance ≤ 2 ^ 18 }
    ensures value { result ≡ pos (2 ^ omega) *ℤ distance }
    ensures bound { unsigned_abs result ≤ 2 ^ 37 }
{
    (1i64 << omega) * distance
}
