// Divisors that numbers have in common.

/// The greatest common divisor, not negative; None where it leaves 128 bits.
pub fn common_divisor(a: i128, b: i128) -> Option<i128> {
    let (mut a, mut b) = (a.unsigned_abs(), b.unsigned_abs());
    while b != 0 {
        if let (Ok(short), Ok(other)) = (u64::try_from(a), u64::try_from(b)) {
            return Some(i128::from(short_divisor(short, other)));
        }
        let rest = a % b;
        a = b;
        b = rest;
    }
    i128::try_from(a).ok()
}

/// The same in 64 bits, which is faster.
fn short_divisor(a: u64, b: u64) -> u64 {
    let (mut a, mut b) = (a, b);
    while b != 0 {
        let rest = a % b;
        a = b;
        b = rest;
    }
    a
}

/// The least common multiple of two numbers above 0; None where it leaves 128 bits.
pub fn common_multiple(a: i128, b: i128) -> Option<i128> {
    let shared = common_divisor(a, b)?;
    a.checked_mul(b.checked_div(shared.max(1))?)
}
