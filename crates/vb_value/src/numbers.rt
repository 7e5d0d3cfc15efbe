//! Whole numbers of magnitude at most `MAX`.

ghost use Rattle.std.specs.Prelude.{◌≡◌, ◌≢◌, ℤ, pos, ◌+ℤ◌, ◌-ℤ◌, ◌*ℤ◌, MatchOption, IfOk, Err};
ghost use Rattle.std.specs.Int.{int_div_euclid, int_rem_euclid};
ghost use Rattle.vb_value.specs.Bound.{IsWithin, is_within, value_if, over};
ghost use Rattle.vb_value.specs.Euclid.{IsEuclidean};

/// The greatest magnitude of a number: 2^127 - 1.
pub const MAX: i128 = i128::MAX;

/// A number of a computation has a magnitude above `MAX`.
#[derive(Clone, Copy, Debug, PartialEq, Eq)]
pub struct Over;

/// The number, where there is one and its magnitude is at most `MAX`.
fn within(number: Option<i128>) -> Result<i128, Over>
    ensures { MatchOption number (result ≡ Err over) (λ z. result ≡ value_if (is_within z) z) }
{
    match number {
        Some(number) if number != i128::MIN => Ok(number),
        _ => Err(Over),
    }
}

/// `a + b`. `Over` exactly where the sum is beyond `MAX` in magnitude.
pub fn int_add(a: i128, b: i128) -> Result<i128, Over>
    ensures value { result ≡ value_if (is_within (a +ℤ b)) (a +ℤ b) }
    ensures within { IfOk result IsWithin }
{
    within(a.checked_add(b))
}

/// `a - b`. `Over` exactly where the difference is beyond `MAX` in magnitude.
pub fn int_sub(a: i128, b: i128) -> Result<i128, Over>
    ensures value { result ≡ value_if (is_within (a -ℤ b)) (a -ℤ b) }
    ensures within { IfOk result IsWithin }
{
    within(a.checked_sub(b))
}

/// `a * b`. `Over` exactly where the product is beyond `MAX` in magnitude.
pub fn int_mul(a: i128, b: i128) -> Result<i128, Over>
    ensures value { result ≡ value_if (is_within (a *ℤ b)) (a *ℤ b) }
    ensures within { IfOk result IsWithin }
{
    within(a.checked_mul(b))
}

/// The quotient of `a` by `d` whose remainder is not negative. Both are within `MAX`, and `d` is not 0.
pub fn int_div(a: i128, d: i128) -> i128
    requires a_within { IsWithin a }
    requires d_within { IsWithin d }
    requires nonzero { d ≢ pos 0 }
    ensures value { result ≡ int_div_euclid a d }
    ensures euclidean { (r : ℤ) × IsEuclidean a d result r }
    ensures within { IsWithin result }
{
    a.div_euclid(d)
}

/// The remainder of that division, from 0 to `|d| - 1`. Both are within `MAX`, and `d` is not 0.
pub fn int_mod(a: i128, d: i128) -> i128
    requires a_within { IsWithin a }
    requires d_within { IsWithin d }
    requires nonzero { d ≢ pos 0 }
    ensures value { result ≡ int_rem_euclid a d }
    ensures euclidean { (q : ℤ) × IsEuclidean a d q result }
    ensures within { IsWithin result }
{
    a.rem_euclid(d)
}
