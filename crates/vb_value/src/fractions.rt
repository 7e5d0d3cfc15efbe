//! Fractions in lowest terms.

ghost use Rattle.std.specs.Prelude.{◌≡◌, ◌≢◌, ◌^◌, ◌<◌, ◌*◌, pos, ◌*ℤ◌, IfOk, None, Some, if◌then◌else◌};
ghost use Rattle.vb_value.specs.Bound.{IsWithin, is_within, value_if};
ghost use Rattle.vb_value.specs.Gcd.{gcd};
ghost use Rattle.vb_value.specs.Fraction.{reduced, ratio, sum, difference, product, quotient, quotient_by, order, none, write, is_negative, is_positive, is_none, is_above_one, IsRepresentable, fits_ratio, fits_sum, fits_difference, fits_product, fits_quotient, fits_quotient_by, fits_order};

use crate::numbers::{Over, int_add, int_mul, int_sub};
use std::cmp::Ordering;
use std::marker::Model;

/// A fraction in lowest terms with a positive denominator, of which no number is beyond `MAX` in
/// magnitude.
#[derive(Clone, Copy, Debug, PartialEq, Eq)]
pub struct Frac {
    num: i128,
    den: u128,
}

impl Model for Frac {
    ghost use Rattle.vb_value.specs.Fraction.{Fraction, IsRepresentable};

    ghost Value = { Fraction };

    ghost view = { λ f. record { num = f.num; den = f.den } };

    ghost invariant = { λ f. IsRepresentable (record { num = f.num; den = f.den }) };

    ghost inverse = { λ q. record { num = q.num; den = q.den } };
}

/// The greatest common divisor, by Euclid's algorithm. Two steps at least halve the smaller number, so there are at
/// most some 250.
fn greatest_common_divisor(mut a: u128, mut b: u128) -> u128
    ensures { result ≡ gcd a b }
{
    while b != 0 {
        let rest = a % b;
        a = b;
        b = rest;
    }
    a
}

/// `num / den` in lowest terms.
fn lowest_terms(num: i128, den: u128) -> Frac
    requires num_within { IsWithin num }
    requires positive { 0 < den }
    requires den_within { den < 2 ^ 127 }
    ensures { result ≡ reduced num den }
{
    let divisor = greatest_common_divisor(num.unsigned_abs(), den);
    Frac {
        num: num / divisor as i128,
        den: den / divisor,
    }
}

/// `num / den` in lowest terms, where `den` may be negative.
fn signed_ratio(num: i128, den: i128) -> Frac
    requires num_within { IsWithin num }
    requires den_within { IsWithin den }
    requires nonzero { den ≢ pos 0 }
    ensures { result ≡ ratio num den }
{
    let num = if den < 0 { -num } else { num };
    lowest_terms(num, den.unsigned_abs())
}

/// The numerator of `a` times the denominator of `b`.
fn cross_product(a: Frac, b: Frac) -> Result<i128, Over>
    ensures value { result ≡ value_if (is_within (a.num *ℤ pos b.den)) (a.num *ℤ pos b.den) }
    ensures within { IfOk result IsWithin }
    ensures nonzero { a.num ≢ pos 0 → IfOk result (λ z. z ≢ pos 0) }
{
    int_mul(Frac::num(a), Frac::den(b))
}

/// The product of the denominators.
fn common_denominator(a: Frac, b: Frac) -> Result<u128, Over>
    ensures value { result ≡ value_if (is_within (pos (a.den * b.den))) (a.den * b.den) }
    ensures positive { IfOk result (λ d. 0 < d) }
    ensures within { IfOk result (λ d. d < 2 ^ 127) }
{
    let product = int_mul(Frac::den(a), Frac::den(b))?;
    Ok(product.unsigned_abs())
}

impl Frac {
    /// The numerator.
    pub fn num(a: Frac) -> i128
        ensures value { result ≡ a.num }
        ensures representable { IsRepresentable a }
    {
        a.num
    }

    /// The denominator.
    pub fn den(a: Frac) -> i128
        ensures value { result ≡ pos a.den }
        ensures representable { IsRepresentable a }
    {
        a.den as i128
    }

    /// No permission: 0.
    pub fn none() -> Frac
        ensures { result ≡ none }
    {
        Frac { num: 0, den: 1 }
    }

    /// The whole permission: 1.
    pub fn write() -> Frac
        ensures { result ≡ write }
    {
        Frac { num: 1, den: 1 }
    }

    /// Whether it is below 0.
    pub fn is_negative(a: Frac) -> bool
        ensures { result ≡ is_negative a }
    {
        a.num < 0
    }

    /// Whether it is above 0.
    pub fn is_positive(a: Frac) -> bool
        ensures { result ≡ is_positive a }
    {
        a.num > 0
    }

    /// Whether it is 0.
    pub fn is_none(a: Frac) -> bool
        ensures { result ≡ is_none a }
    {
        a.num == 0
    }

    /// Whether it is above 1.
    pub fn is_above_one(a: Frac) -> bool
        ensures { result ≡ is_above_one a }
    {
        Frac::num(a) > Frac::den(a)
    }

    /// `num / den`. `None` exactly where `den` is 0 or a number is the least `i128`.
    pub fn make(num: i128, den: i128) -> Option<Frac>
        ensures { result ≡ (if fits_ratio num den then Some (ratio num den) else None) }
    {
        if den == 0 || num == i128::MIN || den == i128::MIN {
            return None;
        }
        Some(signed_ratio(num, den))
    }

    /// `a + b`. `Over` exactly where a product of the computation or their sum is beyond `MAX`.
    pub fn add(a: Frac, b: Frac) -> Result<Frac, Over>
        ensures { result ≡ value_if (fits_sum a b) (sum a b) }
    {
        let left = cross_product(a, b)?;
        let right = cross_product(b, a)?;
        let den = common_denominator(a, b)?;
        let num = int_add(left, right)?;
        Ok(lowest_terms(num, den))
    }

    /// `a - b`. `Over` exactly where a product of the computation or their difference is beyond `MAX`.
    pub fn sub(a: Frac, b: Frac) -> Result<Frac, Over>
        ensures { result ≡ value_if (fits_difference a b) (difference a b) }
    {
        let left = cross_product(a, b)?;
        let right = cross_product(b, a)?;
        let den = common_denominator(a, b)?;
        let num = int_sub(left, right)?;
        Ok(lowest_terms(num, den))
    }

    /// `a * b`. `Over` exactly where the product of the numerators or of the denominators is beyond
    /// `MAX`, also where the reduced product is not.
    pub fn mul(a: Frac, b: Frac) -> Result<Frac, Over>
        ensures { result ≡ value_if (fits_product a b) (product a b) }
    {
        let num = int_mul(Frac::num(a), Frac::num(b))?;
        let den = common_denominator(a, b)?;
        Ok(lowest_terms(num, den))
    }

    /// `a / b`, where `b` is not 0. `Over` exactly where a product of the computation is beyond `MAX`.
    pub fn div(a: Frac, b: Frac) -> Result<Frac, Over>
        requires { b.num ≢ pos 0 }
        ensures { result ≡ value_if (fits_quotient a b) (quotient a b) }
    {
        let num = cross_product(a, b)?;
        let den = cross_product(b, a)?;
        Ok(signed_ratio(num, den))
    }

    /// `a / n`, where `n` is not 0 and within `MAX`. `Over` exactly where the product of `a`'s
    /// denominator with `n` is beyond `MAX`.
    pub fn div_int(a: Frac, n: i128) -> Result<Frac, Over>
        requires within { IsWithin n }
        requires nonzero { n ≢ pos 0 }
        ensures { result ≡ value_if (fits_quotient_by a n) (quotient_by a n) }
    {
        let den = int_mul(Frac::den(a), n)?;
        Ok(signed_ratio(Frac::num(a), den))
    }

    /// How `a` compares with `b`. `Over` exactly where a cross product is beyond `MAX`.
    pub fn cmp(a: Frac, b: Frac) -> Result<Ordering, Over>
        ensures { result ≡ value_if (fits_order a b) (order a b) }
    {
        let left = cross_product(a, b)?;
        let right = cross_product(b, a)?;
        Ok(left.cmp(&right))
    }
}
