// Fractions in 128 bits.
use crate::divisors::common_divisor;
use search_base::SearchStop;
use std::cmp::Ordering;

/// A fraction: its denominator is above 0, and the two have no common divisor. What leaves 128 bits is `Overflow`.
#[derive(Clone, Copy, PartialEq, Eq)]
pub struct Rational {
    numerator: i128,
    denominator: i128,
}

impl Default for Rational {
    fn default() -> Rational {
        Rational::ZERO
    }
}

/// The value of an operation that stays within 128 bits.
fn within<T: Drop>(value: Option<T>) -> Result<T, SearchStop> {
    value.ok_or(SearchStop::Overflow)
}

impl Rational {
    /// The number 0.
    pub const ZERO: Rational = Rational {
        numerator: 0,
        denominator: 1,
    };

    /// The number 1.
    pub const ONE: Rational = Rational {
        numerator: 1,
        denominator: 1,
    };

    /// The number -1.
    pub const MINUS_ONE: Rational = Rational {
        numerator: -1,
        denominator: 1,
    };

    /// A whole number.
    pub fn whole(numerator: i128) -> Rational {
        Rational {
            numerator,
            denominator: 1,
        }
    }

    /// A fraction. `Overflow` where the denominator is 0, too.
    pub fn new(numerator: i128, denominator: i128) -> Result<Rational, SearchStop> {
        let common = within(common_divisor(numerator, denominator))?;
        let by = if denominator < 0 {
            within(common.checked_neg())?
        } else {
            common
        };
        Ok(Rational {
            numerator: within(numerator.checked_div(by))?,
            denominator: within(denominator.checked_div(by))?,
        })
    }

    /// The number above the line, with the sign.
    pub fn numerator(self) -> i128 {
        self.numerator
    }

    /// The number below the line, above 0.
    pub fn denominator(self) -> i128 {
        self.denominator
    }

    /// Whether it is 0.
    pub fn is_zero(self) -> bool {
        self.numerator == 0
    }

    /// Whether it is a whole number.
    pub fn is_whole(self) -> bool {
        self.denominator == 1
    }

    /// Whether it is above 0.
    pub fn is_positive(self) -> bool {
        self.numerator > 0
    }

    /// Whether it is below 0.
    pub fn is_negative(self) -> bool {
        self.numerator < 0
    }

    /// Whether it is 1 or -1.
    pub fn is_unit(self) -> bool {
        self.denominator == 1 && self.numerator.unsigned_abs() == 1
    }

    /// The sum.
    pub fn plus(self, other: Rational) -> Result<Rational, SearchStop> {
        if self.denominator == 1 && other.denominator == 1 {
            return Ok(Rational::whole(within(self.numerator.checked_add(other.numerator))?));
        }
        let left = within(self.numerator.checked_mul(other.denominator))?;
        let right = within(other.numerator.checked_mul(self.denominator))?;
        let below = within(self.denominator.checked_mul(other.denominator))?;
        Rational::new(within(left.checked_add(right))?, below)
    }

    /// The difference.
    pub fn minus(self, other: Rational) -> Result<Rational, SearchStop> {
        self.plus(other.negated()?)
    }

    /// The number with the other sign.
    pub fn negated(self) -> Result<Rational, SearchStop> {
        Ok(Rational {
            numerator: within(self.numerator.checked_neg())?,
            denominator: self.denominator,
        })
    }

    /// The product.
    pub fn times(self, other: Rational) -> Result<Rational, SearchStop> {
        let above = within(self.numerator.checked_mul(other.numerator))?;
        if self.denominator == 1 && other.denominator == 1 {
            return Ok(Rational::whole(above));
        }
        Rational::new(
            above,
            within(self.denominator.checked_mul(other.denominator))?,
        )
    }

    /// The quotient. `Overflow` where the other one is 0, too.
    pub fn over(self, other: Rational) -> Result<Rational, SearchStop> {
        let above = within(self.numerator.checked_mul(other.denominator))?;
        Rational::new(
            above,
            within(self.denominator.checked_mul(other.numerator))?,
        )
    }

    /// Which of two is less.
    pub fn compare(self, other: Rational) -> Result<Ordering, SearchStop> {
        Ok(self.minus(other)?.numerator.cmp(&0))
    }

    /// The greatest whole number that is not above it.
    pub fn floor(self) -> Result<i128, SearchStop> {
        within(self.numerator.checked_div_euclid(self.denominator))
    }
}
