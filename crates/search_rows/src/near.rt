// Numbers to which something small is added.
use search_base::SearchStop;
use search_rational::Rational;
use std::cmp::Ordering;

/// A number, and how many times something as small as one likes is added to it.
#[derive(Clone, Copy, Default)]
pub(crate) struct Near {
    pub(crate) number: Rational,
    pub(crate) small: Rational,
}

impl Near {
    /// Which of two is less.
    pub(crate) fn compare(self, other: Near) -> Result<Ordering, SearchStop> {
        match self.number.compare(other.number)? {
            Ordering::Equal => self.small.compare(other.small),
            order => Ok(order),
        }
    }

    /// What has to be added so many times to come from one to another.
    pub(crate) fn change(self, to: Near, by: Rational) -> Result<Near, SearchStop> {
        Ok(Near {
            number: to.number.minus(self.number)?.over(by)?,
            small: to.small.minus(self.small)?.over(by)?,
        })
    }

    /// The number with so many times a change.
    pub(crate) fn changed(self, change: Near, by: Rational) -> Result<Near, SearchStop> {
        Ok(Near {
            number: self.number.plus(change.number.times(by)?)?,
            small: self.small.plus(change.small.times(by)?)?,
        })
    }
}
