// Values, each once, by number.
use search_base::{Intern, SearchStop, get};
use search_rational::Rational;
use std::alloc::Global;

/// A value, by its number.
#[derive(Clone, Copy, PartialEq, Eq, PartialOrd, Ord, Default)]
pub struct ValueId(u32);

/// What a value is. The last three are contents.
#[derive(Clone, Copy)]
pub enum Value {
    Truth(bool),
    Whole(i128),
    Real(Rational),
    /// A reference, by its number; 0 is `null`.
    Reference(u32),
    Unit,
    Leaf(ValueId),
    Pair(ValueId, ValueId),
}

/// The codes of the forms of values.
const TRUTH: i64 = 0;

const WHOLE: i64 = 1;

const REAL: i64 = 2;

const REFERENCE: i64 = 3;

const LEAF: i64 = 4;

const PAIR: i64 = 5;

const UNIT: i64 = 6;

/// Values, each once.
#[derive(Drop)]
pub struct ValueTable {
    nodes: Intern,
}

/// The two halves of a number.
fn halves(value: i128) -> [i64; 2] {
    let bits = value.cast_unsigned();
    let high = (bits >> 64) as u64;
    let low = (bits & u128::from(u64::MAX)) as u64;
    [high.cast_signed(), low.cast_signed()]
}

/// The number of two halves.
fn joined(high: i64, low: i64) -> i128 {
    let high = u128::from(high.cast_unsigned());
    let low = u128::from(low.cast_unsigned());
    ((high << 64) | low).cast_signed()
}

/// The value of a word.
fn id_of(word: i64) -> ValueId {
    ValueId(u32::try_from(word).unwrap_or(0))
}

impl ValueTable {
    /// No values. `Memory` where there is no memory.
    pub fn new(alloc: Global) -> Result<ValueTable, SearchStop> {
        Ok(ValueTable {
            nodes: Intern::new(alloc)?,
        })
    }

    /// The number of a value.
    pub fn put(&mut self, value: Value) -> Result<ValueId, SearchStop> {
        match value {
            Value::Truth(holds) => self.add(&[TRUTH, i64::from(holds)]),
            Value::Whole(number) => {
                let [high, low] = halves(number);
                self.add(&[WHOLE, high, low])
            }
            Value::Real(number) => {
                let [high, low] = halves(number.numerator());
                let [high_below, low_below] = halves(number.denominator());
                self.add(&[REAL, high, low, high_below, low_below])
            }
            Value::Reference(number) => self.add(&[REFERENCE, i64::from(number)]),
            Value::Unit => self.add(&[UNIT]),
            Value::Leaf(of) => self.add(&[LEAF, i64::from(of.0)]),
            Value::Pair(one, two) => self.add(&[PAIR, i64::from(one.0), i64::from(two.0)]),
        }
    }

    fn add(&mut self, words: &[i64]) -> Result<ValueId, SearchStop> {
        let (found, _) = self.nodes.add(words)?;
        Ok(ValueId(found))
    }

    /// The value of a number.
    pub fn value(&self, id: ValueId) -> Value {
        let words = self.nodes.get(id.0);
        let (one, two) = (get(words, 1), get(words, 2));
        match get(words, 0) {
            WHOLE => Value::Whole(joined(one, two)),
            REAL => Value::Real(fraction(joined(one, two), joined(get(words, 3), get(words, 4)))),
            REFERENCE => Value::Reference(id_of(one).0),
            LEAF => Value::Leaf(id_of(one)),
            PAIR => Value::Pair(id_of(one), id_of(two)),
            UNIT => Value::Unit,
            _ => Value::Truth(one != 0),
        }
    }
}

/// The fraction of two numbers that are one.
fn fraction(above: i128, below: i128) -> Rational {
    match Rational::new(above, below) {
        Ok(found) => found,
        Err(_) => Rational::ZERO,
    }
}
