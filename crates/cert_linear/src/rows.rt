// What is known of a few numbers, as a sum that stands to 0.
ghost use Rattle.std.specs.Prelude.{◌≡◌, pos, negsuc};
ghost use Rattle.cert_linear.specs.declared.rows.SumSign.TheVariants as sign;
ghost use Rattle.cert_linear.specs.Rows.{times, two, three, equation_row, order_row};

/// The number of a name, so many times.
#[derive(Clone, Copy)]
pub(crate) struct Product {
    pub(crate) name: usize,
    pub(crate) factor: i128,
}

/// How a sum stands to 0.
#[derive(Clone, Copy)]
pub(crate) enum SumSign {
    /// `= 0`
    Equal,
    /// `<= 0`
    AtMost,
    /// `< 0`
    Below,
    /// `!= 0`
    Other,
}

/// How three products and a number together stand to 0.
#[derive(Clone, Copy)]
pub(crate) struct LinearRow {
    pub(crate) first: Product,
    pub(crate) second: Product,
    pub(crate) third: Product,
    pub(crate) number: i128,
    pub(crate) sign: SumSign,
}

/// So many times a name.
fn times(factor: i128, name: usize) -> Product
    ensures { result ≡ times factor name }
{
    Product { name, factor }
}

/// A row of two names.
fn two(first: Product, second: Product, number: i128, sign: SumSign) -> LinearRow
    ensures { result ≡ two first second number sign }
{
    LinearRow {
        first,
        second,
        third: times(0, 0),
        number,
        sign,
    }
}

/// Two names, so many times each, whose sum is 0.
pub(crate) fn pair(first: i128, name: usize, second: i128, other: usize) -> LinearRow
    ensures { result ≡ two (times first name) (times second other) (pos 0) sign.Equal }
{
    two(times(first, name), times(second, other), 0, SumSign::Equal)
}

/// A name and a number, whose sum is 0.
pub(crate) fn value(name: usize, number: i128) -> LinearRow
    ensures { result ≡ two (times (pos 1) name) (times (pos 0) 0) number sign.Equal }
{
    two(times(1, name), times(0, 0), number, SumSign::Equal)
}

/// A name less another, and a third one so many times, whose sum is 0.
pub(crate) fn three(name: usize, a: usize, second: i128, b: usize) -> LinearRow
    ensures { result ≡ three (times (pos 1) name) (times (negsuc 0) a) (times second b) }
{
    LinearRow {
        first: times(1, name),
        second: times(-1, a),
        third: times(second, b),
        number: 0,
        sign: SumSign::Equal,
    }
}

/// How two names stand that are equal, or else that are not.
pub(crate) fn equation(a: usize, b: usize, equal: bool) -> LinearRow
    ensures { result ≡ equation_row a b equal }
{
    let sign = if equal {
        SumSign::Equal
    } else {
        SumSign::Other
    };
    two(times(1, a), times(-1, b), 0, sign)
}

/// How two names stand of which the first is at most the second, or else is above it.
pub(crate) fn order(a: usize, b: usize, is_int: bool, at_most: bool) -> LinearRow
    ensures { result ≡ order_row a b is_int at_most }
{
    if at_most {
        return two(times(1, a), times(-1, b), 0, SumSign::AtMost);
    }
    if is_int {
        return two(times(1, b), times(-1, a), 1, SumSign::AtMost);
    }
    two(times(1, b), times(-1, a), 0, SumSign::Below)
}
