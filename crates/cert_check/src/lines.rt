// The lines of a certificate, and the words and numbers of a line.
ghost use Rattle.std.specs.Prelude.{◌<◌, length, IfSome};

use cert_terms::{LineFault, LineRefusal};

/// The first line of a text, and what stands behind the byte 10 that ends it, if one does.
pub(crate) fn next_line(text: &[u8]) -> Option<(&[u8], &[u8])>
    ensures { IfSome result (λ r. length r.1.now < length text.now) }
{
    let length = text.iter().take_while(|byte| **byte != b'\n').count();
    let (line, rest) = text.split_at(length);
    match rest {
        [_, after @ ..] => Some((line, after)),
        [] => None,
    }
}

/// The number that digits spell, where it is below 2^127 and has no needless leading 0.
fn numeral(digits: &[u8]) -> Option<i128> {
    if let [b'0', _, ..] = digits {
        return None;
    }
    let mut value: i128 = 0;
    for digit in digits {
        if !digit.is_ascii_digit() {
            return None;
        }
        value = value.checked_mul(10)?.checked_add((digit - b'0') as i128)?;
    }
    if digits.is_empty() { None } else { Some(value) }
}

/// The number that a word spells: digits, or `-` and digits of a number that is not 0.
fn number(word: &[u8]) -> Result<i128, LineFault> {
    let found = match word {
        [b'-', digits @ ..] => match numeral(digits) {
            Some(0) | None => None,
            Some(value) => value.checked_neg(),
        },
        digits => numeral(digits),
    };
    found.ok_or(LineFault::Refused(LineRefusal::Number))
}

/// Reads a line: gives back its first word, and appends the numbers that the other words spell.
pub(crate) fn read_line<'a>(
    line: &'a [u8],
    numbers: &mut Vec<i128>,
) -> Result<&'a [u8], LineFault> {
    let mut words = line.split(|byte| *byte == b' ');
    let first = words.next().unwrap_or(&[]);
    for word in words {
        numbers.push(number(word)?)?;
    }
    Ok(first)
}
