// The values that words spell.
ghost use Rattle.std.specs.Prelude.{◌≡◌, ◌==◌, ◌^◌, not, pos, IfSome, IsTrue};
ghost use Rattle.std.specs.Char.{is_ascii_digit};
ghost use Rattle.std.specs.List.{list_all, list_any, prefix_len};
ghost use Rattle.std.specs.Option.{option_map};
ghost use Rattle.std.specs.Str.Parse.{digits_value};
ghost use Rattle.run_file_words.specs.Reading.{natural, magnitude, integer, first_type, truth, numbered, reference, fraction, type_told, value_of, any_value, argument_of};

use crate::texts::is_word;
use std::str;
use vb_value::{Frac, KeyPart, Ty, Value};

/// The value of a type that a word spells.
pub fn value(ty: Ty, word: &[u8]) -> Option<Value>
    ensures { result ≡ value_of ty word.now }
{
    match ty {
        Ty::Int => Some(Value::Int(integer(word)?)),
        Ty::Bool => Some(Value::Bool(truth(word)?)),
        Ty::Ref => Some(Value::Ref(reference(word)?)),
        Ty::Perm => Some(Value::Perm(fraction(word)?)),
    }
}

/// The value of some type that a word spells.
pub fn any_value(word: &[u8]) -> Option<Value>
    ensures { result ≡ any_value word.now }
{
    value(type_told(word), word)
}

/// The argument of an instance that a value is, if it is no fraction.
pub fn argument(value: Value) -> Option<KeyPart>
    ensures { result ≡ argument_of value }
{
    match value {
        Value::Int(number) => Some(KeyPart::Int(number)),
        Value::Bool(truth) => Some(KeyPart::Bool(truth)),
        Value::Ref(reference) => Some(KeyPart::Ref(reference)),
        Value::Perm(_) => None,
    }
}

/// The only type of which a word can spell a value.
fn type_told(word: &[u8]) -> Ty
    ensures { result ≡ type_told word.now }
{
    if has_slash(word) {
        return Ty::Perm;
    }
    match word {
        [first, ..] => first_type(*first),
        [] => Ty::Int,
    }
}

fn has_slash(word: &[u8]) -> bool
    ensures { result ≡ list_any (λ b. b == 47) word.now }
{
    word.iter().any(|b| *b == b'/')
}

/// The only type of which a word that begins so and has no `/` can spell a value.
fn first_type(first: u8) -> Ty
    ensures { result ≡ first_type first }
{
    if first == b'#' || first == b'n' {
        Ty::Ref
    } else if first == b't' || first == b'f' {
        Ty::Bool
    } else {
        Ty::Int
    }
}

/// The whole number of magnitude at most MAX that a word spells.
fn integer(word: &[u8]) -> Option<i128>
    ensures { result ≡ integer word.now }
{
    match word {
        [first, digits @ ..] if *first == b'-' => Some(-magnitude(digits)?),
        _ => magnitude(word),
    }
}

/// The truth value that a word spells.
pub fn truth(word: &[u8]) -> Option<bool>
    ensures { result ≡ truth word.now }
{
    if is_word(word, b"true".as_slice()) {
        Some(true)
    } else if is_word(word, b"false".as_slice()) {
        Some(false)
    } else {
        None
    }
}

/// The reference that a word names: `null`, or `#` and its number.
pub fn reference(word: &[u8]) -> Option<u64>
    ensures { result ≡ reference word.now }
{
    if is_word(word, b"null".as_slice()) {
        return Some(0);
    }
    match word {
        [b'#', digits @ ..] => numbered(digits),
        _ => None,
    }
}

/// The fraction that a word spells, in lowest terms.
pub fn fraction(word: &[u8]) -> Option<Frac>
    ensures { result ≡ fraction word.now }
{
    let (num, rest) = word.split_at(len_before_slash(word));
    match rest {
        [_, den @ ..] => Frac::make(integer(num)?, magnitude(den)?),
        [] => None,
    }
}

/// How many bytes stand before the first `/`.
fn len_before_slash(word: &[u8]) -> usize
    ensures { result ≡ prefix_len (λ b. not (b == 47)) word.now }
{
    word.iter().take_while(|b| **b != b'/').count()
}

/// The number of at most MAX that digits spell.
fn magnitude(word: &[u8]) -> Option<i128>
    ensures { result ≡ option_map pos (magnitude word.now) }
{
    i128::try_from(natural(word)?).ok()
}

/// The number below 2^64 that digits spell.
fn numbered(word: &[u8]) -> Option<u64>
    ensures { result ≡ numbered word.now }
{
    u64::try_from(natural(word)?).ok()
}

/// The number that digits spell.
fn natural(word: &[u8]) -> Option<u128>
    ensures { result ≡ natural (2 ^ 128) word.now }
{
    if word.is_empty() || !are_digits(word) {
        return None;
    }
    match short_number(word) {
        Some(number) => Some(u128::from(number)),
        None => number_of(word),
    }
}

/// The number that digits spell, if it is below 2^64.
fn short_number(digits: &[u8]) -> Option<u64>
    requires { IsTrue (list_all is_ascii_digit digits.now) }
    ensures { IfSome result (λ n. n ≡ digits_value 10 digits.now) }
{
    let mut number: u64 = 0;
    for digit in digits {
        number = number
            .checked_mul(10)?
            .checked_add(u64::from(*digit - b'0'))?;
    }
    Some(number)
}

fn number_of(digits: &[u8]) -> Option<u128>
    requires { IsTrue (list_all is_ascii_digit digits.now) }
    ensures { result ≡ natural (2 ^ 128) digits.now }
{
    match str::from_utf8(digits) {
        Ok(text) => text.parse().ok(),
        Err(_) => None,
    }
}

fn are_digits(word: &[u8]) -> bool
    ensures { result ≡ list_all is_ascii_digit word.now }
{
    word.iter().all(|b| b.is_ascii_digit())
}
