//! Values, contents and arguments, as the rows of the tables write them.
ghost use Rattle.std.specs.Prelude.{IfOk, All};
ghost use Rattle.vb_value.specs.Bound.{IsWithin};
ghost use Rattle.vb_value.specs.Content.{IsWithinContent};
ghost use Rattle.vb_value.specs.Fraction.{IsWithinFraction};
ghost use Rattle.vb_value.specs.Key.{IsWithinKey, IsWithinPart};
ghost use Rattle.vb_value.specs.Value.{IsWithinValue};
ghost use Rattle.vb_value.specs.View.{content_of};

use row_columns::parts;
use std::alloc::Global;
use std::test::Fail;
use vb_value::{Content, Frac, Key, KeyPart, MAX, Value, int_add};

/// A whole number, where `MAX` is the greatest.
fn number(text: &str) -> Result<i128, Fail>
    ensures { IfOk result IsWithin }
{
    let number = match text.as_bytes() {
        b"MAX" => MAX,
        b"-MAX" => -MAX,
        _ => text.parse::<i128>().ok().ok_or("no number")?,
    };
    Ok(int_add(number, 0)?)
}

/// A reference, as in `#1`.
pub fn reference(text: &str) -> Result<u64, Fail> {
    let number = text.strip_prefix("#").ok_or("no reference")?;
    Ok(number.parse::<u64>().ok().ok_or("no reference")?)
}

/// A fraction, as in `1/2`.
pub fn fraction(text: &str) -> Result<Frac, Fail>
    ensures { IfOk result IsWithinFraction }
{
    let (num, den) = parts(text, "/")?;
    Ok(Frac::make(number(num)?, number(den)?).ok_or("no fraction")?)
}

/// A value, as in `7`, `true`, `#1` and `1/2`.
pub fn value(text: &str) -> Result<Value, Fail>
    ensures { IfOk result IsWithinValue }
{
    match text.as_bytes() {
        b"true" => Ok(Value::Bool(true)),
        b"false" => Ok(Value::Bool(false)),
        [b'#', ..] => Ok(Value::Ref(reference(text)?)),
        _ if text.split_once("/").is_some() => Ok(Value::Perm(fraction(text)?)),
        _ => Ok(Value::Int(number(text)?)),
    }
}

fn leaf(text: &str) -> Result<Content, Fail>
    ensures { IfOk result (λ c. IsWithinContent (content_of c)) }
{
    if text == "_" {
        return Ok(Content::Unit);
    }
    Ok(Content::Leaf(value(text)?))
}

/// A content, as in `_`, `3` and `3&5&_`, where the last is the pair of `3` and `5&_`, as conjunctions group.
pub fn content(alloc: Global, text: &str) -> Result<Content, Fail>
    ensures { IfOk result (λ c. IsWithinContent (content_of c)) }
{
    let mut all = None;
    for part in text.rsplit('&') {
        all = Some(match all {
            Some(right) => Content::pair(alloc, leaf(part)?, right)?,
            None => leaf(part)?,
        });
    }
    Ok(all.ok_or("no content")?)
}

fn argument(text: &str) -> Result<KeyPart, Fail>
    ensures { IfOk result IsWithinPart }
{
    match value(text)? {
        Value::Int(number) => Ok(KeyPart::Int(number)),
        Value::Bool(truth) => Ok(KeyPart::Bool(truth)),
        Value::Ref(reference) => Ok(KeyPart::Ref(reference)),
        Value::Perm(_) => Err("no argument")?,
    }
}

/// The arguments of an instance, as in `#1,3`.
pub fn key(alloc: Global, text: &str) -> Result<Key, Fail>
    ensures { IfOk result IsWithinKey }
{
    let mut parts = Vec::new(alloc);
    for part in text.split(',') {
        parts.push(argument(part)?)?;
    }
    Ok(Key::new(parts))
}

/// Values that stand with a blank between them.
pub fn values(alloc: Global, text: &str) -> Result<Vec<Value>, Fail>
    ensures { IfOk result (λ v. All IsWithinValue v.items) }
{
    let mut values = Vec::new(alloc);
    for word in text.split_whitespace() {
        values.push(value(word)?)?;
    }
    Ok(values)
}
