// The text of values.
ghost use Rattle.std.specs.Prelude.{◌≤◌};

use crate::models::Model;
use crate::table::{Value, ValueId, ValueTable};
use digits::Digits;
use search_base::{Fuel, SearchStop};
use search_rational::Rational;

fn put(text: &mut Vec<u8>, word: &[u8]) -> Result<(), SearchStop> {
    text.extend_from_slice(word)?;
    Ok(())
}

fn put_number(text: &mut Vec<u8>, number: i128) -> Result<(), SearchStop> {
    put(text, Digits::of_signed(number).bytes())
}

/// Puts a line for each value: `vN := VALUE` of a variable, and `vN[KEY, ..] := VALUE` of a map at keys. Values are spelled as in files of
/// runs. `Budget` where that is too long.
pub fn put_model(text: &mut Vec<u8>, model: &Model, fuel: &mut Fuel) -> Result<(), SearchStop>
    ensures { fuel.new.left ≤ fuel.old.left }
{
    for (variable, value) in &model.scalars {
        put_variable(text, *variable)?;
        put_value_line(text, &model.table, *value, fuel)?;
    }
    for ((variable, keys), value) in &model.entries {
        put_variable(text, *variable)?;
        put_keys(text, &model.table, keys, fuel)?;
        put_value_line(text, &model.table, *value, fuel)?;
    }
    Ok(())
}

/// Puts the name of a variable.
fn put_variable(text: &mut Vec<u8>, variable: i64) -> Result<(), SearchStop> {
    put(text, b"v")?;
    put_number(text, i128::from(variable))
}

/// Puts a value behind `:=`, and ends the line.
fn put_value_line(
    text: &mut Vec<u8>,
    table: &ValueTable,
    value: ValueId,
    fuel: &mut Fuel,
) -> Result<(), SearchStop>
    ensures { fuel.new.left ≤ fuel.old.left }
{
    put(text, b" := ")?;
    put_value(text, table, value, fuel)?;
    put(text, b"\n")
}

/// Puts keys in brackets, with `, ` between them.
fn put_keys(
    text: &mut Vec<u8>,
    table: &ValueTable,
    keys: &[ValueId],
    fuel: &mut Fuel,
) -> Result<(), SearchStop>
    ensures { fuel.new.left ≤ fuel.old.left }
{
    let mut before: &[u8] = b"[";
    for key in keys {
        put(text, before)?;
        put_value(text, table, *key, fuel)?;
        before = b", ";
    }
    put(text, b"]")
}

/// Puts a value: parts of pairs behind one another, the first one first.
fn put_value(
    text: &mut Vec<u8>,
    table: &ValueTable,
    value: ValueId,
    fuel: &mut Fuel,
) -> Result<(), SearchStop>
    ensures { fuel.new.left ≤ fuel.old.left }
{
    let mut todo = vec![in *text.allocator(); value]?;
    while let Some(it) = todo.pop() {
        fuel.take(1)?;
        match table.value(it) {
            Value::Pair(one, two) => {
                put(text, b"pair")?;
                todo.push(two)?;
                todo.push(one)?;
            }
            Value::Leaf(of) => {
                put(text, b"leaf")?;
                todo.push(of)?;
            }
            other => put_scalar(text, other)?,
        }
        if !todo.is_empty() {
            put(text, b" ")?;
        }
    }
    Ok(())
}

/// Puts a value that has no parts.
fn put_scalar(text: &mut Vec<u8>, value: Value) -> Result<(), SearchStop> {
    match value {
        Value::Truth(true) => put(text, b"true"),
        Value::Truth(false) => put(text, b"false"),
        Value::Whole(number) => put_number(text, number),
        Value::Real(number) => put_fraction(text, number),
        Value::Reference(0) => put(text, b"null"),
        Value::Reference(number) => {
            put(text, b"#")?;
            put_number(text, i128::from(number))
        }
        _ => put(text, b"unit"),
    }
}

/// Puts a fraction: the number above the line, `/` and that below it.
fn put_fraction(text: &mut Vec<u8>, number: Rational) -> Result<(), SearchStop> {
    put_number(text, number.numerator())?;
    put(text, b"/")?;
    put_number(text, number.denominator())
}
