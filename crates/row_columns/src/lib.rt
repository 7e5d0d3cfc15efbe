//! The words of rows: how the crates of tests take apart a row of a table, and tell what came of it. A table is one string, a row a
//! line.
#![tactic(auto)]

ghost use Rattle.std.specs.Prelude.{◌≤◌, length, IfOk};

use std::alloc::Global;
use std::str;
use std::test::Fail;

/// What stands before and after a text in a row.
pub fn parts<'a>(text: &'a str, between: &str) -> Result<(&'a str, &'a str), Fail> {
    Ok(text.split_once(between).ok_or("one part")?)
}

/// The columns of a row of two, which stand with ` ; ` between them. The last has all that is left.
pub fn two(row: &str) -> Result<(&str, &str), Fail> {
    parts(row, " ; ")
}

/// The columns of a row of three. The last has all that is left.
pub fn three(row: &str) -> Result<(&str, &str, &str), Fail> {
    let (first, rest) = two(row)?;
    let (second, third) = two(rest)?;
    Ok((first, second, third))
}

/// The columns of a row of four. The last has all that is left.
pub fn four(row: &str) -> Result<(&str, &str, &str, &str), Fail> {
    let (first, rest) = two(row)?;
    let (second, third, fourth) = three(rest)?;
    Ok((first, second, third, fourth))
}

/// The bytes of lines that stand with a bar between them.
pub fn bytes_of(alloc: Global, text: &str) -> Result<Vec<u8>, Fail> {
    let mut bytes = Vec::new(alloc);
    for line in text.split(" | ") {
        bytes.extend_from_slice(line.as_bytes())?;
        bytes.push(b'\n')?;
    }
    Ok(bytes)
}

/// Whether the bytes are few enough for a file.
pub fn small(bytes: &[u8]) -> Result<&[u8], Fail>
    ensures { IfOk result (λ b. length b.now ≤ 33554432) }
{
    if bytes.len() > 33_554_432 {
        return Err("a long file")?;
    }
    Ok(bytes)
}

/// Bytes as a text, for a message.
pub fn shown(alloc: Global, bytes: &[u8]) -> Result<String, Fail> {
    Ok(
        str::from_utf8(bytes)
            .ok()
            .ok_or("no text")?
            .to_string(alloc)?,
    )
}

/// What came, where it is other than what should come.
pub fn other_than(want: &str, came: String) -> Option<String> {
    if came.as_str() == want {
        None
    } else {
        Some(came)
    }
}

/// What came, where it is other than the lines that should come, which stand with a bar between them.
pub fn other_lines(alloc: Global, want: &str, came: &[u8]) -> Result<Option<String>, Fail> {
    if *bytes_of(alloc, want)? == *came {
        return Ok(None);
    }
    Ok(Some(shown(alloc, came)?))
}

/// The first row of a table of which `wrong` tells that something else came than the row says, with what came.
pub fn first_other<F: Fn(&str) -> Result<Option<String>, Fail>>(
    alloc: Global,
    table: &str,
    wrong: F,
) -> Result<Option<String>, Fail>
    requires { F.IsAlwaysCallable wrong }
{
    for row in table.lines() {
        if let Some(came) = wrong(row)? {
            return Ok(Some(format!(in alloc; "{row}: {came}")?));
        }
    }
    Ok(None)
}
