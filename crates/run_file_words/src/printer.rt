// The text of values.
ghost use Rattle.std.specs.Prelude.{◌≡◌, ◌++◌, OnOk};
ghost use Rattle.std.specs.Fmt.{signed_decimal};
ghost use Rattle.vb_value.specs.View.{content_of};
ghost use Rattle.moves.specs.Printable.{IsNamed, IsNamedContent, IsNamedKey, IsNamedPart, IsNamedValue};
ghost use Rattle.run_file_words.specs.Printed as text;

use digits::Digits;
use vb_base::{Memory, put};
use vb_value::{Content, Frac, KeyPart, Value};

/// The arguments of an instance, each with a space behind it.
pub fn put_key(out: &mut Vec<u8>, parts: &[KeyPart]) -> Result<(), Memory>
    ensures text { OnOk result (out.new.items ≡ out.old.items ++ text.key_text parts.now) }
    ensures named { OnOk result (IsNamedKey parts.now) }
{
    for part in parts {
        put_part(out, *part)?;
        put(out, b" ")?;
    }
    Ok(())
}

fn put_part(out: &mut Vec<u8>, part: KeyPart) -> Result<(), Memory>
    ensures text { OnOk result (out.new.items ≡ out.old.items ++ text.part_text part) }
    ensures named { OnOk result (IsNamedPart part) }
{
    match part {
        KeyPart::Int(number) => put_number(out, number),
        KeyPart::Bool(truth) => put(out, truth_text(truth)),
        KeyPart::Ref(reference) => put_reference(out, reference),
    }
}

/// A content.
pub fn put_content(out: &mut Vec<u8>, content: &Content) -> Result<(), Memory>
    ensures text { OnOk result (out.new.items ≡ out.old.items ++ text.content_text (content_of content.now)) }
    ensures named { OnOk result (IsNamedContent (content_of content.now)) }
{
    match content {
        Content::Unit => put(out, b"unit"),
        Content::Leaf(value) => {
            put(out, b"leaf ")?;
            put_value(out, *value)
        }
        Content::Pair(left, right) => {
            put(out, b"pair ")?;
            put_content(out, left)?;
            put(out, b" ")?;
            put_content(out, right)
        }
    }
}

/// A value.
pub fn put_value(out: &mut Vec<u8>, value: Value) -> Result<(), Memory>
    ensures text { OnOk result (out.new.items ≡ out.old.items ++ text.value_text value) }
    ensures named { OnOk result (IsNamedValue value) }
{
    match value {
        Value::Int(number) => put_number(out, number),
        Value::Bool(truth) => put(out, truth_text(truth)),
        Value::Ref(reference) => put_reference(out, reference),
        Value::Perm(fraction) => put_fraction(out, fraction),
    }
}

/// The word of a truth value.
pub fn truth_text(truth: bool) -> &'static [u8]
    ensures { result.now ≡ text.truth_text truth }
{
    if truth { b"true" } else { b"false" }
}

/// A reference.
pub fn put_reference(out: &mut Vec<u8>, reference: u64) -> Result<(), Memory>
    ensures text { OnOk result (out.new.items ≡ out.old.items ++ text.reference_text reference) }
    ensures named { OnOk result (IsNamed reference) }
{
    if reference == 0 {
        return put(out, b"null");
    }
    put(out, b"#")?;
    put(out, Digits::of(reference).bytes())
}

/// A fraction.
pub fn put_fraction(out: &mut Vec<u8>, fraction: Frac) -> Result<(), Memory>
    ensures { OnOk result (out.new.items ≡ out.old.items ++ text.fraction_text fraction) }
{
    put_number(out, Frac::num(fraction))?;
    put(out, b"/")?;
    put_number(out, Frac::den(fraction))
}

/// A whole number.
pub fn put_number(out: &mut Vec<u8>, number: i128) -> Result<(), Memory>
    ensures { OnOk result (out.new.items ≡ out.old.items ++ signed_decimal number) }
{
    put(out, Digits::of_signed(number).bytes())
}
