// What the text of expressions is made of: bytes, names, numbers and operators.
ghost use Rattle.std.specs.Prelude.{◌≡◌, ◌∷◌, ◌++◌, OnOk, [], codes};
ghost use Rattle.std.specs.Fmt.{decimal, signed_decimal};
ghost use Rattle.vb_base.specs.Labels as labels;
ghost use Rattle.boogie_grammar.specs.Naming.{temporary_name};
ghost use Rattle.boogie_grammar.specs.Printed as text;

use boogie_grammar::eating::base_text;
use boogie_tree::{BBase, BOp};
use digits::Digits;
use vb_base::{Ident, Kind, Label, Memory, Pos, put};

/// Appends names with `, ` between them.
pub fn put_names(out: &mut Vec<u8>, names: &[Ident]) -> Result<(), Memory>
    ensures { OnOk result (out.new.items ≡ out.old.items ++ text.names_text [] names.now) }
{
    let mut before: &[u8] = b"";
    for name in names {
        put(out, before)?;
        put(out, name.bytes())?;
        before = b", ";
    }
    Ok(())
}

/// Appends bound variables with their types.
pub fn put_binders(out: &mut Vec<u8>, names: &[Ident], types: &[BBase]) -> Result<(), Memory>
    ensures { OnOk result (out.new.items ≡ out.old.items ++ text.binders_text [] names.now types.now) }
{
    let mut before: &[u8] = b"";
    for (i, name) in names.iter().enumerate() {
        match types.get(i) {
            Some(base) => put_binder(out, before, name, *base)?,
            None => return Ok(()),
        }
        before = b", ";
    }
    Ok(())
}

fn put_binder(out: &mut Vec<u8>, before: &[u8], name: &Ident, base: BBase) -> Result<(), Memory>
    ensures { OnOk result (out.new.items ≡ out.old.items ++ before.now ++ name.now ++ codes ": " ++ text.base_text base) }
{
    put(out, before)?;
    put(out, name.bytes())?;
    put(out, b": ")?;
    put(out, base_text(base))
}

/// Appends a byte.
pub(crate) fn put_byte(out: &mut Vec<u8>, byte: u8) -> Result<(), Memory>
    ensures { OnOk result (out.new.items ≡ out.old.items ++ byte ∷ []) }
{
    Ok(out.push(byte)?)
}

/// Appends a blank and an operator.
pub fn put_operator(out: &mut Vec<u8>, op: BOp) -> Result<(), Memory>
    ensures { OnOk result (out.new.items ≡ out.old.items ++ codes " " ++ text.operator_text op) }
{
    put(out, operator_text(op))
}

/// Appends a number.
pub fn put_number(out: &mut Vec<u8>, n: i128) -> Result<(), Memory>
    ensures { OnOk result (out.new.items ≡ out.old.items ++ signed_decimal n) }
{
    put(out, Digits::of_signed(n).bytes())
}

/// Appends a number with `.0` behind it.
pub fn put_real(out: &mut Vec<u8>, n: i128) -> Result<(), Memory>
    ensures { OnOk result (out.new.items ≡ out.old.items ++ signed_decimal n ++ codes ".0") }
{
    put_number(out, n)?;
    put(out, b".0")
}

/// Appends the name of a temporary: `t$` and its number.
pub(crate) fn put_numbered(out: &mut Vec<u8>, number: usize) -> Result<(), Memory>
    ensures { OnOk result (out.new.items ≡ out.old.items ++ temporary_name number) }
{
    put(out, Digits::behind(b"t$", number as u64).bytes())
}

/// Appends the text of a label.
pub(crate) fn put_label(out: &mut Vec<u8>, label: Label) -> Result<(), Memory>
    ensures { OnOk result (out.new.items ≡ out.old.items ++ labels.text_of label) }
{
    put_place(out, label.at)?;
    put_byte(out, b' ')?;
    put_place(out, label.part)?;
    put(out, kind_word(label.kind))
}

/// Its line, a `:` and its column.
fn put_place(out: &mut Vec<u8>, place: Pos) -> Result<(), Memory>
    ensures { OnOk result (out.new.items ≡ out.old.items ++ labels.place_text place) }
{
    put_count(out, place.line)?;
    put_byte(out, b':')?;
    put_count(out, place.col)
}

fn put_count(out: &mut Vec<u8>, n: u32) -> Result<(), Memory>
    ensures { OnOk result (out.new.items ≡ out.old.items ++ decimal n) }
{
    put(out, Digits::of(u64::from(n)).bytes())
}

/// A blank and the word of a kind.
fn kind_word(kind: Kind) -> &'static [u8]
    ensures { result.now ≡ codes " " ++ labels.kind_text kind }
{
    match kind {
        Kind::Null => b" null",
        Kind::Perm => b" perm",
        Kind::Fact => b" false",
        Kind::Div => b" div",
        Kind::Negative => b" negative",
        Kind::Amount => b" amount",
    }
}

/// The word of a truth value.
pub fn truth_text(truth: bool) -> &'static [u8]
    ensures { result.now ≡ text.truth_text truth }
{
    if truth { b"true" } else { b"false" }
}

/// A blank and an operator.
fn operator_text(op: BOp) -> &'static [u8]
    ensures { result.now ≡ codes " " ++ text.operator_text op }
{
    match op {
        BOp::Iff => b" <==>",
        BOp::Implies => b" ==>",
        BOp::Or => b" ||",
        BOp::And => b" &&",
        BOp::Eq => b" ==",
        BOp::Ne => b" !=",
        BOp::Lt => b" <",
        BOp::Le => b" <=",
        BOp::Gt => b" >",
        BOp::Ge => b" >=",
        BOp::Add => b" +",
        BOp::Sub => b" -",
        BOp::Mul => b" *",
        BOp::Divide => b" /",
        BOp::IntDiv => b" div",
        BOp::IntMod => b" mod",
    }
}
