// The text of a procedure up to its last local.
ghost use Rattle.std.specs.Prelude.{◌≡◌, ◌++◌, OnOk, [], codes};
ghost use Rattle.boogie_tree.specs.Whole as b;
ghost use Rattle.boogie_grammar.specs.Printed as text;

use crate::put_leaves::put_byte;
use boogie_grammar::eating::base_text;
use boogie_tree::{BBase, BType, Local};
use vb_base::{Memory, put};

/// A procedure up to the `{` of its body.
pub(crate) fn put_header(out: &mut Vec<u8>, name: &[u8]) -> Result<(), Memory>
    ensures { OnOk result (out.new.items ≡ out.old.items ++ codes "procedure " ++ name.now ++ codes "() {\n") }
{
    put(out, b"procedure ")?;
    put(out, name)?;
    put(out, b"() {\n")
}

/// Appends a line for each local.
pub fn put_locals(out: &mut Vec<u8>, locals: &[Local]) -> Result<(), Memory>
    ensures { OnOk result (out.new.items ≡ out.old.items ++ text.locals_text (b.locals_of locals.now)) }
{
    for local in locals {
        put_local(out, local)?;
    }
    Ok(())
}

fn put_local(out: &mut Vec<u8>, local: &Local) -> Result<(), Memory>
    ensures { OnOk result (out.new.items ≡ out.old.items ++ codes "var " ++ local.now.name ++ codes ": " ++ text.type_text (b.type_of local.now.ty) ++ codes ";\n") }
{
    put(out, b"var ")?;
    put(out, local.name.bytes())?;
    put(out, b": ")?;
    put_type(out, &local.ty)?;
    put(out, b";\n")
}

/// Appends a type.
pub fn put_type(out: &mut Vec<u8>, ty: &BType) -> Result<(), Memory>
    ensures { OnOk result (out.new.items ≡ out.old.items ++ text.type_text (b.type_of ty.now)) }
{
    put_keys(out, &ty.keys)?;
    put(out, base_text(ty.base))
}

/// The types of keys of a map, or nothing where there are none.
fn put_keys(out: &mut Vec<u8>, keys: &[BBase]) -> Result<(), Memory>
    ensures { OnOk result (out.new.items ≡ out.old.items ++ text.keys_text keys.now) }
{
    if keys.is_empty() {
        return Ok(());
    }
    put_byte(out, b'[')?;
    put_bases(out, keys)?;
    put_byte(out, b']')
}

/// Types with `, ` between them.
fn put_bases(out: &mut Vec<u8>, bases: &[BBase]) -> Result<(), Memory>
    ensures { OnOk result (out.new.items ≡ out.old.items ++ text.bases_text [] bases.now) }
{
    let mut before: &[u8] = b"";
    for base in bases {
        put(out, before)?;
        put(out, base_text(*base))?;
        before = b", ";
    }
    Ok(())
}
