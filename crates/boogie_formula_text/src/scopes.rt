// The names in the scope of an expression.
ghost use Rattle.std.specs.Prelude.{◌≡◌, ◌++◌, OnOk};
ghost use Rattle.boogie_grammar.specs.Printed.{name_at};
ghost use Rattle.boogie_formula_text.specs.Names.{variable_name, definition_name, names_in_scope};

use std::alloc::Global;
use vb_base::{Ident, Memory, put};

/// The names in the scope of an expression.
#[derive(Clone, Copy)]
pub(crate) struct FormulaScope<'a> {
    /// How many variables there are. The first is `v1`.
    pub variables: usize,
    /// How many definitions there are behind these. The first is `d1`.
    pub definitions: usize,
    /// What the `forall` around binds.
    pub bound: &'a [Ident],
}

/// Appends the name of the variable or the definition of this number.
pub(crate) fn put_name(
    alloc: Global,
    out: &mut Vec<u8>,
    scope: &FormulaScope<'_>,
    i: usize,
) -> Result<(), Memory>
    ensures { OnOk result (out.new.items ≡ out.old.items ++ name_at (names_in_scope scope.now.variables scope.now.definitions) i) }
{
    if i < scope.variables {
        return put_variable(alloc, out, i + 1);
    }
    let behind = i - scope.variables;
    if behind < scope.definitions {
        return put_definition(alloc, out, behind + 1);
    }
    Ok(())
}

/// Appends `v` and a number.
pub(crate) fn put_variable(alloc: Global, out: &mut Vec<u8>, number: usize) -> Result<(), Memory>
    ensures { OnOk result (out.new.items ≡ out.old.items ++ variable_name number) }
{
    put(out, b"v")?;
    put(out, format!(in alloc; "{number}")?.as_bytes())
}

/// Appends `d` and a number.
pub(crate) fn put_definition(alloc: Global, out: &mut Vec<u8>, number: usize) -> Result<(), Memory>
    ensures { OnOk result (out.new.items ≡ out.old.items ++ definition_name number) }
{
    put(out, b"d")?;
    put(out, format!(in alloc; "{number}")?.as_bytes())
}
