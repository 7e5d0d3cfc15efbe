// The text of a formula, and of conditions.
ghost use Rattle.std.specs.Prelude.{◌≡◌, ◌+◌, ◌++◌, ℕ, List, OnOk, IfOk, codes, map};
ghost use Rattle.vb_base.specs.Labels.{text_of};
ghost use Rattle.boogie_tree.specs.Whole.{type_of};
ghost use Rattle.boogie_grammar.specs.Printed.{name_at, type_text};
ghost use Rattle.boogie_print.specs.Printable.{IsFreeName};
ghost use Rattle.boogie_formula.specs.Formula as formulas;
ghost use Rattle.boogie_formula.specs.Printable.{IsPrintableConditions, IsPrintableFormula};
ghost use Rattle.boogie_formula.specs.View.{conditions_of, fexpr_of, formula_of};
ghost use Rattle.boogie_formula_text.specs.Names.{variable_name, definition_name, names_in_scope};
ghost use Rattle.boogie_formula_text.specs.Printed.{fexpr_text, variables_text, definitions_text, formula_text, fails_text, conditions_text};
ghost use Rattle.boogie_formula_text.specs.Spells.{SpellsConditions, SpellsFormula};
ghost use Rattle.boogie_formula_text.specs.View.{naming_of};

use crate::put_exprs::put_between;
use crate::scopes::{FormulaScope, put_definition, put_name, put_variable};
use boogie_formula::{Conditions, FExpr, Fail, Formula};
use boogie_print::put_type;
use boogie_tree::BType;
use std::alloc::Global;
use vb_base::{Ident, Label, Memory, label_text, put};

/// The text of a formula of the procedure of this name and of this label: a line for each variable and each definition, and one
/// for the goal. It spells the formula, and no other. `Memory` where there is no memory.
pub fn print_formula(
    alloc: Global,
    name: &Ident,
    label: &Label,
    f: &Formula,
) -> Result<Vec<u8>, Memory>
    requires free { IsFreeName name.now }
    requires printable { IsPrintableFormula (formula_of f.now) }
    ensures text { IfOk result (λ bytes. bytes.items ≡ formula_text name.now label.now (formula_of f.now)) }
    ensures spells { IfOk result (λ bytes. SpellsFormula bytes.items name.now label.now (formula_of f.now)) }
    ensures no_other { IfOk result (λ bytes. (n : List ℕ) (l : Label) (g : formulas.Formula) → SpellsFormula bytes.items n l g →
        (n ≡ name.now) × (l ≡ label.now) × (g ≡ formula_of f.now)) }
{
    whole_text(alloc, name, label, f)
}

/// The text of the conditions of the procedure of this name: a line for each variable and each definition, and one for each
/// assertion. It spells the conditions, and no others. `Memory` where there is no memory.
pub fn print_conditions(
    alloc: Global,
    name: &Ident,
    conditions: &Conditions,
) -> Result<Vec<u8>, Memory>
    requires free { IsFreeName name.now }
    requires printable { IsPrintableConditions (conditions_of conditions.now) }
    ensures text { IfOk result (λ bytes. bytes.items ≡ conditions_text name.now (conditions_of conditions.now)) }
    ensures spells { IfOk result (λ bytes. SpellsConditions bytes.items name.now (conditions_of conditions.now)) }
    ensures no_other { IfOk result (λ bytes. (n : List ℕ) (x : formulas.Conditions) → SpellsConditions bytes.items n x →
        (n ≡ name.now) × (x ≡ conditions_of conditions.now)) }
{
    all_conditions(alloc, name, conditions)
}

fn all_conditions(alloc: Global, name: &Ident, conditions: &Conditions) -> Result<Vec<u8>, Memory>
    ensures { IfOk result (λ bytes. bytes.items ≡ conditions_text name.now (conditions_of conditions.now)) }
{
    let mut out = Vec::new(alloc);
    put(&mut out, b"conditions ")?;
    put(&mut out, name.bytes())?;
    put(&mut out, b"\n")?;
    put_variables(alloc, &mut out, &conditions.vars)?;
    put_definitions(alloc, &mut out, conditions.vars.len(), &conditions.lets)?;
    let scope = FormulaScope {
        variables: conditions.vars.len(),
        definitions: conditions.lets.len(),
        bound: &[],
    };
    put_fails(alloc, &mut out, &scope, &conditions.fails)?;
    Ok(out)
}

/// A line for each assertion.
fn put_fails(
    alloc: Global,
    out: &mut Vec<u8>,
    scope: &FormulaScope<'_>,
    fails: &[Fail],
) -> Result<(), Memory>
    ensures { OnOk result (out.new.items ≡ out.old.items ++ fails_text scope.now.variables scope.now.definitions fails.now) }
{
    for fail in fails {
        put_fail(alloc, out, scope, fail)?;
    }
    Ok(())
}

fn put_fail(
    alloc: Global,
    out: &mut Vec<u8>,
    scope: &FormulaScope<'_>,
    fail: &Fail,
) -> Result<(), Memory>
    ensures { OnOk result (out.new.items ≡ out.old.items ++ codes "fails " ++ text_of fail.now.label ++ codes " " ++
        name_at (names_in_scope scope.now.variables scope.now.definitions) fail.now.name ++ codes "\n") }
{
    put(out, b"fails ")?;
    put(out, &label_text(alloc, &fail.label)?)?;
    put(out, b" ")?;
    put_name(alloc, out, scope, fail.name)?;
    put(out, b"\n")
}

fn whole_text(
    alloc: Global,
    name: &Ident,
    label: &Label,
    formula: &Formula,
) -> Result<Vec<u8>, Memory>
    ensures { IfOk result (λ bytes. bytes.items ≡ formula_text name.now label.now (formula_of formula.now)) }
{
    let mut out = Vec::new(alloc);
    put_title(alloc, &mut out, name, label)?;
    put_variables(alloc, &mut out, &formula.vars)?;
    put_definitions(alloc, &mut out, formula.vars.len(), &formula.lets)?;
    let scope = FormulaScope {
        variables: formula.vars.len(),
        definitions: formula.lets.len(),
        bound: &[],
    };
    put_between(alloc, &mut out, &scope, b"goal ", &formula.goal, b"\n")?;
    Ok(out)
}

/// The first line.
fn put_title(alloc: Global, out: &mut Vec<u8>, name: &Ident, label: &Label) -> Result<(), Memory>
    ensures { OnOk result (out.new.items ≡ out.old.items ++ codes "vc " ++ name.now ++ codes " " ++ text_of label.now ++ codes "\n") }
{
    put(out, b"vc ")?;
    put(out, name.bytes())?;
    put(out, b" ")?;
    put(out, &label_text(alloc, label)?)?;
    put(out, b"\n")
}

/// A line for each variable.
fn put_variables(alloc: Global, out: &mut Vec<u8>, types: &[BType]) -> Result<(), Memory>
    ensures { OnOk result (out.new.items ≡ out.old.items ++ variables_text 0 (map type_of types.now)) }
{
    for (i, ty) in types.iter().enumerate() {
        put_type_line(alloc, out, i + 1, ty)?;
    }
    Ok(())
}

fn put_type_line(alloc: Global, out: &mut Vec<u8>, number: usize, ty: &BType) -> Result<(), Memory>
    ensures { OnOk result (out.new.items ≡ out.old.items ++ codes "var " ++ variable_name number ++ codes ": " ++ type_text (type_of ty.now) ++ codes "\n") }
{
    put(out, b"var ")?;
    put_variable(alloc, out, number)?;
    put(out, b": ")?;
    put_type(out, ty)?;
    put(out, b"\n")
}

/// A line for each definition, behind so many variables.
fn put_definitions(
    alloc: Global,
    out: &mut Vec<u8>,
    variables: usize,
    lets: &[FExpr],
) -> Result<(), Memory>
    ensures { OnOk result (out.new.items ≡ out.old.items ++ definitions_text variables 0 (map fexpr_of lets.now)) }
{
    for (i, value) in lets.iter().enumerate() {
        let scope = FormulaScope {
            variables,
            definitions: i,
            bound: &[],
        };
        put_let(alloc, out, &scope, i + 1, value)?;
    }
    Ok(())
}

fn put_let(
    alloc: Global,
    out: &mut Vec<u8>,
    scope: &FormulaScope<'_>,
    number: usize,
    value: &FExpr,
) -> Result<(), Memory>
    ensures { OnOk result (out.new.items ≡ out.old.items ++ codes "let " ++ definition_name number ++ codes " := " ++
        fexpr_text (naming_of scope.now) (fexpr_of value.now) ++ codes "\n") }
{
    put(out, b"let ")?;
    put_definition(alloc, out, number)?;
    put_between(alloc, out, scope, b" := ", value, b"\n")
}
