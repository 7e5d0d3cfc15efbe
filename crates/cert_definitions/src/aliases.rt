// What the definitions of conditions are told to be.
ghost use Rattle.std.specs.Prelude.{◌≡◌, List, Some, slice_set, IfOk, OnOk};
ghost use Rattle.boogie_formula.specs.View.{conditions_of};
ghost use Rattle.boogie_tree.specs.Program as p;
ghost use Rattle.cert_definitions.specs.Told.{AreTold, IsTold};
ghost use Rattle.cert_terms.specs.Lawful.{terms_of, types_of};
ghost use Rattle.cert_terms.specs.declared.terms.CertificateTerm.{CertificateTerm};

use crate::definitions::{definition_at, name_of};
use crate::wholes::is_told;
use boogie_formula::Conditions;
use cert_terms::{ClauseLiteral, LineFault, LineRefusal, TermTable};
use std::alloc::Global;

/// No name is told to be anything: one entry for each name of the conditions.
pub fn untold(
    alloc: Global,
    conditions: &Conditions,
) -> Result<Vec<Option<ClauseLiteral>>, LineFault>
    ensures { (terms : List CertificateTerm) (types : List p.BType) → IfOk result (λ aliases. AreTold (conditions_of conditions.now) terms types aliases.items) }
{
    let mut aliases = Vec::new(alloc);
    for _var in &conditions.vars {
        aliases.push(None)?;
    }
    for _definition in &conditions.lets {
        aliases.push(None)?;
    }
    Ok(aliases)
}

/// The name of a definition that is this literal.
fn told_name(
    table: &TermTable,
    conditions: &Conditions,
    aliases: &[Option<ClauseLiteral>],
    place: usize,
    literal: ClauseLiteral,
) -> Result<usize, LineFault>
    requires { AreTold (conditions_of conditions.now) (terms_of table.now) (types_of table.now) aliases.now }
    ensures { IfOk result (λ name. IsTold (conditions_of conditions.now) (terms_of table.now) (types_of table.now) name literal) }
{
    let definition = definition_at(conditions, place)?;
    let name = name_of(conditions, place)?;
    let _ty = table.ty(name)?;
    if is_told(table, aliases, definition, name, literal) {
        Ok(name)
    } else {
        Err(LineFault::Refused(LineRefusal::Definition))
    }
}

/// Writes what a name is told to be, unless it is told already.
fn tell(
    aliases: &mut Vec<Option<ClauseLiteral>>,
    name: usize,
    literal: ClauseLiteral,
) -> Result<(), LineFault>
    ensures { OnOk result (aliases.new.items ≡ slice_set aliases.old.items name (Some literal)) }
{
    match aliases.get(name) {
        Some(None) => {
            aliases[name] = Some(literal);
            Ok(())
        }
        _ => Err(LineFault::Refused(LineRefusal::Definition)),
    }
}

/// Takes in that a definition, by its place among the definitions, is a literal: its text says so. Refused
/// (`LineRefusal::Definition`) where it says something else or is told already; `Name` where there is no such definition.
pub fn define(
    table: &TermTable,
    conditions: &Conditions,
    aliases: &mut Vec<Option<ClauseLiteral>>,
    place: usize,
    literal: ClauseLiteral,
) -> Result<(), LineFault>
    requires { AreTold (conditions_of conditions.now) (terms_of table.now) (types_of table.now) aliases.old.items }
    ensures { OnOk result (AreTold (conditions_of conditions.now) (terms_of table.now) (types_of table.now) aliases.new.items) }
{
    let name = told_name(table, conditions, aliases, place, literal)?;
    tell(aliases, name, literal)
}
