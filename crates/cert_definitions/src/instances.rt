// Definitions that are a `forall`, at keys.
ghost use Rattle.std.specs.Prelude.{◌≡◌, Some, [], ◌∷◌, IfOk};
ghost use Rattle.boogie_formula.specs.View.{fexpr_of, conditions_of};
ghost use Rattle.cert_definitions.specs.Texts as t;
ghost use Rattle.cert_definitions.specs.Told.{AreTold, HoldsDefined};
ghost use Rattle.cert_definitions.specs.View.{told_of};
ghost use Rattle.cert_terms.specs.Lawful.{terms_of, types_of};
ghost use Rattle.cert_terms.specs.Literals.{turned};

use crate::definitions::{alias_of, definition_at, name_of};
use crate::sizes::behind;
use crate::texts::is_text;
use boogie_formula::{Conditions, FExpr};
use cert_terms::{ClauseLiteral, LineFault, LineRefusal, TermTable};
use std::alloc::Global;

/// The most parts of a `forall` that is read at keys, so that a step costs no more than a constant for each number of its line.
const MOST_PARTS: usize = 1000;

/// Whether a definition is a `forall`, and its body at these keys is the literal.
fn is_instance(
    table: &TermTable,
    aliases: &[Option<ClauseLiteral>],
    definition: &FExpr,
    keys: &[ClauseLiteral],
    literal: ClauseLiteral,
) -> bool
    ensures { result ≡ t.is_instance (told_of table.now aliases.now (Some keys.now)) (fexpr_of definition.now) keys.now literal }
{
    match definition {
        FExpr::Forall(bases, body) => {
            table.are_of(keys, bases) && is_text(table, aliases, true, keys, body, literal)
        }
        _ => false,
    }
}

/// What a definition is told to be, a `forall` whose body at these keys is the literal.
fn at_keys(
    table: &TermTable,
    conditions: &Conditions,
    aliases: &[Option<ClauseLiteral>],
    place: usize,
    literal: ClauseLiteral,
    keys: &[ClauseLiteral],
) -> Result<ClauseLiteral, LineFault>
    requires { AreTold (conditions_of conditions.now) (terms_of table.now) (types_of table.now) aliases.now }
    ensures { IfOk result (λ alias. HoldsDefined (conditions_of conditions.now) (terms_of table.now) (types_of table.now) (turned alias ∷ literal ∷ [])) }
{
    let definition = definition_at(conditions, place)?;
    let name = name_of(conditions, place)?;
    let alias = alias_of(aliases, name)?;
    table.truth(alias)?;
    table.truth(literal)?;
    if behind(MOST_PARTS, definition).is_none() {
        return Err(LineFault::Refused(LineRefusal::Long));
    }
    if is_instance(table, aliases, definition, keys, literal) {
        Ok(alias)
    } else {
        Err(LineFault::Refused(LineRefusal::Shape))
    }
}

/// The clause that a definition, a `forall`, is false, or its body at keys is true.
pub fn inst(
    alloc: Global,
    table: &TermTable,
    conditions: &Conditions,
    aliases: &[Option<ClauseLiteral>],
    place: usize,
    literal: ClauseLiteral,
    keys: &[ClauseLiteral],
) -> Result<Vec<ClauseLiteral>, LineFault>
    requires { AreTold (conditions_of conditions.now) (terms_of table.now) (types_of table.now) aliases.now }
    ensures { IfOk result (λ c. HoldsDefined (conditions_of conditions.now) (terms_of table.now) (types_of table.now) c.items) }
{
    let alias = at_keys(table, conditions, aliases, place, literal, keys)?;
    clause(alloc, alias.turned(), literal)
}

/// The clause of two literals.
fn clause(
    alloc: Global,
    first: ClauseLiteral,
    second: ClauseLiteral,
) -> Result<Vec<ClauseLiteral>, LineFault>
    ensures { IfOk result (λ c. c.items ≡ first ∷ second ∷ []) }
{
    let mut literals = Vec::new(alloc);
    literals.push(first)?;
    literals.push(second)?;
    Ok(literals)
}
