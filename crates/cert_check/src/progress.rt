// What is shown so far, line after line.
ghost use Rattle.std.specs.Prelude.{IfOk, OnOk};
ghost use Rattle.boogie_formula.specs.View.{conditions_of};
ghost use Rattle.cert_definitions.specs.Told.{AreTold};
ghost use Rattle.cert_terms.specs.Lawful.{terms_of, types_of};
ghost use Rattle.cert_check.specs.Shown.{IsShown, IsRight};

use crate::laws::StepContext;
use crate::lines::{next_line, read_line};
use crate::names::two;
use crate::steps::clause_of;
use crate::tables::FIRST;
use crate::unshown::{Unshown, at};
use crate::words::{LineWord, word_of};
use boogie_formula::Conditions;
use cert_definitions::{define, untold};
use cert_terms::{ClauseLiteral, LineFault, LineRefusal};

/// The most literals of a clause, so that a step costs no more than a constant for each number of its line.
const MOST_LITERALS: usize = 1000;

/// The clauses of the steps so far, and for each name of the conditions the literal that it is told to be, if it is.
#[derive(Drop)]
pub(crate) struct Progress {
    pub(crate) clauses: Vec<Vec<ClauseLiteral>>,
    pub(crate) aliases: Vec<Option<ClauseLiteral>>,
}

/// Before any line.
fn begun(scope: StepContext, conditions: &Conditions) -> Result<Progress, LineFault>
    ensures { IfOk result (λ shown. IsRight (conditions_of conditions.now) (terms_of scope.entry.table.now) (types_of scope.entry.table.now) shown) }
{
    let aliases = untold(scope.alloc, conditions)?;
    Ok(Progress {
        clauses: Vec::new(scope.alloc),
        aliases,
    })
}

/// Takes in a definition: its number, and the literal that it is told to be.
fn tell(
    scope: StepContext,
    conditions: &Conditions,
    aliases: &mut Vec<Option<ClauseLiteral>>,
    numbers: &[i128],
) -> Result<(), LineFault>
    requires { AreTold (conditions_of conditions.now) (terms_of scope.table.now) (types_of scope.table.now) aliases.old.items }
    ensures { OnOk result (AreTold (conditions_of conditions.now) (terms_of scope.entry.table.now) (types_of scope.entry.table.now) aliases.new.items) }
{
    let (number, literal) = two(numbers)?;
    let place = scope.names.definition(number)?;
    let literal = scope.names.literal(literal)?;
    define(scope.table, conditions, aliases, place, literal)
}

/// Adds a clause to those that are shown.
fn add_clause(
    scope: StepContext,
    conditions: &Conditions,
    shown: &mut Progress,
    clause: Vec<ClauseLiteral>,
) -> Result<(), LineFault>
    requires so_far { IsRight (conditions_of conditions.now) (terms_of scope.table.now) (types_of scope.table.now) shown.old }
    requires clause { IsShown (conditions_of conditions.now) (terms_of scope.table.now) (types_of scope.table.now) clause.items }
    ensures { OnOk result (IsRight (conditions_of conditions.now) (terms_of scope.entry.table.now) (types_of scope.entry.table.now) shown.new) }
{
    if clause.len() > MOST_LITERALS {
        return Err(LineFault::Refused(LineRefusal::Long));
    }
    shown.clauses.push(clause)?;
    Ok(())
}

/// Takes in the definition or the step of a line, if it is one.
fn take_line(
    scope: StepContext,
    conditions: &Conditions,
    shown: &mut Progress,
    line: &[u8],
) -> Result<(), LineFault>
    requires { IsRight (conditions_of conditions.now) (terms_of scope.table.now) (types_of scope.table.now) shown.old }
    ensures { OnOk result (IsRight (conditions_of conditions.now) (terms_of scope.entry.table.now) (types_of scope.entry.table.now) shown.new) }
{
    let mut numbers = Vec::new(scope.alloc);
    let text = read_line(line, &mut numbers)?;
    match word_of(text) {
        Some(LineWord::Let) => tell(scope, conditions, &mut shown.aliases, &numbers),
        Some(LineWord::Step(reason)) => {
            let clause = clause_of(scope, conditions, shown, reason, &numbers)?;
            add_clause(scope, conditions, shown, clause)
        }
        Some(LineWord::Term(_)) => Ok(()),
        None => Err(LineFault::Refused(LineRefusal::Word)),
    }
}

/// What all lines show.
pub(crate) fn read_steps(
    scope: StepContext,
    conditions: &Conditions,
    lines: &[u8],
) -> Result<Progress, Unshown>
    ensures { IfOk result (λ shown. IsRight (conditions_of conditions.now) (terms_of scope.entry.table.now) (types_of scope.entry.table.now) shown) }
{
    let mut shown = match begun(scope, conditions) {
        Ok(shown) => shown,
        Err(fault) => return Err(at(1, fault)),
    };
    let mut number = FIRST;
    let mut rest = lines;
    while let Some((line, after)) = next_line(rest) {
        match take_line(scope, conditions, &mut shown, line) {
            Ok(()) => {}
            Err(fault) => return Err(at(number, fault)),
        }
        number = number.saturating_add(1);
        rest = after;
    }
    Ok(shown)
}
