// The variables, definitions and assertions of conditions.
ghost use Rattle.std.specs.Prelude.{◌≤◌};

use crate::expressions::{Names, kind_of, literal_of};
use boogie_formula::{Conditions, FExpr};
use boogie_tree::{BBase, BType};
use search_base::{Fuel, SearchStop, SignedTerm, TermId, number};
use search_terms::{Forall, Problem, TermKind, TermOp, Terms};
use std::alloc::Global;

/// What a variable is a value of.
fn kind_of_type(ty: &BType) -> TermKind {
    let base = kind_of(ty.base);
    if ty.keys.is_empty() { base } else { base.map() }
}

/// Makes a term for each variable.
fn add_variables(
    vars: &[BType],
    terms: &mut Terms,
    problem: &mut Problem,
) -> Result<(), SearchStop> {
    for ty in vars {
        let place = number(problem.variables.len())?;
        let term = terms.named(TermOp::Var, &[i64::from(place + 1)], kind_of_type(ty))?;
        problem.variables.push(term)?;
    }
    Ok(())
}

/// Makes a term for each name that a `forall` binds.
fn marks_of(alloc: Global, types: &[BBase], terms: &mut Terms) -> Result<Vec<TermId>, SearchStop> {
    let mut marks = Vec::with_capacity(alloc, types.len())?;
    for base in types {
        let kind = kind_of(*base);
        let place = number(marks.len())?;
        let mark = terms.named(TermOp::Mark, &[i64::from(place), kind.code()], kind)?;
        marks.push(mark)?;
    }
    Ok(marks)
}

/// Takes in a definition that is a `forall`: a term of its own stands for it.
fn quantified(
    alloc: Global,
    types: &[BBase],
    body: &FExpr,
    terms: &mut Terms,
    problem: &mut Problem,
    fuel: &mut Fuel,
) -> Result<SignedTerm, SearchStop>
    ensures { fuel.new.left ≤ fuel.old.left }
{
    let marks = marks_of(alloc, types, terms)?;
    let names = Names {
        problem,
        marks: &marks,
    };
    let body = literal_of(alloc, body, names, terms)?;
    let place = number(problem.definitions.len())?;
    let term = terms.named(TermOp::Def, &[i64::from(place + 1)], TermKind::Bool)?;
    let forall = Forall::new(alloc, terms, term, marks, body, fuel)?;
    problem.foralls.push(forall)?;
    Ok(term.literal())
}

/// Takes in a definition.
fn define(
    alloc: Global,
    definition: &FExpr,
    terms: &mut Terms,
    problem: &mut Problem,
    fuel: &mut Fuel,
) -> Result<(), SearchStop>
    ensures { fuel.new.left ≤ fuel.old.left }
{
    let literal = match definition {
        FExpr::Forall(types, body) => quantified(alloc, types, body, terms, problem, fuel)?,
        _ => {
            let names = Names {
                problem,
                marks: &[],
            };
            literal_of(alloc, definition, names, terms)?
        }
    };
    problem.definitions.push(literal)?;
    Ok(())
}

/// Takes in the literals that say that an assertion fails.
fn add_goals(conditions: &Conditions, problem: &mut Problem) -> Result<(), SearchStop> {
    for fail in &conditions.fails {
        let names = Names {
            problem,
            marks: &[],
        };
        let goal = names.literal(fail.name)?;
        problem.goals.push(goal)?;
    }
    Ok(())
}

/// Conditions as terms: parts are made before the whole, from left to right, and each is made once. `Malformed` where a name does not
/// stand before, or a `forall` is part of an expression; `Overflow` where there are 2^30 terms.
pub fn read(
    alloc: Global,
    conditions: &Conditions,
    terms: &mut Terms,
    fuel: &mut Fuel,
) -> Result<Problem, SearchStop>
    ensures { fuel.new.left ≤ fuel.old.left }
{
    let mut problem = Problem::new(alloc);
    add_variables(&conditions.vars, terms, &mut problem)?;
    for definition in &conditions.lets {
        define(alloc, definition, terms, &mut problem, fuel)?;
    }
    add_goals(conditions, &mut problem)?;
    Ok(problem)
}
