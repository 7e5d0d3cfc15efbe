// The typing of predicates.
ghost use Rattle.std.specs.Prelude.{◌≡◌, IfOk, map};
ghost use Rattle.std.specs.Option.{option_map};
ghost use Rattle.viper_core.specs.Program as p;
ghost use Rattle.viper_core.specs.View as core;
ghost use Rattle.viper_syntax.specs.View.{decl_of, term_of};
ghost use Rattle.viper_scope.specs.Answers.{Answers, world_of};
ghost use Rattle.viper_types.specs.Answers.{frame_of, optional_bodies_of};
ghost use Rattle.viper_types.specs.Declaring as j;
ghost use Rattle.viper_scope.specs.Types as types;
ghost use Rattle.viper_scope.specs.Outcome.{Judged};

use crate::assertions::assertion;
use crate::formals::{add_names, formals};
use crate::frames::MethodVariables;
use std::alloc::Global;
use vb_base::{Ident, Memory, Pos};
use vb_value::Ty;
use viper_core::{Assertion, Predicate};
use viper_scope::{Context, RuleFault, UnitPart, VariableScope, World, types_in};
use viper_syntax::{Decl, Formal, Named, Term};

/// The body of a predicate. It sees no bodies, since it holds no `unfolding`.
fn predicate_body(
    alloc: Global,
    world: &World,
    scope: &VariableScope,
    body: &Option<Term>,
) -> Result<Option<Assertion>, RuleFault>
    ensures { Answers (option_map core.assertion_of) (j.predicate_body (world_of world.now) scope.now (option_map term_of body.now)) result }
{
    let context = Context {
        world,
        bodies: &[],
        part: UnitPart::Body,
        lists: false,
    };
    match body {
        Some(term) => Ok(Some(assertion(alloc, &context, scope, term)?)),
        None => Ok(None),
    }
}

/// What a predicate is called, and the names and types of its parameters.
#[derive(Drop)]
struct PredicateHeading {
    name: Ident,
    names: Vec<Ident>,
    params: Vec<Ty>,
}

/// The heading of a predicate, copied.
fn heading_of(alloc: Global, name: &Ident, params: &[Formal]) -> Result<PredicateHeading, Memory>
    ensures name { IfOk result (λ h. h.name ≡ name.now) }
    ensures names { IfOk result (λ h. h.names.items ≡ map j.name_of params.now) }
    ensures params { IfOk result (λ h. h.params.items ≡ map types.declared_type params.now) }
{
    let mut names = Vec::with_capacity(alloc, params.len())?;
    add_names(&mut names, params)?;
    let name = name.copy()?;
    let params = types_in(alloc, params)?;
    Ok(PredicateHeading {
        name,
        names,
        params,
    })
}

/// A predicate whose parameters this frame takes.
fn predicate_in(
    alloc: Global,
    world: &World,
    frame: &mut MethodVariables,
    at: Pos,
    name: &Named,
    params: &[Formal],
    body: &Option<Term>,
) -> Result<Predicate, RuleFault>
    requires { frame_of frame.old ≡ j.no_frame }
    ensures { Answers core.predicate_of (j.predicate_typing (world_of world.now) at name.now params.now (option_map term_of body.now)) result }
{
    formals(frame, false, true, params)?;
    let heading = heading_of(alloc, &name.name, params)?;
    let body = predicate_body(alloc, world, &frame.scope, body)?;
    Ok(Predicate {
        name: heading.name,
        at,
        names: heading.names,
        params: heading.params,
        body,
    })
}

/// A predicate.
pub fn predicate(
    alloc: Global,
    world: &World,
    at: Pos,
    name: &Named,
    params: &[Formal],
    body: &Option<Term>,
) -> Result<Predicate, RuleFault>
    ensures { Answers core.predicate_of (j.predicate_typing (world_of world.now) at name.now params.now (option_map term_of body.now)) result }
{
    let mut frame = MethodVariables::new(alloc, world);
    predicate_in(alloc, world, &mut frame, at, name, params, body)
}

/// The body of a typed predicate, and none where it breaks a rule.
fn found_body(typed: Result<Predicate, RuleFault>) -> Result<Option<Assertion>, Memory>
    ensures { (judged : Judged p.Predicate) → Answers core.predicate_of judged typed → IfOk result (λ body. option_map core.assertion_of body ≡ j.found_body judged) }
{
    match typed {
        Ok(predicate) => Ok(predicate.body),
        Err(RuleFault::Broken(_, _)) => Ok(None),
        Err(RuleFault::Memory) => Err(Memory),
    }
}

/// The bodies of the predicates in order, and none where one breaks a rule.
pub fn bodies_of(
    alloc: Global,
    world: &World,
    decls: &[Decl],
) -> Result<Vec<Option<Assertion>>, Memory>
    ensures { IfOk result (λ v. optional_bodies_of v.items ≡ j.bodies_of (world_of world.now) (map decl_of decls.now)) }
{
    let mut bodies = Vec::new(alloc);
    for decl in decls {
        if let Decl::Predicate(at, name, params, body) = decl {
            bodies.push(found_body(predicate(alloc, world, *at, name, params, body))?)?;
        }
    }
    Ok(bodies)
}
