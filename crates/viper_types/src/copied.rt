// What typing would copy, spent from a budget before it copies anything: each call answers what is left of the budget, or
// None where there is more to copy.
ghost use Rattle.std.specs.Prelude.{◌≡◌, map};
ghost use Rattle.viper_core.specs.Budget.{Leaves};
ghost use Rattle.viper_syntax.specs.View as v;
ghost use Rattle.viper_syntax.specs.Term as t;
ghost use Rattle.viper_scope.specs.Answers.{world_of};
ghost use Rattle.viper_types.specs.Answers.{optional_bodies_of};
ghost use Rattle.viper_scope.specs.Context.{predicate_at};
ghost use Rattle.viper_types.specs.Copied as c;

use vb_base::Ident;
use vb_base::limits::TOO_HEAVY;
use vb_value::Ty;
use viper_core::{Assertion, spend, spend_assertion};
use viper_scope::{World, declared_type};
use viper_syntax::{
    Decl, Formal, SArm, SBlock, SCall, SClause, SFold, SMethod, SNew, SRhs, SStmt, SUnfolding, Term,
};

/// What each part of the program counts at least.
fn base_of(world: &World) -> u64
    ensures { result ≡ c.base_of (world_of world.now) }
{
    1 + world.fields.len() as u64 + world.predicates.len() as u64
}

/// The body of a predicate, which an `unfolding` copies.
fn spend_body(budget: u64, world: &World, bodies: &[Option<Assertion>], name: &Ident) -> Option<u64>
    ensures { Leaves result budget (c.opened_size (world_of world.now) (optional_bodies_of bodies.now) (predicate_at (world_of world.now) name.now)) }
{
    let Some((predicate, _)) = world.predicate(name) else {
        return Some(budget);
    };
    match bodies.get(predicate as usize) {
        Some(Some(body)) => spend_assertion(budget, base_of(world), body),
        _ => Some(budget),
    }
}

#[cycle(terms)]
fn spend_term(budget: u64, world: &World, bodies: &[Option<Assertion>], term: &Term) -> Option<u64>
    ensures { Leaves result budget (c.copied (world_of world.now) (optional_bodies_of bodies.now) (v.term_of term.now)) }
{
    match term {
        Term::Name(_, _) | Term::Number(_, _) | Term::Constant(_, _) => Some(budget),
        Term::Unary(_, a, _) | Term::Field(a, _, _) | Term::Old(a, _) => {
            spend_term(budget, world, bodies, a)
        }
        Term::Binary(_, a, b, _) => {
            let left = spend_term(budget, world, bodies, a)?;
            spend_term(left, world, bodies, b)
        }
        Term::Choose(a, b, c, _) => {
            let left = spend_term(budget, world, bodies, a)?;
            let left = spend_term(left, world, bodies, b)?;
            spend_term(left, world, bodies, c)
        }
        Term::Acc(a, amount, _) => {
            let left = spend_term(budget, world, bodies, a)?;
            spend_amount(left, world, bodies, amount)
        }
        Term::Inst(_, args, _) => spend_terms(budget, world, bodies, args),
        Term::Unfolding(unfolding) => {
            let SUnfolding {
                name,
                args,
                amount,
                inner,
                ..
            } = &**unfolding;
            let left = spend_body(budget, world, bodies, &name.name)?;
            let left = spend_terms(left, world, bodies, args)?;
            let left = spend_amount(left, world, bodies, amount)?;
            spend_term(left, world, bodies, inner)
        }
    }
}

#[cycle(terms)]
fn spend_amount(
    budget: u64,
    world: &World,
    bodies: &[Option<Assertion>],
    amount: &Option<Box<Term>>,
) -> Option<u64>
    ensures { Leaves result budget (c.copied_amount (world_of world.now) (optional_bodies_of bodies.now) (v.amount_of amount.now)) }
{
    match amount {
        Some(a) => spend_term(budget, world, bodies, a),
        None => Some(budget),
    }
}

#[cycle(terms)]
fn spend_terms(
    budget: u64,
    world: &World,
    bodies: &[Option<Assertion>],
    terms: &[Term],
) -> Option<u64>
    ensures { Leaves result budget (c.copied_all (world_of world.now) (optional_bodies_of bodies.now) (v.terms_of terms.now)) }
{
    let mut left = budget;
    for term in terms {
        left = spend_term(left, world, bodies, term)?;
    }
    Some(left)
}

/// The arguments of a call.
fn spend_call(budget: u64, world: &World, bodies: &[Option<Assertion>], call: &SCall) -> Option<u64>
    ensures { Leaves result budget (c.copied_all (world_of world.now) (optional_bodies_of bodies.now) (t.terms (v.call_of call.now).args)) }
{
    spend_terms(budget, world, bodies, &call.args)
}

/// The Ref variables in scope with one more variable. With `TOO_HEAVY` of them a `new` is over every budget.
fn with_formal(refs: u64, formal: &Formal) -> u64
    ensures { result ≡ c.with_formal refs formal.now }
{
    if declared_type(formal) == Ty::Ref && refs < TOO_HEAVY {
        refs + 1
    } else {
        refs
    }
}

fn with_formals(refs: u64, formals: &[Formal]) -> u64
    ensures { result ≡ c.with_formals refs formals.now }
{
    let mut refs = refs;
    for formal in formals {
        refs = with_formal(refs, formal);
    }
    refs
}

fn spend_new(budget: u64, world: &World, refs: u64, new: &SNew) -> Option<u64>
    ensures { Leaves result budget (c.copied_by_new (world_of world.now) refs (v.new_of new.now)) }
{
    let left = spend(budget, refs)?;
    if new.every {
        spend(left, world.fields.len() as u64)
    } else {
        Some(left)
    }
}

fn spend_rhs(
    budget: u64,
    world: &World,
    bodies: &[Option<Assertion>],
    refs: u64,
    rhs: &SRhs,
) -> Option<u64>
    ensures { Leaves result budget (c.copied_by_rhs (world_of world.now) (optional_bodies_of bodies.now) refs (v.rhs_of rhs.now)) }
{
    match rhs {
        SRhs::Call(call) => spend_call(budget, world, bodies, call),
        SRhs::New(new) => spend_new(budget, world, refs, new),
        SRhs::Term(term) => spend_term(budget, world, bodies, term),
    }
}

fn spend_fold(budget: u64, world: &World, bodies: &[Option<Assertion>], fold: &SFold) -> Option<u64>
    ensures { Leaves result budget (c.copied_by_fold (world_of world.now) (optional_bodies_of bodies.now) (v.fold_of fold.now)) }
{
    let left = spend_call(budget, world, bodies, &fold.call)?;
    match &fold.amount {
        Some(amount) => spend_term(left, world, bodies, amount),
        None => Some(left),
    }
}

fn spend_each(
    budget: u64,
    world: &World,
    bodies: &[Option<Assertion>],
    terms: &[Term],
) -> Option<u64>
    ensures { Leaves result budget (c.copied_by_terms (world_of world.now) (optional_bodies_of bodies.now) (map v.term_of terms.now)) }
{
    let mut left = budget;
    for term in terms {
        left = spend_term(left, world, bodies, term)?;
    }
    Some(left)
}

/// The Ref variables in scope after a statement.
fn refs_after(refs: u64, stmt: &SStmt) -> u64
    ensures { result ≡ c.refs_after refs (v.stmt_of stmt.now) }
{
    match stmt {
        SStmt::Var(_, formal, _) => with_formal(refs, formal),
        _ => refs,
    }
}

#[cycle(stmts)]
fn spend_stmt(
    budget: u64,
    world: &World,
    bodies: &[Option<Assertion>],
    refs: u64,
    stmt: &SStmt,
) -> Option<u64>
    ensures { Leaves result budget (c.copied_by (world_of world.now) (optional_bodies_of bodies.now) refs (v.stmt_of stmt.now)) }
{
    match stmt {
        SStmt::Var(_, _, None) => Some(budget),
        SStmt::Var(_, _, Some(rhs)) | SStmt::Assign(_, rhs) => {
            spend_rhs(budget, world, bodies, refs, rhs)
        }
        SStmt::CallTo(_, call) | SStmt::Call(call) => spend_call(budget, world, bodies, call),
        SStmt::Check(_, _, term) => spend_term(budget, world, bodies, term),
        SStmt::Fold(fold) | SStmt::Unfold(fold) => spend_fold(budget, world, bodies, fold),
        SStmt::If(arms, other) => {
            let left = spend_arms(budget, world, bodies, refs, arms)?;
            spend_else(left, world, bodies, refs, other)
        }
        SStmt::While(_, guard, invariants, body) => {
            let left = spend_term(budget, world, bodies, guard)?;
            let left = spend_each(left, world, bodies, invariants)?;
            spend_block(left, world, bodies, refs, body)
        }
    }
}

#[cycle(stmts)]
fn spend_block(
    budget: u64,
    world: &World,
    bodies: &[Option<Assertion>],
    refs: u64,
    block: &SBlock,
) -> Option<u64>
    ensures { Leaves result budget (c.copied_by_block (world_of world.now) (optional_bodies_of bodies.now) refs (v.block_of block.now)) }
{
    spend_stmts(budget, world, bodies, refs, &block.stmts)
}

#[cycle(stmts)]
fn spend_stmts(
    budget: u64,
    world: &World,
    bodies: &[Option<Assertion>],
    refs: u64,
    stmts: &[SStmt],
) -> Option<u64>
    ensures { Leaves result budget (c.copied_by_stmts (world_of world.now) (optional_bodies_of bodies.now) refs (v.stmts_of stmts.now)) }
{
    let mut left = budget;
    let mut refs = refs;
    for stmt in stmts {
        left = spend_stmt(left, world, bodies, refs, stmt)?;
        refs = refs_after(refs, stmt);
    }
    Some(left)
}

#[cycle(stmts)]
fn spend_arms(
    budget: u64,
    world: &World,
    bodies: &[Option<Assertion>],
    refs: u64,
    arms: &[SArm],
) -> Option<u64>
    ensures { Leaves result budget (c.copied_by_arms (world_of world.now) (optional_bodies_of bodies.now) refs (v.arms_of arms.now)) }
{
    let mut left = budget;
    for arm in arms {
        left = spend_term(left, world, bodies, &arm.condition)?;
        left = spend_block(left, world, bodies, refs, &arm.block)?;
    }
    Some(left)
}

#[cycle(stmts)]
fn spend_else(
    budget: u64,
    world: &World,
    bodies: &[Option<Assertion>],
    refs: u64,
    other: &Option<SBlock>,
) -> Option<u64>
    ensures { Leaves result budget (c.copied_by_else (world_of world.now) (optional_bodies_of bodies.now) refs (v.else_of other.now)) }
{
    match other {
        Some(block) => spend_block(budget, world, bodies, refs, block),
        None => Some(budget),
    }
}

fn spend_clauses(
    budget: u64,
    world: &World,
    bodies: &[Option<Assertion>],
    clauses: &[SClause],
) -> Option<u64>
    ensures { Leaves result budget (c.copied_by_clauses (world_of world.now) (optional_bodies_of bodies.now) (map v.clause_of clauses.now)) }
{
    let mut left = budget;
    for clause in clauses {
        left = spend_term(left, world, bodies, &clause.term)?;
    }
    Some(left)
}

fn spend_method(
    budget: u64,
    world: &World,
    bodies: &[Option<Assertion>],
    method: &SMethod,
) -> Option<u64>
    ensures { Leaves result budget (c.copied_by_method (world_of world.now) (optional_bodies_of bodies.now) (v.method_of method.now)) }
{
    let left = spend_clauses(budget, world, bodies, &method.clauses)?;
    let refs = with_formals(with_formals(0, &method.params), &method.returns);
    match &method.body {
        Some(body) => spend_block(left, world, bodies, refs, body),
        None => Some(left),
    }
}

fn spend_decl(budget: u64, world: &World, bodies: &[Option<Assertion>], decl: &Decl) -> Option<u64>
    ensures { Leaves result budget (c.copied_by_decl (world_of world.now) (optional_bodies_of bodies.now) (v.decl_of decl.now)) }
{
    match decl {
        Decl::Method(method) => spend_method(budget, world, bodies, method),
        Decl::Field(_) | Decl::Predicate(_, _, _, _) => Some(budget),
    }
}

/// What all declarations copy.
pub fn spend_decls(
    budget: u64,
    world: &World,
    bodies: &[Option<Assertion>],
    decls: &[Decl],
) -> Option<u64>
    ensures { Leaves result budget (c.copied_by_decls (world_of world.now) (optional_bodies_of bodies.now) (map v.decl_of decls.now)) }
{
    let mut left = budget;
    for decl in decls {
        left = spend_decl(left, world, bodies, decl)?;
    }
    Some(left)
}
