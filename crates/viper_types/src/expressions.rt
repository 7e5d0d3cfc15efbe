// The typing of expressions: what a term is, or the first rule that it breaks.
ghost use Rattle.std.specs.Prelude.{◌≡◌, map, pos};
ghost use Rattle.std.specs.Option.{option_map};
ghost use Rattle.viper_core.specs.Expr as e;
ghost use Rattle.viper_core.specs.View.{expr_of, exprs_of, assertion_of};
ghost use Rattle.viper_syntax.specs.View.{term_of, terms_of, amount_of};
ghost use Rattle.viper_scope.specs.Answers.{Answers, typing_of, typings_of, argument_exprs_of, numbered_signature_of, world_of, context_of};
ghost use Rattle.viper_types.specs.Answers.{place_of, lent_amount_of, unfolding_term};
ghost use Rattle.viper_scope.specs.Context as c;
ghost use Rattle.viper_types.specs.Operators as o;
ghost use Rattle.viper_scope.specs.Outcome.{known, Found};
ghost use Rattle.viper_scope.specs.declared.rules.Rule.TheVariants as rule;
ghost use Rattle.viper_types.specs.Typing as j;
ghost use Rattle.vb_value.specs.Fraction.{whole};
ghost use Rattle.viper_syntax.specs.Term as t;

use std::alloc::Global;
use vb_base::{Ident, Pos, boxed, boxed_pair, kept};
use vb_value::{Frac, Ty};
use viper_core::{Assertion, Expr, Op, Opened};
use viper_scope::{
    Context, PredicateSignature, Rule, RuleFault, UnitPart, VariableScope, World, fitted, start,
};
use viper_syntax::{SUnfolding, Sign, Term, Word};

/// A field of a receiver, with its type.
#[derive(Drop)]
pub struct TypedField {
    pub receiver: Expr,
    pub field: u32,
    pub ty: Ty,
}

/// The first place of a text: the place of what no text spells.
pub(crate) fn nowhere() -> Pos
    ensures { result ≡ c.nowhere }
{
    Pos { line: 1, col: 1 }
}

/// The operator of a binary sign.
fn operator(sign: Sign) -> Option<Op>
    ensures { result ≡ o.operator sign }
{
    Some(match sign {
        Sign::Iff => Op::Iff,
        Sign::Implies => Op::Implies,
        Sign::Or => Op::Or,
        Sign::And => Op::And,
        Sign::Equal => Op::Eq,
        Sign::NotEqual => Op::Ne,
        Sign::Less => Op::Lt,
        Sign::AtMost => Op::Le,
        Sign::Greater => Op::Gt,
        Sign::AtLeast => Op::Ge,
        Sign::Plus => Op::Add,
        Sign::Minus => Op::Sub,
        Sign::Star => Op::Mul,
        Sign::Slash => Op::Divide,
        Sign::Backslash => Op::IntDiv,
        Sign::Percent => Op::IntMod,
        _ => return None,
    })
}

/// The permission `none`.
fn none() -> Expr
    ensures { expr_of result ≡ e.Part (whole (pos 0)) }
{
    match Frac::make(0, 1) {
        Some(amount) => Expr::Part(amount),
        None => unreachable!(),
    }
}

/// The permission `write`, for which an amount that is left out stands.
pub(crate) fn write() -> Expr
    ensures { expr_of result ≡ j.write }
{
    match Frac::make(1, 1) {
        Some(amount) => Expr::Part(amount),
        None => unreachable!(),
    }
}

/// The literals that are words. `wildcard` is an amount and no expression.
fn literal(word: Word) -> Option<(Expr, Ty)>
    ensures { option_map typing_of result ≡ o.literal word }
{
    match word {
        Word::True => Some((Expr::Bool(true), Ty::Bool)),
        Word::False => Some((Expr::Bool(false), Ty::Bool)),
        Word::Null => Some((Expr::Null, Ty::Ref)),
        Word::Write => Some((write(), Ty::Perm)),
        Word::None => Some((none(), Ty::Perm)),
        _ => None,
    }
}

fn constant(word: Word, at: Pos) -> Result<(Expr, Ty), RuleFault>
    ensures { Answers typing_of (j.constant word at) result }
{
    if matches!(word, Word::Wildcard) {
        return Err(RuleFault::Broken(at, Rule::MisplacedWildcard));
    }
    match literal(word) {
        Some(typed) => Ok(typed),
        None => Err(RuleFault::Broken(at, Rule::WrongType)),
    }
}

fn variable(scope: &VariableScope, name: &Ident, at: Pos) -> Result<(Expr, Ty), RuleFault>
    ensures { Answers typing_of (known (c.find scope.now name.now) at rule.UnknownName (λ v. Found (e.Var v.number, v.ty))) result }
{
    match scope.find(name) {
        Some(variable) => Ok((Expr::Var(variable.number), variable.ty)),
        None => Err(RuleFault::Broken(at, Rule::UnknownName)),
    }
}

fn unary(alloc: Global, sign: Sign, operand: (Expr, Ty), at: Pos) -> Result<(Expr, Ty), RuleFault>
    ensures { Answers typing_of (j.unary sign (typing_of operand) at) result }
{
    let (operand, ty) = operand;
    let operand = boxed(alloc, operand)?;
    match sign {
        Sign::Minus if matches!(ty, Ty::Int | Ty::Perm) => Ok((Expr::Neg(operand), ty)),
        Sign::Not if matches!(ty, Ty::Bool) => Ok((Expr::Not(operand), Ty::Bool)),
        _ => Err(RuleFault::Broken(at, Rule::WrongType)),
    }
}

fn applied(
    alloc: Global,
    sign: Sign,
    left: (Expr, Ty),
    right: (Expr, Ty),
    at: Pos,
) -> Result<(Expr, Ty), RuleFault>
    ensures { Answers typing_of (j.applied sign (typing_of left) (typing_of right) at) result }
{
    let (left, left_ty) = left;
    let (right, right_ty) = right;
    let (left, right) = boxed_pair(alloc, left, right)?;
    let Some(op) = operator(sign) else {
        return Err(RuleFault::Broken(at, Rule::WrongType));
    };
    let Some(ty) = op.value_type(left_ty, right_ty) else {
        return Err(RuleFault::Broken(at, Rule::WrongType));
    };
    Ok((Expr::Bin(op, left, right, at), ty))
}

fn chosen(
    alloc: Global,
    condition: (Expr, Ty),
    first: (Expr, Ty),
    second: (Expr, Ty),
    at: Pos,
) -> Result<(Expr, Ty), RuleFault>
    ensures { Answers typing_of (j.chosen (typing_of condition) (typing_of first) (typing_of second) at) result }
{
    let (condition, condition_ty) = condition;
    let (first, ty) = first;
    let (second, second_ty) = second;
    let condition = boxed(alloc, condition);
    let (condition, (first, second)) = kept(condition, (first, second))?;
    let (first, second) = boxed_pair(alloc, first, second)?;
    if condition_ty != Ty::Bool || ty != second_ty {
        return Err(RuleFault::Broken(at, Rule::WrongType));
    }
    Ok((Expr::Choose(condition, first, second), ty))
}

/// A field of a typed receiver.
pub(crate) fn located(
    world: &World,
    name: &Ident,
    at: Pos,
    receiver: (Expr, Ty),
) -> Result<TypedField, RuleFault>
    ensures { Answers place_of (j.located (world_of world.now) name.now at (typing_of receiver)) result }
{
    let (receiver, receiver_ty) = receiver;
    let Some((field, ty)) = world.field(name) else {
        return Err(RuleFault::Broken(at, Rule::UnknownName));
    };
    if receiver_ty != Ty::Ref {
        return Err(RuleFault::Broken(at, Rule::WrongType));
    }
    Ok(TypedField {
        receiver,
        field,
        ty,
    })
}

/// A field, read at the place of its name.
pub(crate) fn field(alloc: Global, place: TypedField, at: Pos) -> Result<(Expr, Ty), RuleFault>
    ensures { Answers typing_of (Found (e.Field (expr_of place.receiver) place.field at, place.ty)) result }
{
    let receiver = Box::new(alloc, place.receiver)?;
    Ok((Expr::Field(receiver, place.field, at), place.ty))
}

/// A typed term that must have this type.
fn of_type(ty: Ty, term: &Term, typed: (Expr, Ty)) -> Result<Expr, RuleFault>
    ensures { Answers expr_of (j.of_type ty (term_of term.now) (typing_of typed)) result }
{
    let (e, found) = typed;
    if found != ty {
        return Err(RuleFault::Broken(start(term), Rule::WrongType));
    }
    Ok(e)
}

/// The predicate of a name, which must have a body.
pub(crate) fn with_body<'a>(
    world: &'a World,
    name: &Ident,
    at: Pos,
) -> Result<(u32, &'a PredicateSignature), RuleFault>
    ensures { Answers numbered_signature_of (j.with_body (world_of world.now) name.now at) result }
{
    let Some((predicate, signature)) = world.predicate(name) else {
        return Err(RuleFault::Broken(at, Rule::UnknownName));
    };
    if !signature.has_body {
        return Err(RuleFault::Broken(at, Rule::MissingBody));
    }
    Ok((predicate, signature))
}

/// Whether `wildcard` and `unfolding` may stand here.
pub(crate) fn allows_permission_forms(part: UnitPart) -> bool
    ensures { result ≡ c.allows_permission_forms part }
{
    !matches!(part, UnitPart::Body)
}

/// The predicate of an `unfolding`, tried on arrival.
fn opening<'a>(
    context: &Context<'a>,
    name: &Ident,
    at: Pos,
    name_at: Pos,
) -> Result<(u32, &'a PredicateSignature), RuleFault>
    ensures { Answers numbered_signature_of (j.opening (context_of context.now) name.now at name_at) result }
{
    if !allows_permission_forms(context.part) {
        return Err(RuleFault::Broken(at, Rule::MisplacedUnfolding));
    }
    with_body(context.world, name, name_at)
}

/// A copy of the body of a predicate, and `true` in place of one that breaks a rule.
fn body_at(
    alloc: Global,
    bodies: &[Option<Assertion>],
    predicate: u32,
) -> Result<Assertion, RuleFault>
    ensures { Answers assertion_of (Found (c.body_at (map (option_map assertion_of) bodies.now) predicate)) result }
{
    match bodies.get(predicate as usize) {
        Some(Some(body)) => Ok(body.copy(alloc)?),
        _ => Ok(Assertion::Fact(Expr::Bool(true), nowhere())),
    }
}

/// An `unfolding`, once its parts are typed.
fn opened(
    alloc: Global,
    context: &Context,
    predicate: u32,
    args: Vec<Expr>,
    amount: Expr,
    inner: (Expr, Ty),
    place: Pos,
) -> Result<(Expr, Ty), RuleFault>
    ensures { Answers typing_of (Found (j.opened_typing (context_of context.now) predicate (exprs_of args.items) (expr_of amount) (typing_of inner) place)) result }
{
    let (inner, ty) = inner;
    let body = body_at(alloc, context.bodies, predicate)?;
    let opened = Opened {
        predicate,
        args,
        amount,
        body,
        inner,
        place,
    };
    Ok((Expr::Unfolding(Box::new(alloc, opened)?), ty))
}

/// A term as an expression, with its type.
#[cycle(expressions)]
pub(crate) fn typing(
    alloc: Global,
    context: &Context,
    scope: &VariableScope,
    term: &Term,
) -> Result<(Expr, Ty), RuleFault>
    ensures { Answers typing_of (j.typing (context_of context.now) scope.now (term_of term.now)) result }
{
    match term {
        Term::Name(name, at) => variable(scope, name, *at),
        Term::Number(n, _) => Ok((Expr::Int(n.value()), Ty::Int)),
        Term::Constant(word, at) => constant(*word, *at),
        Term::Unary(sign, a, at) => unary(alloc, *sign, typing(alloc, context, scope, a)?, *at),
        Term::Binary(sign, a, b, at) => {
            let left = typing(alloc, context, scope, a)?;
            let right = typing(alloc, context, scope, b);
            let (right, left) = kept(right, left)?;
            applied(alloc, *sign, left, right, *at)
        }
        Term::Choose(a, b, c, at) => {
            let condition = typing(alloc, context, scope, a)?;
            let first = typing(alloc, context, scope, b);
            let (first, condition) = kept(first, condition)?;
            let second = typing(alloc, context, scope, c);
            let (second, (first, condition)) = kept(second, (first, condition))?;
            chosen(alloc, condition, first, second, *at)
        }
        Term::Field(a, name, at) => field(alloc, place(alloc, context, scope, a, name, *at)?, *at),
        Term::Old(a, at) => old(alloc, context, scope, a, *at),
        Term::Acc(_, _, at) | Term::Inst(_, _, at) => Err(RuleFault::Broken(
            *at,
            Rule::PermissionInExpression,
        )),
        Term::Unfolding(unfolding) => unfolded(alloc, context, scope, unfolding),
    }
}

/// An `unfolding` as an expression, with its type.
#[cycle(expressions)]
fn unfolded(
    alloc: Global,
    context: &Context,
    scope: &VariableScope,
    term: &SUnfolding,
) -> Result<(Expr, Ty), RuleFault>
    ensures { Answers typing_of (j.typing (context_of context.now) scope.now (unfolding_term term.now)) result }
{
    let SUnfolding {
        at,
        name,
        args,
        amount,
        inner,
    } = term;
    let (predicate, signature) = opening(context, &name.name, *at, name.pos)?;
    let args = arguments(alloc, context, scope, args, &signature.params, name.pos)?;
    let amount = held_permission(alloc, context, scope, amount)?;
    let inner = typing(alloc, context, scope, inner)?;
    opened(alloc, context, predicate, args, amount, inner, name.pos)
}

#[cycle(expressions)]
fn old(
    alloc: Global,
    context: &Context,
    scope: &VariableScope,
    term: &Term,
    at: Pos,
) -> Result<(Expr, Ty), RuleFault>
    ensures { Answers typing_of (j.typing (context_of context.now) scope.now (t.Old (term_of term.now) at)) result }
{
    if !matches!(context.part, UnitPart::Elsewhere) {
        return Err(RuleFault::Broken(at, Rule::MisplacedOld));
    }
    let (e, ty) = typing(alloc, context, scope, term)?;
    Ok((Expr::Old(Box::new(alloc, e)?), ty))
}

/// Terms as expressions, with their types.
#[cycle(expressions)]
pub(crate) fn typings(
    alloc: Global,
    context: &Context,
    scope: &VariableScope,
    terms: &[Term],
) -> Result<Vec<(Expr, Ty)>, RuleFault>
    ensures { Answers typings_of (j.typing_all (context_of context.now) scope.now (terms_of terms.now)) result }
{
    let mut typed = Vec::with_capacity(alloc, terms.len())?;
    for term in terms {
        let next = typing(alloc, context, scope, term)?;
        typed.push(next)?;
    }
    Ok(typed)
}

/// Arguments for these parameters, at this place.
#[cycle(expressions)]
pub(crate) fn arguments(
    alloc: Global,
    context: &Context,
    scope: &VariableScope,
    args: &[Term],
    params: &[Ty],
    at: Pos,
) -> Result<Vec<Expr>, RuleFault>
    ensures { Answers argument_exprs_of (j.arguments (context_of context.now) scope.now (terms_of args.now) params.now at) result }
{
    let typed = typings(alloc, context, scope, args)?;
    fitted(alloc, args, typed, params, at)
}

/// An expression of this type.
#[cycle(expressions)]
pub(crate) fn expected(
    alloc: Global,
    context: &Context,
    scope: &VariableScope,
    ty: Ty,
    term: &Term,
) -> Result<Expr, RuleFault>
    ensures { Answers expr_of (j.expected (context_of context.now) scope.now ty (term_of term.now)) result }
{
    let typed = typing(alloc, context, scope, term)?;
    of_type(ty, term, typed)
}

/// The amount of an `unfolding`.
#[cycle(expressions)]
fn held_permission(
    alloc: Global,
    context: &Context,
    scope: &VariableScope,
    amount: &Option<Box<Term>>,
) -> Result<Expr, RuleFault>
    ensures { Answers expr_of (j.permission (context_of context.now) scope.now (amount_of amount.now)) result }
{
    match amount {
        Some(term) => expected(alloc, context, scope, Ty::Perm, term),
        None => Ok(write()),
    }
}

/// A field of a term.
#[cycle(expressions)]
pub(crate) fn place(
    alloc: Global,
    context: &Context,
    scope: &VariableScope,
    term: &Term,
    name: &Ident,
    at: Pos,
) -> Result<TypedField, RuleFault>
    ensures { Answers place_of (j.place (context_of context.now) scope.now (term_of term.now) name.now at) result }
{
    let receiver = typing(alloc, context, scope, term)?;
    located(context.world, name, at, receiver)
}

/// The amount of a `fold` or `unfold`.
pub(crate) fn permission(
    alloc: Global,
    context: &Context,
    scope: &VariableScope,
    amount: Option<&Term>,
) -> Result<Expr, RuleFault>
    ensures { Answers expr_of (j.permission (context_of context.now) scope.now (lent_amount_of amount.entry)) result }
{
    match amount {
        Some(term) => expected(alloc, context, scope, Ty::Perm, term),
        None => Ok(write()),
    }
}
