// The sizes of expressions and assertions, taken from a room. A room is one more than a budget, so it is 0 exactly where
// the size is more. A part is not entered where no room is left: so a walk ends soon after its budget does, however often
// the program uses a large predicate.
ghost use Rattle.std.specs.Prelude.{◌≡◌, ◌-◌};
ghost use Rattle.viper_core.specs.Budget.{Leaves};
ghost use Rattle.viper_core.specs.Size.{size, sizes, amount_size, assertion_size, assertion_sizes};
ghost use Rattle.viper_core.specs.View.{expr_of, exprs_of, opened_of, amt_of, assertion_of, assertions_of};
ghost use Rattle.viper_core.specs.Expr as t;

use crate::{Amt, Assertion, Expr, Opened};

/// The budget less a cost, or None where the cost is more.
pub fn spend(budget: u64, cost: u64) -> Option<u64>
    ensures { Leaves result budget cost }
{
    budget.checked_sub(cost)
}

/// The budget less the size of an assertion, where each part of the program counts at least `base`.
pub fn spend_assertion(budget: u64, base: u64, a: &Assertion) -> Option<u64>
    ensures { Leaves result budget (assertion_size base (assertion_of a.now)) }
{
    let room = after_assertion(budget as u128 + 1, base as u128, a);
    if room == 0 {
        None
    } else {
        Some((room - 1) as u64)
    }
}

#[cycle(sizes)]
pub(crate) fn after_expr(room: u128, base: u128, e: &Expr) -> u128
    ensures { result ≡ room - size base (expr_of e.now) }
{
    if room == 0 {
        return 0;
    }
    match e {
        Expr::Var(_) | Expr::Int(_) | Expr::Bool(_) | Expr::Null | Expr::Part(_) => room - 1,
        Expr::Neg(a) | Expr::Not(a) | Expr::Field(a, _, _) | Expr::Old(a) => {
            after_expr(room - 1, base, a)
        }
        Expr::Bin(_, a, b, _) => {
            let room = after_expr(room - 1, base, a);
            after_expr(room, base, b)
        }
        Expr::Choose(a, b, c) => {
            let room = after_expr(room - 1, base, a);
            let room = after_expr(room, base, b);
            after_expr(room, base, c)
        }
        Expr::Unfolding(opened) => after_opened(room, base, opened),
    }
}

#[cycle(sizes)]
fn after_opened(room: u128, base: u128, opened: &Opened) -> u128
    ensures { result ≡ room - size base (t.Unfolding (opened_of opened.now)) }
{
    let room = after_exprs(room.saturating_sub(base), base, &opened.args);
    let room = after_expr(room, base, &opened.amount);
    let room = after_assertion(room, base, &opened.body);
    after_expr(room, base, &opened.inner)
}

#[cycle(sizes)]
pub(crate) fn after_exprs(room: u128, base: u128, es: &[Expr]) -> u128
    ensures { result ≡ room - sizes base (exprs_of es.now) }
{
    let mut left = room;
    for e in es {
        left = after_expr(left, base, e);
    }
    left
}

#[cycle(sizes)]
fn after_amount(room: u128, base: u128, amount: &Amt) -> u128
    ensures { result ≡ room - amount_size base (amt_of amount.now) }
{
    match amount {
        Amt::Is(e) => after_expr(room, base, e),
        Amt::Wildcard => room.saturating_sub(1),
    }
}

#[cycle(sizes)]
pub(crate) fn after_assertion(room: u128, base: u128, a: &Assertion) -> u128
    ensures { result ≡ room - assertion_size base (assertion_of a.now) }
{
    if room == 0 {
        return 0;
    }
    match a {
        Assertion::Fact(e, _) => after_expr(room, base, e),
        Assertion::Acc(e, _, amount, _) => {
            let room = after_expr(room - 1, base, e);
            after_amount(room, base, amount)
        }
        Assertion::Inst(_, args, amount, _) => {
            let room = after_exprs(room - 1, base, args);
            after_amount(room, base, amount)
        }
        Assertion::And(a, b) => {
            let room = after_assertion(room - 1, base, a);
            after_assertion(room, base, b)
        }
        Assertion::Implies(e, a) => {
            let room = after_expr(room - 1, base, e);
            after_assertion(room, base, a)
        }
        Assertion::Choose(e, a, b) => {
            let room = after_expr(room - 1, base, e);
            let room = after_assertion(room, base, a);
            after_assertion(room, base, b)
        }
    }
}

pub(crate) fn after_assertions(room: u128, base: u128, assertions: &[Assertion]) -> u128
    ensures { result ≡ room - assertion_sizes base (assertions_of assertions.now) }
{
    let mut left = room;
    for a in assertions {
        left = after_assertion(left, base, a);
    }
    left
}
