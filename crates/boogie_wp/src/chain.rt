// The formula of conditions and a label.
ghost use Rattle.std.specs.Prelude.{◌≡◌, ◌<◌, ◌^◌, map, IfOk, OnOk};
ghost use Rattle.boogie_formula.specs.View.{conditions_of, fexpr_of, formula_of};
ghost use Rattle.boogie_wp.specs.Build as b;
ghost use Rattle.boogie_wp.specs.Labels.{same_label};
ghost use Rattle.boogie_wp.specs.View.{chain_of};

use crate::builder::var;
use boogie_formula::{Conditions, FExpr, Fail, Formula};
use boogie_tree::BOp;
use std::alloc::Global;
use vb_base::{Label, Memory};

/// Definitions, the last of which says whether an assertion so far fails at the label.
#[derive(Drop)]
struct Chain {
    lets: Vec<FExpr>,
    last: usize,
}

/// Whether the two are one label.
fn is_label(a: &Label, b: &Label) -> bool
    ensures { result ≡ same_label a.now b.now }
{
    vb_base::same_label(a, b)
}

impl Chain {
    /// One more definition, where there are n variables: it is true also where this one is.
    fn add(&mut self, alloc: Global, n: usize, fail: usize) -> Result<(), Memory>
        requires { n < 2 ^ 63 }
        ensures { OnOk result (chain_of self.new ≡ b.one_more n fail (chain_of self.old)) }
    {
        let name = n + self.lets.len();
        let before = var(alloc, self.last)?;
        let fails = var(alloc, fail)?;
        self.lets.push(FExpr::Bin(BOp::Or, before, fails))?;
        self.last = name;
        Ok(())
    }

    /// The same where the assertion has the label.
    fn link(&mut self, alloc: Global, n: usize, label: &Label, fail: &Fail) -> Result<(), Memory>
        requires { n < 2 ^ 63 }
        ensures { OnOk result (chain_of self.new ≡ b.linked n label.now fail.now (chain_of self.old)) }
    {
        if is_label(&fail.label, label) {
            self.add(alloc, n, fail.name)
        } else {
            Ok(())
        }
    }

    /// The same of all of these assertions.
    fn link_all(
        &mut self,
        alloc: Global,
        n: usize,
        label: &Label,
        fails: &[Fail],
    ) -> Result<(), Memory>
        requires { n < 2 ^ 63 }
        ensures { OnOk result (chain_of self.new ≡ b.chained n label.now fails.now (chain_of self.old)) }
    {
        for fail in fails {
            self.link(alloc, n, label, fail)?;
        }
        Ok(())
    }
}

/// The chain begins with a definition that is false.
fn begin(n: usize, mut lets: Vec<FExpr>) -> Result<Chain, Memory>
    requires { n < 2 ^ 63 }
    ensures { IfOk result (λ c. chain_of c ≡ b.chain_from n (map fexpr_of lets.items)) }
{
    let last = n + lets.len();
    lets.push(FExpr::Bool(false))?;
    Ok(Chain { lets, last })
}

/// The goal is that no assertion fails at the label.
pub(crate) fn ask(alloc: Global, conditions: Conditions, label: &Label) -> Result<Formula, Memory>
    ensures { IfOk result (λ f. formula_of f ≡ b.asked label.now (conditions_of conditions)) }
{
    let Conditions { vars, lets, fails } = conditions;
    let n = vars.len();
    let mut chain = begin(n, lets)?;
    chain.link_all(alloc, n, label, &fails)?;
    let last = var(alloc, chain.last)?;
    Ok(Formula {
        vars,
        lets: chain.lets,
        goal: FExpr::Not(last),
    })
}
