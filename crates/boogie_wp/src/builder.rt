// The definitions of conditions, as they are built.
ghost use Rattle.std.specs.Prelude.{◌≡◌, ◌+◌, ◌<◌, ◌^◌, ℕ, List, length, slice_set, nat_eq, if◌then◌else◌, IfOk, OnOk};
ghost use Rattle.boogie_formula.specs.Formula as f;
ghost use Rattle.boogie_formula.specs.View.{fexpr_of};
ghost use Rattle.boogie_tree.specs.declared.exprs.BOp.TheVariants as op;
ghost use Rattle.boogie_wp.specs.Build as b;
ghost use Rattle.boogie_wp.specs.Changes.{changed, Chosen};
ghost use Rattle.boogie_wp.specs.View.{begun_of, builder_of};

use crate::names::{BranchedLocal, LocalChange, LocalVersions};
use boogie_formula::{FExpr, Fail};
use boogie_tree::BOp;
use std::alloc::Global;
use std::mem;
use vb_base::{Label, Memory, boxed};

/// The definitions so far, and the names that say how a run stands after the statements so far.
#[derive(Drop)]
pub(crate) struct ConditionsBuilder {
    pub(crate) lets: Vec<FExpr>,
    pub(crate) names: LocalVersions,
    /// The name that says whether the run comes here.
    pub(crate) path: usize,
    /// The assertions so far, each with the name that says that it fails.
    pub(crate) fails: Vec<Fail>,
    /// The variable of the next `havoc` or `if (*)`.
    pub(crate) next: usize,
}

/// What a branch has changed so far, and the name of its path.
#[derive(Drop)]
pub(crate) struct Side {
    pub(crate) changes: Vec<LocalChange>,
    pub(crate) path: usize,
}

pub(crate) fn var(alloc: Global, name: usize) -> Result<Box<FExpr>, Memory>
    ensures { IfOk result (λ x. fexpr_of x.value ≡ f.Var name) }
{
    boxed(alloc, FExpr::Var(name))
}

fn negated(alloc: Global, name: usize) -> Result<Box<FExpr>, Memory>
    ensures { IfOk result (λ x. fexpr_of x.value ≡ f.Not (f.Var name)) }
{
    boxed(alloc, FExpr::Not(var(alloc, name)?))
}

/// That the one is true and the other is not.
fn lost(alloc: Global, before: usize, after: usize) -> Result<FExpr, Memory>
    ensures { IfOk result (λ x. fexpr_of x ≡ f.Bin op.And (f.Var before) (f.Not (f.Var after))) }
{
    let before = var(alloc, before)?;
    Ok(FExpr::Bin(BOp::And, before, negated(alloc, after)?))
}

fn chosen(alloc: Global, condition: usize, first: usize, second: usize) -> Result<FExpr, Memory>
    ensures { IfOk result (λ x. fexpr_of x ≡ f.If (f.Var condition) (f.Var first) (f.Var second)) }
{
    let condition = var(alloc, condition)?;
    let first = var(alloc, first)?;
    Ok(FExpr::If(condition, first, var(alloc, second)?))
}

impl ConditionsBuilder {
    /// The name of the next definition, where there are n variables.
    pub(crate) fn fresh(&self, n: usize) -> usize
        requires { n < 2 ^ 63 }
        ensures { result ≡ b.fresh n (builder_of self.now) }
    {
        n + self.lets.len()
    }

    /// One more definition.
    pub(crate) fn define(&mut self, e: FExpr) -> Result<(), Memory>
        ensures goes { OnOk result (builder_of self.new ≡ b.define (fexpr_of e) (builder_of self.old)) }
        ensures begun { OnOk result (begun_of self.new ≡ begun_of self.old) }
    {
        Ok(self.lets.push(e)?)
    }

    /// Another name holds the value of the local.
    fn rename(&mut self, local: usize, name: usize) -> Result<(), Memory>
        ensures goes { OnOk result (builder_of self.new ≡ record (builder_of self.old) { versions = slice_set (builder_of self.old).versions local name }) }
        ensures begun { OnOk result (begun_of self.new ≡ begun_of self.old) }
    {
        self.names.rename(local, name)
    }

    /// The local gets the value.
    pub(crate) fn store(&mut self, n: usize, local: usize, e: FExpr) -> Result<(), Memory>
        requires { n < 2 ^ 63 }
        ensures goes { OnOk result (builder_of self.new ≡ b.store n local (fexpr_of e) (builder_of self.old)) }
        ensures begun { OnOk result (begun_of self.new ≡ begun_of self.old) }
    {
        let name = self.fresh(n);
        self.define(e)?;
        self.rename(local, name)
    }

    /// The local gets the value of the next variable.
    pub(crate) fn choose(&mut self, local: usize) -> Result<(), Memory>
        requires { (builder_of self.old).next < 2 ^ 63 }
        ensures goes { OnOk result (builder_of self.new ≡ b.choose local (builder_of self.old)) }
        ensures begun { OnOk result (begun_of self.new ≡ begun_of self.old) }
    {
        self.rename(local, self.next)?;
        self.next += 1;
        Ok(())
    }

    /// The next variable is that of an `if (*)`, whose name is given back.
    pub(crate) fn pass(&mut self) -> usize
        requires { (builder_of self.old).next < 2 ^ 63 }
        ensures name { result ≡ (builder_of self.old).next }
        ensures goes { builder_of self.new ≡ record (builder_of self.old) { next = (builder_of self.old).next + 1 } }
        ensures begun { begun_of self.new ≡ begun_of self.old }
    {
        let name = self.next;
        self.next += 1;
        name
    }

    /// The run comes further only where this is true.
    pub(crate) fn go_where(&mut self, alloc: Global, n: usize, e: Box<FExpr>) -> Result<(), Memory>
        requires { n < 2 ^ 63 }
        ensures goes { OnOk result (builder_of self.new ≡ b.go_where n (fexpr_of e.value) (builder_of self.old)) }
        ensures begun { OnOk result (begun_of self.new ≡ begun_of self.old) }
    {
        let name = self.fresh(n);
        let came = var(alloc, self.path)?;
        self.define(FExpr::Bin(BOp::And, came, e))?;
        self.path = name;
        Ok(())
    }

    /// The run comes further only where what has this name is true.
    pub(crate) fn go_where_true(
        &mut self,
        alloc: Global,
        n: usize,
        condition: usize,
    ) -> Result<(), Memory>
        requires { n < 2 ^ 63 }
        ensures goes { OnOk result (builder_of self.new ≡ b.go_where n (f.Var condition) (builder_of self.old)) }
        ensures begun { OnOk result (begun_of self.new ≡ begun_of self.old) }
    {
        let came = var(alloc, condition)?;
        self.go_where(alloc, n, came)
    }

    /// The assertion with this label fails where the run comes here and what has this name is false.
    pub(crate) fn failing(
        &mut self,
        alloc: Global,
        n: usize,
        label: &Label,
        condition: usize,
    ) -> Result<(), Memory>
        requires { n < 2 ^ 63 }
        ensures goes { OnOk result (builder_of self.new ≡ b.failing n label.now condition (builder_of self.old)) }
        ensures begun { OnOk result (begun_of self.new ≡ begun_of self.old) }
    {
        let name = self.fresh(n);
        let lost = lost(alloc, self.path, condition)?;
        self.define(lost)?;
        let fail = Fail {
            label: *label,
            name,
        };
        Ok(self.fails.push(fail)?)
    }

    /// One definition chooses between the names with which the branches end, unless they are the same.
    fn merge_one(
        &mut self,
        alloc: Global,
        n: usize,
        condition: usize,
        choice: BranchedLocal,
    ) -> Result<(), Memory>
        requires { n < 2 ^ 63 }
        ensures goes { OnOk result (builder_of self.new ≡ (if nat_eq choice.first choice.second
            then record (builder_of self.old) { versions = slice_set (builder_of self.old).versions choice.local choice.second }
            else b.store n choice.local (f.If (f.Var condition) (f.Var choice.first) (f.Var choice.second)) (builder_of self.old))) }
        ensures begun { OnOk result (begun_of self.new ≡ begun_of self.old) }
    {
        if choice.first == choice.second {
            return self.rename(choice.local, choice.second);
        }
        let e = chosen(alloc, condition, choice.first, choice.second)?;
        self.store(n, choice.local, e)
    }

    /// The names after two branches, of which these are the choices: where they differ, that of the first one where the condition is true.
    fn merge(
        &mut self,
        alloc: Global,
        n: usize,
        condition: usize,
        choices: &[BranchedLocal],
    ) -> Result<(), Memory>
        requires { n < 2 ^ 63 }
        ensures goes { (vs ws : List ℕ) → length vs ≡ length (builder_of self.old).versions → length ws ≡ length (builder_of self.old).versions
            → Chosen (builder_of self.old).versions vs ws 0 choices.now
            → OnOk result (builder_of self.new ≡ b.with_merged (builder_of self.old).path (builder_of self.old)
            (b.merge n condition vs ws (builder_of self.old).lets)) }
        ensures begun { OnOk result (begun_of self.new ≡ begun_of self.old) }
    {
        for choice in choices {
            self.merge_one(alloc, n, condition, *choice)?;
        }
        Ok(())
    }

    /// The first branch begins. What is given back are the changes and the path so far.
    pub(crate) fn enter(
        &mut self,
        alloc: Global,
        n: usize,
        condition: usize,
    ) -> Result<Side, Memory>
        requires { n < 2 ^ 63 }
        ensures side { IfOk result (λ side. (changed side.changes.items (builder_of self.old).versions ≡ begun_of self.old) × (side.path ≡ (builder_of self.old).path)) }
        ensures goes { OnOk result (builder_of self.new ≡ b.go_where n (f.Var condition) (builder_of self.old)) }
        ensures begun { OnOk result (begun_of self.new ≡ (builder_of self.old).versions) }
    {
        let changes = mem::replace(&mut self.names.changes, Vec::new(alloc));
        let path = self.path;
        self.go_where_true(alloc, n, condition)?;
        Ok(Side { changes, path })
    }

    /// The second branch begins, with the names with which the first one did, and with this path. What is given back are the names and
    /// the path with which the first one ended.
    pub(crate) fn back(
        &mut self,
        alloc: Global,
        n: usize,
        condition: usize,
        path: usize,
    ) -> Result<Side, Memory>
        requires { n < 2 ^ 63 }
        ensures side { IfOk result (λ side. (changed side.changes.items (begun_of self.old) ≡ (builder_of self.old).versions) × (side.path ≡ (builder_of self.old).path)) }
        ensures goes { OnOk result (builder_of self.new ≡ b.go_where n (f.Not (f.Var condition))
            (record (builder_of self.old) { versions = begun_of self.old; path = path })) }
        ensures begun { OnOk result (begun_of self.new ≡ begun_of self.old) }
    {
        let changes = self.names.undo(alloc)?;
        let path = mem::replace(&mut self.path, path);
        let came = negated(alloc, condition)?;
        self.go_where(alloc, n, came)?;
        Ok(Side { changes, path })
    }

    /// A definition of the path behind both branches. What is given back is its name.
    fn meet(&mut self, alloc: Global, n: usize, first: usize) -> Result<usize, Memory>
        requires { n < 2 ^ 63 }
        ensures name { IfOk result (λ name. name ≡ b.fresh n (builder_of self.old)) }
        ensures goes { OnOk result (builder_of self.new ≡ b.define (f.Bin op.Or (f.Var first) (f.Var (builder_of self.old).path)) (builder_of self.old)) }
        ensures begun { OnOk result (begun_of self.new ≡ begun_of self.old) }
    {
        let name = self.fresh(n);
        let came = var(alloc, first)?;
        let other = var(alloc, self.path)?;
        self.define(FExpr::Bin(BOp::Or, came, other))?;
        Ok(name)
    }

    /// Both branches have ended, the first one with these names and this path. Before them there were the changes `before`.
    pub(crate) fn join(
        &mut self,
        alloc: Global,
        n: usize,
        condition: usize,
        before: Vec<LocalChange>,
        first: Side,
    ) -> Result<(), Memory>
        requires { n < 2 ^ 63 }
        ensures goes { OnOk result (builder_of self.new ≡ b.join n condition (changed first.changes.items (begun_of self.old)) first.path (builder_of self.old)) }
        ensures begun { OnOk result (begun_of self.new ≡ changed before.items (begun_of self.old)) }
    {
        let name = self.meet(alloc, n, first.path)?;
        let choices = self.names.choices(alloc, first.changes)?;
        self.names.changes = before;
        self.merge(alloc, n, condition, &choices)?;
        self.path = name;
        Ok(())
    }
}
