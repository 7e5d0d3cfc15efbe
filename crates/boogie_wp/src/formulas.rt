// The conditions of a procedure, and its formula for a label.
ghost use Rattle.std.specs.Prelude.{◌≡◌, ◌<◌, ◌^◌, List, length, slice_get, IfOk, Some};
ghost use Rattle.boogie_tree.specs.Fits.{FitStmts};
ghost use Rattle.boogie_tree.specs.Program as p;
ghost use Rattle.boogie_tree.specs.Whole.{proc_of, program_of};
ghost use Rattle.boogie_meaning.specs.Programs.{IsTypedProc, IsTypedProgram};
ghost use Rattle.boogie_formula.specs.Follows.{AreExact, ConditionsFollow, Follows, IsExact};
ghost use Rattle.boogie_formula.specs.Printable.{IsPrintableConditions, IsPrintableFormula};
ghost use Rattle.boogie_formula.specs.Types.{IsTypedConditions, IsTypedFormula};
ghost use Rattle.boogie_formula.specs.View.{conditions_of, formula_of};
ghost use Rattle.boogie_wp.specs.Build.{conditions_for, finished, formula_for, numbers, started};
ghost use Rattle.boogie_wp.specs.View.{builder_of, types_in, types_of_all};

use crate::build::build;
use crate::builder::ConditionsBuilder;
use crate::chain::ask;
use crate::names::LocalVersions;
use crate::variables::variables;
use boogie_formula::{Conditions, FExpr, Formula};
use boogie_tree::{BProgram, BType, Local, Proc};
use std::alloc::Global;
use vb_base::{Label, Memory};

/// The numbers of the locals.
fn numbers_of(alloc: Global, locals: &[Local]) -> Result<Vec<usize>, Memory>
    ensures { IfOk result (λ names. names.items ≡ numbers 0 locals.now) }
{
    let mut names = Vec::with_capacity(alloc, locals.len())?;
    for local in 0..locals.len() {
        names.push(local)?;
    }
    Ok(names)
}

/// The run comes to the first statement. There are n variables.
fn start(alloc: Global, n: usize, locals: &[Local]) -> Result<ConditionsBuilder, Memory>
    requires { n < 2 ^ 63 }
    ensures { (vars : List p.BType) → length vars ≡ n → IfOk result (λ x. builder_of x ≡ started vars (types_in locals.now)) }
{
    let versions = numbers_of(alloc, locals)?;
    let mut start = ConditionsBuilder {
        lets: Vec::new(alloc),
        names: LocalVersions {
            versions,
            changes: Vec::new(alloc),
        },
        path: n,
        fails: Vec::new(alloc),
        next: locals.len(),
    };
    start.define(FExpr::Bool(true))?;
    Ok(start)
}

fn finish(vars: Vec<BType>, end: ConditionsBuilder) -> Conditions
    ensures { conditions_of result ≡ finished (types_of_all vars.items) (builder_of end) }
{
    Conditions {
        vars,
        lets: end.lets,
        fails: end.fails,
    }
}

/// The conditions of a well-typed procedure. At values of the variables an assertion with a label fails exactly where the procedure
/// fails there, from the values of its locals and on the choices that the run meets. Where the procedure can be printed, so can the
/// conditions. `Memory` where there is no memory.
pub fn conditions_of_procedure(alloc: Global, proc: &Proc) -> Result<Conditions, Memory>
    requires { IsTypedProc (proc_of proc.now) }
    ensures built { IfOk result (λ x. conditions_of x ≡ conditions_for (proc_of proc.now)) }
    ensures follows { IfOk result (λ x. ConditionsFollow (proc_of proc.now) (conditions_of x)) }
    ensures exact { IfOk result (λ x. AreExact (proc_of proc.now) (conditions_of x)) }
    ensures typed { IfOk result (λ x. IsTypedConditions (conditions_of x)) }
    ensures printable { FitStmts (length (proc_of proc.now).locals) (proc_of proc.now).body → IfOk result (λ x. IsPrintableConditions (conditions_of x)) }
{
    let vars = variables(alloc, proc)?;
    let n = vars.len();
    let mut builder = start(alloc, n, &proc.locals)?;
    build(alloc, n, &proc.body, &mut builder)?;
    Ok(finish(vars, builder))
}

/// The conditions of the procedure of this number, from 0 on, of a well-typed program, as `conditions_of_procedure`. `Memory` where
/// there is no memory.
pub fn conditions(alloc: Global, program: &BProgram, proc: usize) -> Result<Conditions, Memory>
    requires typed { IsTypedProgram (program_of program.now) }
    requires exists { proc < length (program_of program.now).procs }
    ensures built { (d : p.Proc) → slice_get (program_of program.now).procs proc ≡ Some d
        → IfOk result (λ x. conditions_of x ≡ conditions_for d) }
    ensures follows { (d : p.Proc) → slice_get (program_of program.now).procs proc ≡ Some d
        → IfOk result (λ x. ConditionsFollow d (conditions_of x)) }
    ensures exact { (d : p.Proc) → slice_get (program_of program.now).procs proc ≡ Some d
        → IfOk result (λ x. AreExact d (conditions_of x)) }
    ensures typed { IfOk result (λ x. IsTypedConditions (conditions_of x)) }
    ensures printable { (d : p.Proc) → slice_get (program_of program.now).procs proc ≡ Some d → FitStmts (length d.locals) d.body
        → IfOk result (λ x. IsPrintableConditions (conditions_of x)) }
{
    conditions_of_procedure(alloc, &program.procs[proc])
}

fn formula_of_procedure(alloc: Global, proc: &Proc, label: &Label) -> Result<Formula, Memory>
    requires { IsTypedProc (proc_of proc.now) }
    ensures { IfOk result (λ f. formula_of f ≡ formula_for (proc_of proc.now) label.now) }
{
    ask(alloc, conditions_of_procedure(alloc, proc)?, label)
}

/// The formula of the procedure of this number, from 0 on, of a well-typed program, and of a label. Its goal is false exactly at the
/// values of its variables at which the procedure fails there, so it is valid exactly where no run of the procedure does. Where the
/// procedure can be printed, so can the formula. `Memory` where there is no memory.
pub fn formula(
    alloc: Global,
    program: &BProgram,
    proc: usize,
    label: &Label,
) -> Result<Formula, Memory>
    requires typed { IsTypedProgram (program_of program.now) }
    requires exists { proc < length (program_of program.now).procs }
    ensures built { (d : p.Proc) → slice_get (program_of program.now).procs proc ≡ Some d
        → IfOk result (λ f. formula_of f ≡ formula_for d label.now) }
    ensures follows { (d : p.Proc) → slice_get (program_of program.now).procs proc ≡ Some d
        → IfOk result (λ f. Follows d label.now (formula_of f)) }
    ensures exact { (d : p.Proc) → slice_get (program_of program.now).procs proc ≡ Some d
        → IfOk result (λ f. IsExact d label.now (formula_of f)) }
    ensures typed { IfOk result (λ f. IsTypedFormula (formula_of f)) }
    ensures printable { (d : p.Proc) → slice_get (program_of program.now).procs proc ≡ Some d → FitStmts (length d.locals) d.body
        → IfOk result (λ f. IsPrintableFormula (formula_of f)) }
{
    formula_of_procedure(alloc, &program.procs[proc], label)
}
