// Procedures and programs.
ghost use Rattle.std.specs.Prelude.{◌≡◌, ◌++◌, ◌∷◌, [], IfOk, OnOk, map};
ghost use Rattle.boogie_tree.specs.Whole.{proc_of, program_of, stmts_of};
ghost use Rattle.boogie_meaning.specs.Programs.{IsTypedProgram};
ghost use Rattle.boogie_loops.specs.View.{wproc_of, wprogram_of, wstmts_of};
ghost use Rattle.boogie_loops.specs.WideTypes.{IsWideProgram};
ghost use Rattle.boogie_cut.specs.Cut as c;
ghost use Rattle.boogie_cut.specs.Cut.{cut_program};
ghost use Rattle.boogie_cut.specs.Follows.{AreCutOf};
ghost use Rattle.boogie_cut.specs.View.{IsBody, types_of_all};

use crate::copies::Renumbering;
use crate::fresh::with_fresh;
use crate::pieces::{write_asserts, write_assumes};
use crate::statements::{StatementScope, cut_block};
use boogie_loops::{Procs, WProc, WProgram, WStmt};
use boogie_tree::{BProgram, BStmt, BType, Proc};
use std::alloc::Global;
use vb_base::Memory;

/// The body between the preconditions and the postconditions, and the types of its further locals.
fn cut_body(
    alloc: Global,
    procs: &Procs<'_>,
    proc: &WProc,
    body: &[WStmt],
    types: &mut Vec<BType>,
) -> Result<Vec<BStmt>, Memory>
    requires { types.old.items ≡ [] }
    ensures { IfOk result (λ xs. IsBody (map wproc_of procs.now.all.now) (wproc_of proc.now) (wstmts_of body.now) (types_of_all types.new.items) (stmts_of xs.items)) }
{
    let mut out = Vec::new(alloc);
    write_assumes(alloc, Renumbering::Own, &proc.preconditions, &mut out)?;
    let frame = StatementScope {
        procs,
        own: &proc.locals,
    };
    cut_block(alloc, &frame, body, types, &mut out)?;
    write_asserts(alloc, Renumbering::Own, &proc.postconditions, &mut out)?;
    Ok(out)
}

/// What is written for a procedure that has a body.
fn cut_proc(alloc: Global, procs: &Procs<'_>, proc: &WProc, body: &[WStmt]) -> Result<Proc, Memory>
    ensures { IfOk result (λ p. proc_of p ≡ c.cut_proc (map wproc_of procs.now.all.now) (wproc_of proc.now) (wstmts_of body.now)) }
{
    let mut types = Vec::new(alloc);
    let body = cut_body(alloc, procs, proc, body, &mut types)?;
    let locals = with_fresh(alloc, &proc.locals, types)?;
    let name = proc.name.copy()?;
    Ok(Proc { name, locals, body })
}

/// What is written for a procedure, where it has a body.
fn add_proc(
    alloc: Global,
    procs: &Procs<'_>,
    proc: &WProc,
    out: &mut Vec<Proc>,
) -> Result<(), Memory>
    ensures { OnOk result (map proc_of out.new.items ≡ map proc_of out.old.items ++ c.cut_procs (map wproc_of procs.now.all.now) (wproc_of proc.now ∷ [])) }
{
    let Some(body) = &proc.body else {
        return Ok(());
    };
    Ok(out.push(cut_proc(alloc, procs, proc, body)?)?)
}

/// The program without loops and calls. For each procedure that has a body, in their order, one is written under its name: it has the
/// procedure's own variables, and further ones behind them. The only error is running out of memory. What is written for a well-typed
/// program is well-typed, and its runs are the modular runs.
pub fn cut(alloc: Global, program: &WProgram) -> Result<BProgram, Memory>
    ensures written { IfOk result (λ b. program_of b ≡ cut_program (wprogram_of program.now)) }
    ensures follows { IsWideProgram (wprogram_of program.now) → IfOk result (λ b. AreCutOf (wprogram_of program.now) (program_of b)) }
    ensures typed { IsWideProgram (wprogram_of program.now) → IfOk result (λ b. IsTypedProgram (program_of b)) }
{
    let procs = Procs::of(alloc, &program.procs)?;
    let mut out = Vec::new(alloc);
    for proc in &program.procs {
        add_proc(alloc, &procs, proc, &mut out)?;
    }
    Ok(BProgram { procs: out })
}
