// The types of programs.
ghost use Rattle.std.specs.Prelude.{◌≡◌, ◌↔◌, map, IsOk, IfErr, IfOk, IfSome, IsNone};
ghost use Rattle.boogie_loops.specs.View.{wproc_of, wprogram_of};
ghost use Rattle.boogie_loops.specs.Procedures.{wide_types};
ghost use Rattle.boogie_loops.specs.WideTypes as ty;
ghost use Rattle.boogie_loops.specs.WideTypes.{IsWideProgram, IsFirstIllTypedWide};

use crate::blocks::is_typed;
use crate::heads::is_head;
use crate::marks::Marks;
use boogie_loops::{Procs, WProc, WProgram};
use boogie_types::have_keys;
use std::alloc::Global;
use vb_base::Memory;

/// Whether the body of a procedure is well-typed, where it has one.
fn is_body(procs: &Procs<'_>, marks: &mut Marks, proc: &WProc) -> bool
    ensures { result ≡ ty.is_wide_body (map wproc_of procs.now.all.now) (wide_types (wproc_of proc.now)) (wproc_of proc.now).params (wproc_of proc.now).body }
{
    match &proc.body {
        Some(stmts) => is_typed(procs, marks, &proc.locals, proc.params, stmts),
        None => true,
    }
}

/// Whether a procedure is well-typed.
fn is_proc(procs: &Procs<'_>, marks: &mut Marks, proc: &WProc) -> bool
    ensures { result ≡ ty.is_wide_proc (map wproc_of procs.now.all.now) (wproc_of proc.now) }
{
    if !have_keys(&proc.locals) {
        return false;
    }
    is_head(proc) && is_body(procs, marks, proc)
}

fn first_of(procs: &Procs<'_>, marks: &mut Marks) -> Option<usize>
    ensures { result ≡ ty.ill_typed_wide (map wproc_of procs.now.all.now) (map wproc_of procs.now.all.now) }
{
    let mut number = 0;
    for proc in procs.all {
        number += 1;
        if !is_proc(procs, marks, proc) {
            return Some(number);
        }
    }
    None
}

/// The number, from 1 on, of the first procedure of the program that is not well-typed. `Memory` where there is no memory for the
/// tables in which names and variables are looked up.
pub fn first_ill_typed_wide(alloc: Global, program: &WProgram) -> Result<Option<usize>, Memory>
    ensures typed { IfOk result (λ o. IsNone o ↔ IsWideProgram (wprogram_of program.now)) }
    ensures first { IfOk result (λ o. IfSome o (IsFirstIllTypedWide (wprogram_of program.now))) }
{
    let procs = Procs::of(alloc, &program.procs)?;
    let mut marks = Marks::of(alloc, &program.procs)?;
    Ok(first_of(&procs, &mut marks))
}

/// Whether each procedure of the program is well-typed, or the number, from 1 on, of the first one that is not.
///
/// It takes no memory: for each call the procedures are searched for its name, and each target is compared with those behind it.
/// `first_ill_typed_wide` answers the same from tables, which is faster where procedures or targets are many.
pub fn check_wide(program: &WProgram) -> Result<(), usize>
    ensures typed { IsOk result ↔ IsWideProgram (wprogram_of program.now) }
    ensures first { IfErr result (IsFirstIllTypedWide (wprogram_of program.now)) }
{
    let procs = Procs::without_table(&program.procs);
    let mut marks = Marks::none(*program.procs.allocator());
    match first_of(&procs, &mut marks) {
        Some(number) => Err(number),
        None => Ok(()),
    }
}
