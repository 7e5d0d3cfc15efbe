// The code of a step.
ghost use Rattle.std.specs.Prelude.{length, slice_get, IfOk, OnOk};
ghost use Rattle.std.specs.Option.{option_map};
ghost use Rattle.viper_core.specs.View.{expr_of, exprs_of, program_of, stmt_of};
ghost use Rattle.viper_core.specs.Stmt as v;
ghost use Rattle.enc_expr.specs.Emits.{emit_of, Emits};
ghost use Rattle.enc_expr.specs.View.{kinds_of};
ghost use Rattle.enc_block.specs.Encoding as code;
ghost use Rattle.enc_units.specs.Steps as steps;
ghost use Rattle.enc_units.specs.View.{bracket_of, branch_step_of, code_step_of, step_of};
ghost use Rattle.enc_block.specs.View.{home_of};
ghost use Rattle.enc_units.specs.Written.{HasNoBlocks, IsStep};

use crate::steps::{Bracket, BranchStep, CodeStep, RowStep};
use crate::units::start;
use crate::writers::Writer;
use enc_assert::produce;
use enc_block::{
    Calling, Setting, WrittenField, after_loop, assert, assign, call, create, exhale,
    fold_instance, havoc, loop_head, method_check, method_end, method_start, turn_end, turn_head,
    unfold_instance, write,
};
use enc_expr::{Atom, Emit, check};
use std::alloc::Global;
use vb_base::{Memory, Pos};
use viper_core::{Expr, Program, Stmt, Unit};

/// A variable is declared, with a value or without one.
fn declare(
    alloc: Global,
    step: Pos,
    variable: u32,
    value: &Option<Expr>,
    writer: Writer,
    out: &mut Emit,
) -> Result<(), Memory>
    ensures { OnOk result (Emits (code.stmt_code (program_of writer.entry.program.now) (kinds_of writer.entry.setting.kinds) (home_of writer.entry.setting.home.now)
        (v.Var step variable (option_map expr_of value.now)) (length (emit_of out.old).locals)) (emit_of out.old) (emit_of out.new) tt) }
{
    match value {
        Some(value) => assign(alloc, step, variable, value, writer.setting, out),
        None => havoc(alloc, writer.setting.home, &[variable], out),
    }
}

/// A method of a program is called by its number.
fn call_method(
    alloc: Global,
    step: Pos,
    targets: &[u32],
    method: u32,
    args: &[Expr],
    writer: Writer,
    out: &mut Emit,
) -> Result<(), Memory>
    ensures { OnOk result (Emits (code.stmt_code (program_of writer.entry.program.now) (kinds_of writer.entry.setting.kinds) (home_of writer.entry.setting.home.now)
        (v.Call step targets.now method (exprs_of args.now)) (length (emit_of out.old).locals)) (emit_of out.old) (emit_of out.new) tt) }
{
    match writer.program.methods.get(method as usize) {
        Some(callee) => {
            let calling = Calling { targets, callee };
            call(alloc, step, calling, args, writer.setting, out)
        }
        None => Ok(()),
    }
}

/// Writes the code of a statement without blocks.
fn plain(alloc: Global, writer: Writer, statement: &Stmt, out: &mut Emit) -> Result<(), Memory>
    requires { HasNoBlocks (stmt_of statement.now) }
    ensures { OnOk result (Emits (code.stmt_code (program_of writer.entry.program.now) (kinds_of writer.entry.setting.kinds) (home_of writer.entry.setting.home.now)
        (stmt_of statement.now) (length (emit_of out.old).locals)) (emit_of out.old) (emit_of out.new) tt) }
{
    let setting = writer.setting;
    match statement {
        Stmt::Var(at, x, value) => declare(alloc, *at, *x, value, writer, out),
        Stmt::Assign(at, x, value) => assign(alloc, *at, *x, value, setting, out),
        Stmt::Write(at, receiver, field, part, value) => {
            let target = WrittenField {
                receiver,
                field: *field,
                at: *part,
            };
            write(alloc, *at, target, value, setting, out)
        }
        Stmt::New(_, x, fields, refs) => create(alloc, *x, fields, refs, setting, out),
        Stmt::Call(at, targets, method, args) => {
            call_method(alloc, *at, targets, *method, args, writer, out)
        }
        Stmt::Inhale(at, a) => {
            let reading = setting.reading(*at);
            produce(alloc, a, Atom::Real(1), reading, out)
        }
        Stmt::Exhale(at, a) => exhale(alloc, a, *at, setting, out),
        Stmt::Assert(at, a) => assert(alloc, a, *at, setting, out),
        Stmt::Fold(f) => fold_instance(alloc, writer.program, f, setting, out),
        Stmt::Unfold(f) => unfold_instance(alloc, writer.program, f, setting, out),
        Stmt::If(..) => unreachable!(),
        Stmt::While(_) => unreachable!(),
    }
}

/// Writes whole statements.
fn write_code(alloc: Global, writer: Writer, part: CodeStep, out: &mut Emit) -> Result<(), Memory>
    requires { IsStep (steps.Code (code_step_of part)) }
    ensures { OnOk result (Emits (steps.part_code (program_of writer.entry.program.now) writer.entry.unit (kinds_of writer.entry.setting.kinds) (home_of writer.entry.setting.home.now)
        (code_step_of part.entry) (length (emit_of out.old).locals)) (emit_of out.old) (emit_of out.new) tt) }
{
    let setting = writer.setting;
    match part {
        CodeStep::Start => start(alloc, writer.program, writer.unit, out),
        CodeStep::Plain(statement) => plain(alloc, writer, statement, out),
        CodeStep::Head(w) => loop_head(alloc, w, setting, out),
        CodeStep::Turn(w) => turn_head(alloc, w, setting, out),
        CodeStep::Finish(w) => turn_end(alloc, w, setting, out),
        CodeStep::After(w) => after_loop(alloc, w, setting, out),
        CodeStep::Enter(method) => method_start(alloc, method, setting, out),
        CodeStep::Leave(method, turn) => method_end(alloc, method, turn, setting, out),
        CodeStep::Check(method) => method_check(alloc, method, setting, out),
        CodeStep::Produce(at, body) => {
            let reading = setting.reading(at);
            produce(alloc, body, Atom::Real(1), reading, out)
        }
    }
}

/// Tells where a block begins or ends. The condition of an `if` is written before.
fn write_branch(
    alloc: Global,
    setting: Setting,
    part: BranchStep,
    out: &mut Emit,
) -> Result<Bracket, Memory>
    ensures { IfOk result (λ b. Emits (steps.branch_code (kinds_of setting.entry.kinds) (home_of setting.entry.home.now)
        (branch_step_of part.entry) (length (emit_of out.old).locals)) (emit_of out.old) (emit_of out.new) (bracket_of b)) }
{
    match part {
        BranchStep::Begin(at, condition) => {
            let condition = check(alloc, condition, setting.reading(at), out)?;
            Ok(Bracket::If(condition.expr))
        }
        BranchStep::Pick => Ok(Bracket::Either),
        BranchStep::Otherwise => Ok(Bracket::Else),
        BranchStep::End => Ok(Bracket::End),
    }
}

/// Writes the code of a step, and tells what stands behind it.
pub fn step_code(
    alloc: Global,
    program: &Program,
    unit: Unit,
    setting: Setting,
    step: &RowStep<'_>,
    out: &mut Emit,
) -> Result<Bracket, Memory>
    requires { IsStep (step_of step.now) }
    ensures { IfOk result (λ b. Emits (steps.step_code (program_of program.now) unit (kinds_of setting.entry.kinds) (home_of setting.entry.home.now)
        (step_of step.now) (length (emit_of out.old).locals)) (emit_of out.old) (emit_of out.new) (bracket_of b)) }
{
    match *step {
        RowStep::Code(part) => {
            let writer = Writer {
                program,
                unit,
                setting,
            };
            write_code(alloc, writer, part, out)?;
            Ok(Bracket::Nothing)
        }
        RowStep::Branch(part) => write_branch(alloc, setting, part, out),
    }
}
