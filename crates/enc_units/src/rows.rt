// The row of steps of a unit, over the parts of the program.
ghost use Rattle.std.specs.Prelude.{◌≡◌, ◌++◌, [], ◌∷◌, map, Some, IfOk, OnOk};
ghost use Rattle.viper_core.specs.View.{stmt_of, stmts_of, method_of, predicate_of, program_of};
ghost use Rattle.enc_units.specs.Steps.{Code, Branch, stmt_row, block_row, method_row, predicate_row, running_row, unit_row};
ghost use Rattle.enc_units.specs.View.{branch_step_of, code_step_of, step_of};

use crate::steps::{BranchStep, CodeStep, RowStep};
use enc_expr::add;
use enc_locals::{method_at, predicate_at};
use std::alloc::Global;
use vb_base::Memory;
use viper_core::{Method, Predicate, Program, Stmt, Unit};

fn add_code<'a>(part: CodeStep<'a>, row: &mut Vec<RowStep<'a>>) -> Result<(), Memory>
    ensures { OnOk result (map step_of row.new.items ≡ map step_of row.old.items ++ Code (code_step_of part.entry) ∷ []) }
{
    add(row, RowStep::Code(part))
}

fn add_branch<'a>(part: BranchStep<'a>, row: &mut Vec<RowStep<'a>>) -> Result<(), Memory>
    ensures { OnOk result (map step_of row.new.items ≡ map step_of row.old.items ++ Branch (branch_step_of part.entry) ∷ []) }
{
    add(row, RowStep::Branch(part))
}

#[cycle(rows)]
fn add_block<'a>(block: &'a [Stmt], row: &mut Vec<RowStep<'a>>) -> Result<(), Memory>
    ensures { OnOk result (map step_of row.new.items ≡ map step_of row.old.items ++ block_row (stmts_of block.now)) }
{
    for stmt in block {
        add_stmt(stmt, row)?;
    }
    Ok(())
}

#[cycle(rows)]
fn add_stmt<'a>(stmt: &'a Stmt, row: &mut Vec<RowStep<'a>>) -> Result<(), Memory>
    ensures { OnOk result (map step_of row.new.items ≡ map step_of row.old.items ++ stmt_row (stmt_of stmt.now)) }
{
    match stmt {
        Stmt::If(at, condition, first, second) => {
            add_branch(BranchStep::Begin(*at, condition), row)?;
            add_block(first, row)?;
            add_branch(BranchStep::Otherwise, row)?;
            add_block(second, row)?;
            add_branch(BranchStep::End, row)
        }
        Stmt::While(w) => {
            add_code(CodeStep::Head(w), row)?;
            add_branch(BranchStep::Pick, row)?;
            add_code(CodeStep::Turn(w), row)?;
            add_block(&w.body, row)?;
            add_code(CodeStep::Finish(w), row)?;
            add_branch(BranchStep::Otherwise, row)?;
            add_code(CodeStep::After(w), row)?;
            add_branch(BranchStep::End, row)
        }
        _ => add_code(CodeStep::Plain(stmt), row),
    }
}

fn add_method<'a>(method: &'a Method, row: &mut Vec<RowStep<'a>>) -> Result<(), Memory>
    ensures { OnOk result (map step_of row.new.items ≡ map step_of row.old.items ++ method_row (Some (method_of method.now))) }
{
    add_code(CodeStep::Enter(method), row)?;
    match &method.body {
        None => add_code(CodeStep::Check(method), row),
        Some(body) => {
            add_branch(BranchStep::Pick, row)?;
            add_block(&body.stmts, row)?;
            add_code(CodeStep::Leave(method, body.turn), row)?;
            add_branch(BranchStep::Otherwise, row)?;
            add_code(CodeStep::Check(method), row)?;
            add_branch(BranchStep::End, row)
        }
    }
}

fn add_predicate<'a>(predicate: &'a Predicate, row: &mut Vec<RowStep<'a>>) -> Result<(), Memory>
    ensures { OnOk result (map step_of row.new.items ≡ map step_of row.old.items ++ predicate_row (Some (predicate_of predicate.now))) }
{
    match &predicate.body {
        None => Ok(()),
        Some(body) => add_code(CodeStep::Produce(predicate.at, body), row),
    }
}

fn add_unit<'a>(program: &'a Program, unit: Unit, row: &mut Vec<RowStep<'a>>) -> Result<(), Memory>
    ensures { OnOk result (map step_of row.new.items ≡ map step_of row.old.items ++ running_row (program_of program.now) unit) }
{
    match unit {
        Unit::Method(n) => match method_at(program, n) {
            Some(method) => add_method(method, row),
            None => Ok(()),
        },
        Unit::Predicate(n) => match predicate_at(program, n) {
            Some(predicate) => add_predicate(predicate, row),
            None => Ok(()),
        },
    }
}

/// The steps in which the code of a unit is written.
pub fn unit_steps<'a>(
    alloc: Global,
    program: &'a Program,
    unit: Unit,
) -> Result<Vec<RowStep<'a>>, Memory>
    ensures { IfOk result (λ row. map step_of row.items ≡ unit_row (program_of program.now) unit) }
{
    let mut row = Vec::new(alloc);
    add_code(CodeStep::Start, &mut row)?;
    add_unit(program, unit, &mut row)?;
    Ok(row)
}
