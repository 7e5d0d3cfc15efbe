// The targets of loops.
ghost use Rattle.std.specs.Prelude.{◌≡◌, IfOk, OnOk};
ghost use Rattle.viper_core.specs.View.{stmt_of, stmts_of};
ghost use Rattle.viper_scope.specs.Listed.{ascending};
ghost use Rattle.viper_scope.specs.Target.{listed};
ghost use Rattle.viper_scope.specs.Target as t;

use std::alloc::Global;
use vb_base::Memory;
use viper_core::Stmt;

/// The variables below this number that the statements assign, in ascending order. Without `lists` there are none.
pub fn targets(alloc: Global, lists: bool, below: u32, body: &[Stmt]) -> Result<Vec<u32>, Memory>
    ensures { IfOk result (λ v. v.items ≡ listed lists (t.gathered below (stmts_of body.now))) }
{
    let mut found = Vec::new(alloc);
    if lists {
        add_from(&mut found, below, body)?;
    }
    in_order(found)
}

/// The numbers of a list in ascending order, each once. The sort keeps what ascends already, as the targets of
/// each loop inside do.
fn in_order(mut list: Vec<u32>) -> Result<Vec<u32>, Memory>
    ensures { IfOk result (λ v. v.items ≡ ascending list.items) }
{
    list.sort()?;
    list.dedup();
    // The list stays in the tree of its loop.
    list.shrink_to_fit();
    Ok(list)
}

fn add(found: &mut Vec<u32>, below: u32, x: u32) -> Result<(), Memory>
    ensures { OnOk result (ascending found.new.items ≡ t.with_target below (ascending found.old.items) x) }
{
    if x < below {
        found.push(x)?;
    }
    Ok(())
}

fn add_all(found: &mut Vec<u32>, below: u32, xs: &[u32]) -> Result<(), Memory>
    ensures { OnOk result (ascending found.new.items ≡ t.with_targets below (ascending found.old.items) xs.now) }
{
    for x in xs {
        add(found, below, *x)?;
    }
    Ok(())
}

/// A loop inside assigns its own targets, so its body is not seen again.
#[cycle(targets)]
fn add_of_stmt(found: &mut Vec<u32>, below: u32, stmt: &Stmt) -> Result<(), Memory>
    ensures { OnOk result (ascending found.new.items ≡ t.targets_of_stmt below (ascending found.old.items) (stmt_of stmt.now)) }
{
    match stmt {
        Stmt::Assign(_, x, _) | Stmt::New(_, x, _, _) => add(found, below, *x),
        Stmt::Call(_, xs, _, _) => add_all(found, below, xs),
        Stmt::If(_, _, first, second) => {
            add_from(found, below, first)?;
            add_from(found, below, second)
        }
        Stmt::While(turns) => add_all(found, below, &turns.targets),
        Stmt::Var(_, _, _)
        | Stmt::Write(_, _, _, _, _)
        | Stmt::Inhale(_, _)
        | Stmt::Exhale(_, _)
        | Stmt::Assert(_, _)
        | Stmt::Fold(_)
        | Stmt::Unfold(_) => Ok(()),
    }
}

#[cycle(targets)]
fn add_from(found: &mut Vec<u32>, below: u32, body: &[Stmt]) -> Result<(), Memory>
    ensures { OnOk result (ascending found.new.items ≡ t.targets_from below (ascending found.old.items) (stmts_of body.now)) }
{
    for stmt in body {
        add_of_stmt(found, below, stmt)?;
    }
    Ok(())
}
