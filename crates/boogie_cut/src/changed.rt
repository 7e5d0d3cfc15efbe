// What statements change.
ghost use Rattle.std.specs.Prelude.{◌≡◌, ◌++◌, ℕ, nat_lt, IfOk, OnOk, Contains};
ghost use Rattle.std.specs.List.{filter, range_with_len};
ghost use Rattle.std.specs.List.Sorted.{IsStrictlyIncreasing};
ghost use Rattle.boogie_loops.specs.Changed.{changes};
ghost use Rattle.boogie_loops.specs.View.{wstmt_of, wstmts_of};
ghost use Rattle.boogie_cut.specs.View.{changed_by, changed_by_stmt};

use boogie_loops::WStmt;
use std::alloc::Global;
use vb_base::Memory;

/// Adds what the statement changes.
#[cycle(adding)]
fn add_stmt(stmt: &WStmt, changed: &mut Vec<usize>) -> Result<(), Memory>
    ensures { OnOk result (changed.new.items ≡ changed.old.items ++ changed_by_stmt (wstmt_of stmt.now)) }
{
    match stmt {
        WStmt::Assign(local, _) | WStmt::Put(local, _, _) | WStmt::Havoc(local) => {
            Ok(changed.push(*local)?)
        }
        WStmt::If(_, first, second) | WStmt::Either(first, second) => {
            add_block(first, changed)?;
            add_block(second, changed)
        }
        WStmt::While(_, _, body) => add_block(body, changed),
        WStmt::Call(targets, _, _) => Ok(changed.extend_from_slice(targets)?),
        WStmt::Assume(_) | WStmt::Assert(..) => Ok(()),
    }
}

/// Adds what the statements of a block change.
#[cycle(adding)]
fn add_block(stmts: &[WStmt], changed: &mut Vec<usize>) -> Result<(), Memory>
    ensures { OnOk result (changed.new.items ≡ changed.old.items ++ changed_by (wstmts_of stmts.now)) }
{
    for stmt in stmts {
        add_stmt(stmt, changed)?;
    }
    Ok(())
}

/// The numbers below n.
fn below(alloc: Global, n: usize, numbers: &[usize]) -> Result<Vec<usize>, Memory>
    ensures { IfOk result (λ is. is.items ≡ filter (λ i. nat_lt i n) numbers.now) }
{
    let mut below = Vec::new(alloc);
    for number in numbers {
        if *number < n {
            below.push(*number)?;
        }
    }
    Ok(below)
}

/// Puts the numbers in order, each once.
fn sort_unique(numbers: &mut Vec<usize>)
    ensures rises { IsStrictlyIncreasing numbers.new.items }
    ensures keeps { (x : ℕ) → Contains numbers.old.items x → Contains numbers.new.items x }
    ensures adds_none { (x : ℕ) → Contains numbers.new.items x → Contains numbers.old.items x }
{
    numbers.sort_unstable();
    numbers.dedup();
}

/// The first n variables that a body changes.
pub(crate) fn targets(alloc: Global, n: usize, body: &[WStmt]) -> Result<Vec<usize>, Memory>
    ensures { IfOk result (λ is. is.items ≡ filter (changes (wstmts_of body.now)) (range_with_len 0 n)) }
{
    let mut changed = Vec::new(alloc);
    add_block(body, &mut changed)?;
    let mut targets = below(alloc, n, &changed)?;
    sort_unique(&mut targets);
    Ok(targets)
}
