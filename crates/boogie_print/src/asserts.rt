// How many `assert` statements there are.
ghost use Rattle.std.specs.Prelude.{◌≡◌, ◌+◌, ◌-◌, ◌^◌, min};
ghost use Rattle.boogie_tree.specs.Whole.{stmt_of, stmts_of};
ghost use Rattle.boogie_print.specs.Asserts.{asserts_at, asserts_in};

use boogie_tree::BStmt;

/// So many and those of these statements, also in their blocks. The count stops at the greatest `u64`.
#[cycle(asserts)]
pub fn count_asserts(code: &[BStmt], before: u64) -> u64
    ensures { result ≡ min (before + asserts_in (stmts_of code.now)) (2 ^ 64 - 1) }
{
    let mut count = before;
    for stmt in code {
        count = count_statement(stmt, count);
    }
    count
}

#[cycle(asserts)]
fn count_statement(stmt: &BStmt, before: u64) -> u64
    ensures { result ≡ min (before + asserts_at (stmt_of stmt.now)) (2 ^ 64 - 1) }
{
    match stmt {
        BStmt::Assert(_, _) => before.saturating_add(1),
        BStmt::If(_, a, b) => count_asserts(b, count_asserts(a, before)),
        BStmt::Either(a, b) => count_asserts(b, count_asserts(a, before)),
        _ => before,
    }
}
