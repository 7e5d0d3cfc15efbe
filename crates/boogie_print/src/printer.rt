// The text of a program.
ghost use Rattle.std.specs.Prelude.{◌≡◌, ◌++◌, OnOk, IfOk};
ghost use Rattle.boogie_tree.specs.Whole as b;
ghost use Rattle.boogie_tree.specs.Text.{prelude};
ghost use Rattle.boogie_grammar.specs.Printed as text;
ghost use Rattle.boogie_grammar.specs.Spells.{BSpells};
ghost use Rattle.boogie_print.specs.Printable.{IsPrintable};

use crate::pieces::{PrintedNames, put_code, put_head};
use crate::put_stmts::put_end;
use boogie_tree::{BProgram, PRELUDE, Proc};
use std::alloc::Global;
use vb_base::Memory;

/// The text of a program: the prelude, and then a line for each local, statement and bracket of a block. It spells the
/// program. A bound variable is written as `q` and a number, the least that makes it the name of no local and of none
/// before it in its `forall`. `Memory` where there is no memory.
pub fn print(alloc: Global, program: &BProgram) -> Result<Vec<u8>, Memory>
    requires { IsPrintable (b.program_of program.now) }
    ensures text { IfOk result (λ bytes. bytes.items ≡ text.program_text (b.program_of program.now)) }
    ensures spells { IfOk result (λ bytes. BSpells bytes.items (b.program_of program.now)) }
{
    whole_text(alloc, program)
}

fn whole_text(alloc: Global, program: &BProgram) -> Result<Vec<u8>, Memory>
    ensures { IfOk result (λ bytes. bytes.items ≡ text.program_text (b.program_of program.now)) }
{
    let mut out = prelude_text(alloc)?;
    for proc in &program.procs {
        put_procedure(alloc, &mut out, proc)?;
    }
    Ok(out)
}

#[tactic(auto, unfolding(boogie_tree::specs::Text::prelude))]
fn prelude_text(alloc: Global) -> Result<Vec<u8>, Memory>
    ensures { IfOk result (λ bytes. bytes.items ≡ prelude) }
{
    Ok(PRELUDE.to_vec(alloc)?)
}

fn put_procedure(alloc: Global, out: &mut Vec<u8>, proc: &Proc) -> Result<(), Memory>
    ensures { OnOk result (out.new.items ≡ out.old.items ++ text.proc_text (b.proc_of proc.now)) }
{
    put_head(out, &proc.name, &proc.locals)?;
    let names = PrintedNames::of(alloc, &proc.locals)?;
    put_code(alloc, &names, &proc.body, out)?;
    put_end(out)
}
