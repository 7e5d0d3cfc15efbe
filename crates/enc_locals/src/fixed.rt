// The fixed locals of a unit, which stand before its temporaries.
ghost use Rattle.std.specs.Prelude.{◌≡◌, map, IfOk};
ghost use Rattle.viper_core.specs.View.{program_of};
ghost use Rattle.boogie_tree.specs.Whole.{proc_of, type_of, locals_of};
ghost use Rattle.enc_expr.specs.Locals as local;
ghost use Rattle.enc_locals.specs.Procedure.{front_procedure, front_locals};

use crate::local_types::{fixed_types, front_local_types};
use crate::names::{fixed_names, front_names, unit_name};
use boogie_tree::{BType, Local, Proc};
use enc_expr::add;
use std::alloc::Global;
use vb_base::{Ident, Memory};
use viper_core::{Program, Unit};

/// Locals of these names and types.
fn named(alloc: Global, names: Vec<Ident>, types: Vec<BType>) -> Result<Vec<Local>, Memory>
    ensures { IfOk result (λ locals. locals_of locals.items ≡ local.named names.items (map type_of types.items)) }
{
    let mut locals = Vec::with_capacity(alloc, names.len())?;
    let mut names = names.into_iter();
    let mut types = types.into_iter();
    while let Some(name) = names.next() {
        let Some(ty) = types.next() else {
            return Ok(locals);
        };
        add(&mut locals, Local { name, ty })?;
    }
    Ok(locals)
}

/// The fixed locals of a unit.
pub fn fixed_locals(alloc: Global, program: &Program, of: Unit) -> Result<Vec<Local>, Memory>
    ensures { IfOk result (λ locals. locals_of locals.items
        ≡ local.named (local.fixed_names (program_of program.now) of) (local.fixed_types (program_of program.now) of)) }
{
    let names = fixed_names(alloc, program, of)?;
    let types = fixed_types(alloc, program, of)?;
    named(alloc, names, types)
}

/// The locals of a unit that an opening sets.
fn front_locals(alloc: Global, program: &Program, of: Unit) -> Result<Vec<Local>, Memory>
    ensures { IfOk result (λ locals. locals_of locals.items ≡ front_locals (program_of program.now) of) }
{
    let names = front_names(alloc, program, of)?;
    let types = front_local_types(alloc, program, of)?;
    named(alloc, names, types)
}

/// What is known of a unit's procedure before its code: its name, and the locals that an opening sets. It has no body.
pub fn front_procedure(alloc: Global, program: &Program, of: Unit) -> Result<Proc, Memory>
    ensures { IfOk result (λ procedure. proc_of procedure ≡ front_procedure (program_of program.now) of) }
{
    Ok(Proc {
        name: unit_name(alloc, program, of)?,
        locals: front_locals(alloc, program, of)?,
        body: Vec::new(alloc),
    })
}
