// Locals that take little room, for where it matters only how many there are.
ghost use Rattle.std.specs.Prelude.{◌≡◌, length, IfOk};

use boogie_tree::{BBase, BType, Local};
use std::alloc::Global;
use vb_base::{Ident, Memory};

/// A local without a name.
fn light(alloc: Global) -> Local {
    let name = Ident::empty();
    let ty = BType {
        keys: Vec::new(alloc),
        base: BBase::Bool,
    };
    Local { name, ty }
}

/// Frees the names and types of the locals from this number on.
pub(crate) fn lighten(alloc: Global, from: usize, locals: &mut Vec<Local>)
    ensures { length locals.new.items ≡ length locals.old.items }
{
    for number in from..locals.len() {
        locals[number] = light(alloc);
    }
}

/// So many of them.
pub(crate) fn light_locals(alloc: Global, many: usize) -> Result<Vec<Local>, Memory>
    ensures { IfOk result (λ locals. length locals.items ≡ many) }
{
    let mut locals = Vec::with_capacity(alloc, many)?;
    for _ in 0..many {
        locals.push(light(alloc))?;
    }
    Ok(locals)
}
