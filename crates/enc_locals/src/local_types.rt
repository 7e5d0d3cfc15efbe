// The types of the fixed locals of a unit.
ghost use Rattle.std.specs.Prelude.{◌≡◌, ◌++◌, [], ◌∷◌, map, IfOk, OnOk};
ghost use Rattle.viper_core.specs.View.{program_of};
ghost use Rattle.boogie_tree.specs.Values.{map_type};
ghost use Rattle.boogie_tree.specs.Whole.{type_of};
ghost use Rattle.boogie_tree.specs.declared.exprs.BBase.TheVariants as base;
ghost use Rattle.moves.specs.Maps.{heap_type, mask_type, amount_type, indexed_type, state_types};
ghost use Rattle.moves.specs.Scalars.{variable_type};
ghost use Rattle.enc_expr.specs.Front as front;
ghost use Rattle.enc_expr.specs.Locals as local;

use crate::types::{front_types, other_types};
use boogie_tree::{BBase, BType};
use enc_expr::{add, base_for, heap_of, indexed_map_of};
use std::alloc::Global;
use vb_base::Memory;
use vb_value::{Layout, Ty};
use viper_core::{Program, Unit};

fn add_variables(alloc: Global, types: &[Ty], out: &mut Vec<BType>) -> Result<(), Memory>
    ensures { OnOk result (map type_of out.new.items ≡ map type_of out.old.items ++ map variable_type types.now) }
{
    for ty in types {
        let keys = Vec::new(alloc);
        let base = base_for(*ty);
        add(out, BType { keys, base })?;
    }
    Ok(())
}

fn add_heaps(alloc: Global, fields: &[Ty], out: &mut Vec<BType>) -> Result<(), Memory>
    ensures { OnOk result (map type_of out.new.items ≡ map type_of out.old.items ++ map heap_type fields.now) }
{
    for ty in fields {
        add(out, heap_of(alloc, ty)?)?;
    }
    Ok(())
}

fn add_masks(alloc: Global, fields: &[Ty], out: &mut Vec<BType>) -> Result<(), Memory>
    ensures { OnOk result (map type_of out.new.items ≡ map type_of out.old.items ++ map mask_type fields.now) }
{
    for _ty in fields {
        add(out, heap_of(alloc, &Ty::Perm)?)?;
    }
    Ok(())
}

/// Maps of the instances of each predicate.
fn add_indexed(
    alloc: Global,
    keys: &[Vec<Ty>],
    base: BBase,
    out: &mut Vec<BType>,
) -> Result<(), Memory>
    ensures { OnOk result (map type_of out.new.items ≡ map type_of out.old.items ++ map (indexed_type base) (map (λ us. us.items) keys.now)) }
{
    for params in keys {
        add(out, indexed_map_of(alloc, params, base)?)?;
    }
    Ok(())
}

fn add_held(alloc: Global, layout: &Layout, out: &mut Vec<BType>) -> Result<(), Memory>
    ensures { OnOk result (map type_of out.new.items ≡ map type_of out.old.items ++ (map mask_type layout.now.fields ++ map amount_type layout.now.keys)) }
{
    add_masks(alloc, &layout.fields, out)?;
    add_indexed(alloc, &layout.keys, BBase::Real, out)?;
    Ok(())
}

fn add_state(alloc: Global, layout: &Layout, out: &mut Vec<BType>) -> Result<(), Memory>
    ensures { OnOk result (map type_of out.new.items ≡ map type_of out.old.items ++ state_types layout.now) }
{
    add_heaps(alloc, &layout.fields, out)?;
    add_masks(alloc, &layout.fields, out)?;
    add_indexed(alloc, &layout.keys, BBase::Real, out)?;
    add_indexed(alloc, &layout.keys, BBase::Snap, out)?;
    Ok(())
}

fn add_zeros(alloc: Global, layout: &Layout, out: &mut Vec<BType>) -> Result<(), Memory>
    ensures { OnOk result (map type_of out.new.items ≡ map type_of out.old.items ++ (map_type base.Ref [] base.Real ∷ map amount_type layout.now.keys)) }
{
    add(out, heap_of(alloc, &Ty::Perm)?)?;
    add_indexed(alloc, &layout.keys, BBase::Real, out)?;
    Ok(())
}

fn add_front(alloc: Global, program: &Program, of: Unit, out: &mut Vec<BType>) -> Result<(), Memory>
    ensures { OnOk result (map type_of out.new.items ≡ map type_of out.old.items ++ front.front_types (program_of program.now) of) }
{
    let layout = &program.layout;
    add_variables(alloc, front_types(program, of), out)?;
    add_heaps(alloc, &layout.fields, out)?;
    add_indexed(alloc, &layout.keys, BBase::Snap, out)?;
    Ok(())
}

/// The types of the locals that an opening sets.
pub fn front_local_types(alloc: Global, program: &Program, of: Unit) -> Result<Vec<BType>, Memory>
    ensures { IfOk result (λ types. map type_of types.items ≡ front.front_types (program_of program.now) of) }
{
    let mut types = Vec::new(alloc);
    add_front(alloc, program, of, &mut types)?;
    Ok(types)
}

/// The types of the fixed locals of a unit.
pub fn fixed_types(alloc: Global, program: &Program, of: Unit) -> Result<Vec<BType>, Memory>
    ensures { IfOk result (λ types. map type_of types.items ≡ local.fixed_types (program_of program.now) of) }
{
    let layout = &program.layout;
    let mut types = Vec::new(alloc);
    add_front(alloc, program, of, &mut types)?;
    add_held(alloc, layout, &mut types)?;
    add_state(alloc, layout, &mut types)?;
    add_zeros(alloc, layout, &mut types)?;
    add_variables(alloc, other_types(program, of), &mut types)?;
    Ok(types)
}
