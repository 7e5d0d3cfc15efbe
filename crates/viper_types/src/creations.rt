// The creation of objects.
ghost use Rattle.std.specs.Prelude.{◌≡◌, [], IfOk, length};
ghost use Rattle.std.specs.List.{range_with_len};
ghost use Rattle.viper_core.specs.View.{stmt_of};
ghost use Rattle.viper_syntax.specs.View.{new_of};
ghost use Rattle.viper_scope.specs.Answers.{Answers, world_of};
ghost use Rattle.viper_types.specs.Answers.{numbers_of};
ghost use Rattle.viper_scope.specs.Scope.{ref_variables};
ghost use Rattle.viper_scope.specs.Target.{listed};
ghost use Rattle.viper_types.specs.Stepping as s;

use crate::listed::list_new;
use indexmap::IndexSet;
use std::alloc::Global;
use vb_base::{Memory, Pos};
use viper_core::Stmt;
use viper_scope::{Context, Rule, RuleFault, VariableScope, World};
use viper_syntax::{Named, SNew};

/// The fields that a `new` names, none of them twice.
fn new_fields(alloc: Global, world: &World, names: &[Named]) -> Result<Vec<u32>, RuleFault>
    ensures { Answers numbers_of (s.new_fields (world_of world.now) [] names.now) result }
{
    let mut fields = IndexSet::new(alloc);
    for name in names {
        let Some((field, _)) = world.field(&name.name) else {
            return Err(RuleFault::Broken(name.pos, Rule::UnknownName));
        };
        if !list_new(&mut fields, field)? {
            return Err(RuleFault::Broken(name.pos, Rule::FieldTwice));
        }
    }
    Ok(fields.into_iter().collect(alloc)?)
}

/// The numbers of all fields.
fn all_fields(alloc: Global, world: &World) -> Result<Vec<u32>, Memory>
    ensures { IfOk result (λ v. v.items ≡ range_with_len 0 (length world.now.fields.items)) }
{
    let Ok(count) = u32::try_from(world.fields.len()) else {
        return Err(Memory);
    };
    Ok((0..count).collect(alloc)?)
}

/// The fields of a `new`.
fn chosen_fields(
    alloc: Global,
    lists: bool,
    world: &World,
    new: &SNew,
) -> Result<Vec<u32>, RuleFault>
    ensures { Answers numbers_of (s.chosen_fields lists (world_of world.now) (new_of new.now)) result }
{
    if !new.every {
        return new_fields(alloc, world, &new.fields);
    }
    if !lists {
        return Ok(Vec::new(alloc));
    }
    Ok(all_fields(alloc, world)?)
}

/// The Ref variables in scope.
fn ref_variables(alloc: Global, lists: bool, scope: &VariableScope) -> Result<Vec<u32>, Memory>
    ensures { IfOk result (λ v. v.items ≡ listed lists (ref_variables scope.now)) }
{
    if !lists {
        return Ok(Vec::new(alloc));
    }
    Ok(scope.ref_variables().to_vec(alloc)?)
}

/// The creation of an object, into the variable of this number.
pub fn creating(
    alloc: Global,
    context: &Context,
    scope: &VariableScope,
    at: Pos,
    target: u32,
    new: &SNew,
) -> Result<Stmt, RuleFault>
    ensures { Answers stmt_of (s.creating context.now.lists (world_of context.now.world.now) scope.now at target (new_of new.now)) result }
{
    let fields = chosen_fields(alloc, context.lists, context.world, new)?;
    let refs = ref_variables(alloc, context.lists, scope)?;
    Ok(Stmt::New(at, target, fields, refs))
}
