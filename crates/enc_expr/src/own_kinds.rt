// The types of variables, fields and predicates, read off the locals that a place names.
ghost use Rattle.std.specs.Prelude.{◌≡◌, map, IfOk};
ghost use Rattle.boogie_tree.specs.Whole.{locals_of};
ghost use Rattle.enc_expr.specs.Emits.{emit_of};
ghost use Rattle.enc_expr.specs.Place.{place_of};
ghost use Rattle.enc_expr.specs.ReadOff as read;
ghost use Rattle.enc_expr.specs.View.{kinds_of, own_kinds_of};

use crate::emits::Emit;
use crate::places::Place;
use crate::readings::Kinds;
use boogie_tree::{BBase, Local};
use std::alloc::Global;
use vb_base::Memory;
use vb_value::{Layout, Ty};

/// Kinds that hold their types themselves.
#[derive(Drop)]
pub struct OwnKinds {
    pub vars: Vec<Ty>,
    pub layout: Layout,
}

impl OwnKinds {
    /// As the locals of the variables, heaps and contents that the place names have them. A predicate without parameters has one
    /// Int here, the type of its index 0.
    pub fn of(alloc: Global, place: &Place, out: &Emit) -> Result<OwnKinds, Memory>
        ensures { IfOk result (λ x. own_kinds_of x ≡ read.kinds_at (place_of place.entry.now) (read.types_in (emit_of out.now))) }
    {
        let vars = value_types(alloc, &out.locals, &place.vars)?;
        let fields = value_types(alloc, &out.locals, &place.now.heap)?;
        let keys = all_key_types(alloc, &out.locals, &place.now.content)?;
        Ok(OwnKinds {
            vars,
            layout: Layout { fields, keys },
        })
    }
}

impl<'a> Kinds<'a> {
    /// The types that are held elsewhere.
    pub fn of(own: &'a OwnKinds) -> Kinds<'a>
        ensures { kinds_of result ≡ own_kinds_of own.entry.now }
    {
        Kinds {
            vars: &own.vars,
            layout: &own.layout,
        }
    }
}

/// The type of Viper that is this one of Boogie. A snapshot is none.
fn ty_for(base: BBase) -> Ty
    ensures { result ≡ read.ty_for base }
{
    match base {
        BBase::Int | BBase::Snap => Ty::Int,
        BBase::Bool => Ty::Bool,
        BBase::Ref => Ty::Ref,
        BBase::Real => Ty::Perm,
    }
}

/// The type of a local's values.
fn value_type(locals: &[Local], local: usize) -> Ty
    ensures { result ≡ read.value_type (read.local_types (locals_of locals.now)) local }
{
    match locals.get(local) {
        Some(local) => ty_for(local.ty.base),
        None => Ty::Int,
    }
}

fn value_types(alloc: Global, locals: &[Local], numbers: &[usize]) -> Result<Vec<Ty>, Memory>
    ensures { IfOk result (λ us. us.items ≡ map (read.value_type (read.local_types (locals_of locals.now))) numbers.now) }
{
    let mut types = Vec::with_capacity(alloc, numbers.len())?;
    for local in numbers {
        types.push(value_type(locals, *local))?;
    }
    Ok(types)
}

fn tys_for(alloc: Global, bases: &[BBase]) -> Result<Vec<Ty>, Memory>
    ensures { IfOk result (λ us. us.items ≡ map read.ty_for bases.now) }
{
    let mut types = Vec::with_capacity(alloc, bases.len())?;
    for base in bases {
        types.push(ty_for(*base))?;
    }
    Ok(types)
}

/// The types of a local's keys.
fn key_types(alloc: Global, locals: &[Local], local: usize) -> Result<Vec<Ty>, Memory>
    ensures { IfOk result (λ us. us.items ≡ read.key_types (read.local_types (locals_of locals.now)) local) }
{
    match locals.get(local) {
        Some(local) => tys_for(alloc, &local.ty.keys),
        None => Ok(Vec::new(alloc)),
    }
}

fn all_key_types(alloc: Global, locals: &[Local], numbers: &[usize]) -> Result<Vec<Vec<Ty>>, Memory>
    ensures { IfOk result (λ kss. map (λ us. us.items) kss.items ≡ map (read.key_types (read.local_types (locals_of locals.now))) numbers.now) }
{
    let mut keys = Vec::with_capacity(alloc, numbers.len())?;
    for local in numbers {
        let types = key_types(alloc, locals, *local)?;
        keys.push(types)?;
    }
    Ok(keys)
}
