// The calls that are handed a place alone, for assertions that always count.
ghost use Rattle.std.specs.Prelude.{length, OnOk};
ghost use Rattle.viper_core.specs.View.{assertion_of};
ghost use Rattle.boogie_tree.specs.Whole.{expr_of};
ghost use Rattle.enc_expr.specs.Emits.{emit_of, Emits};
ghost use Rattle.enc_expr.specs.Place.{place_of, maps_of};
ghost use Rattle.enc_expr.specs.ReadOff.{types_in};
ghost use Rattle.enc_assert.specs.Calls.{produce_call, consume_call, forget_call};

use crate::consuming::{Taking, consume};
use crate::forgetting::forget;
use crate::producing::produce;
use crate::scales::scale_atom;
use boogie_tree::BExpr;
use enc_expr::{Emit, Kinds, Maps, OwnKinds, Place, Reading};
use std::alloc::Global;
use vb_base::Memory;
use viper_core::Assertion;

/// Writes the code that consumes an assertion: its expressions are read at a place, and permission is taken from other maps, by
/// amounts times a scale, but for those of `wildcard`. The types of variables, fields and predicates are read off the locals that
/// the place names. `Memory` where there is no memory.
pub fn consume_code(
    alloc: Global,
    a: &Assertion,
    place: &Place,
    left: &Maps,
    scale: &BExpr,
    out: &mut Emit,
) -> Result<(), Memory>
    ensures { OnOk result (Emits (consume_call (types_in (emit_of out.old)) (place_of place.entry.now) (maps_of left.entry.now)
        (expr_of scale.now) (assertion_of a.now) (length (emit_of out.old).locals)) (emit_of out.old) (emit_of out.new) tt) }
{
    let own = OwnKinds::of(alloc, place, out)?;
    let scale = scale_atom(alloc, scale, out)?;
    let taking = Taking { left, scale };
    consume(alloc, a, taking, Reading::of(Kinds::of(&own), place), out)
}

/// Writes the code that produces an assertion at a place, its amounts times a scale. The types are read off as in `consume_code`.
/// `Memory` where there is no memory.
pub fn produce_code(
    alloc: Global,
    a: &Assertion,
    place: &Place,
    scale: &BExpr,
    out: &mut Emit,
) -> Result<(), Memory>
    ensures { OnOk result (Emits (produce_call (types_in (emit_of out.old)) (place_of place.entry.now) (expr_of scale.now)
        (assertion_of a.now) (length (emit_of out.old).locals)) (emit_of out.old) (emit_of out.new) tt) }
{
    let own = OwnKinds::of(alloc, place, out)?;
    let scale = scale_atom(alloc, scale, out)?;
    produce(alloc, a, scale, Reading::of(Kinds::of(&own), place), out)
}

/// Writes the code that gives any values to heaps and contents of the present state where nothing is held. The types are read off
/// as in `consume_code`. `Memory` where there is no memory.
pub fn forget_code(alloc: Global, place: &Place, out: &mut Emit) -> Result<(), Memory>
    ensures { OnOk result (Emits (forget_call (types_in (emit_of out.old)) (place_of place.entry.now) (length (emit_of out.old).locals))
        (emit_of out.old) (emit_of out.new) tt) }
{
    let own = OwnKinds::of(alloc, place, out)?;
    forget(alloc, &own.layout, &place.now, out)
}
