// The code of clauses: several are one conjunction in their order.
ghost use Rattle.std.specs.Prelude.{◌≡◌, [], ◌∷◌, length, None, OnOk};
ghost use Rattle.viper_core.specs.View.{assertion_of, assertions_of};
ghost use Rattle.enc_expr.specs.Emits.{emit_of, Emits};
ghost use Rattle.enc_expr.specs.Place.{maps_of};
ghost use Rattle.enc_expr.specs.View.{kinds_of, place_in};
ghost use Rattle.enc_block.specs.Encoding as code;
ghost use Rattle.enc_block.specs.View.{home_of};

use crate::homes::Setting;
use enc_assert::{Taking, consume, forget, produce};
use enc_expr::{Atom, Emit, Maps, Reading};
use enc_fold::save;
use std::alloc::Global;
use vb_base::{Memory, Pos};
use viper_core::Assertion;

/// Writes the code that produces clauses, which always count.
pub fn produce_all(
    alloc: Global,
    clauses: &[Assertion],
    reading: Reading,
    out: &mut Emit,
) -> Result<(), Memory>
    ensures { OnOk result (Emits (code.produce_all_code (kinds_of reading.entry.kinds) (place_in reading.entry)
        (assertions_of clauses.now) (length (emit_of out.old).locals)) (emit_of out.old) (emit_of out.new) tt) }
{
    for clause in clauses {
        produce(alloc, clause, Atom::Real(1), always(reading), out)?;
    }
    Ok(())
}

/// Writes the code that consumes clauses, which always count, and takes their permission from other maps.
pub fn consume_all(
    alloc: Global,
    clauses: &[Assertion],
    left: &Maps,
    reading: Reading,
    out: &mut Emit,
) -> Result<(), Memory>
    ensures { OnOk result (Emits (code.consume_all_code (kinds_of reading.entry.kinds) (place_in reading.entry) (maps_of left.now)
        (assertions_of clauses.now) (length (emit_of out.old).locals)) (emit_of out.old) (emit_of out.new) tt) }
{
    for clause in clauses {
        let scale = Atom::Real(1);
        let taking = Taking { left, scale };
        consume(alloc, clause, taking, always(reading), out)?;
    }
    Ok(())
}

/// The same, where the part always counts.
fn always<'a>(reading: Reading<'a>) -> Reading<'a>
    ensures kinds { kinds_of result.kinds ≡ kinds_of reading.entry.kinds }
    ensures place { place_in result ≡ place_in reading.entry }
    ensures guard { result.guard ≡ None }
{
    Reading {
        guard: None,
        ..reading
    }
}

/// Writes the code that gives clauses up: they are read in the state as it was, and taken from the present one.
pub fn exhale_all(
    alloc: Global,
    clauses: &[Assertion],
    at: Pos,
    setting: Setting,
    out: &mut Emit,
) -> Result<(), Memory>
    ensures { OnOk result (Emits (code.exhale_code (kinds_of setting.entry.kinds) (home_of setting.entry.home.now) at
        (assertions_of clauses.now) (length (emit_of out.old).locals)) (emit_of out.old) (emit_of out.new) tt) }
{
    let layout = setting.kinds.layout;
    let home = setting.home;
    if clauses.is_empty() {
        return forget(alloc, layout, &home.now, out);
    }
    let start = save(alloc, layout, &home.now, out)?;
    let reading = setting.reading(at).with_now(&start);
    consume_all(alloc, clauses, &home.now, reading, out)?;
    forget(alloc, layout, &home.now, out)
}

/// The same of a single assertion.
pub fn exhale(
    alloc: Global,
    assertion: &Assertion,
    at: Pos,
    setting: Setting,
    out: &mut Emit,
) -> Result<(), Memory>
    ensures { OnOk result (Emits (code.exhale_code (kinds_of setting.entry.kinds) (home_of setting.entry.home.now) at
        (assertion_of assertion.now ∷ []) (length (emit_of out.old).locals)) (emit_of out.old) (emit_of out.new) tt) }
{
    let layout = setting.kinds.layout;
    let home = setting.home;
    let start = save(alloc, layout, &home.now, out)?;
    let reading = setting.reading(at).with_now(&start);
    let taking = Taking {
        left: &home.now,
        scale: Atom::Real(1),
    };
    consume(alloc, assertion, taking, reading, out)?;
    forget(alloc, layout, &home.now, out)
}

/// Writes the code that consumes clauses from copies: the state stays as it was.
pub fn assert_all(
    alloc: Global,
    clauses: &[Assertion],
    at: Pos,
    setting: Setting,
    out: &mut Emit,
) -> Result<(), Memory>
    ensures { OnOk result (Emits (code.assert_code (kinds_of setting.entry.kinds) (home_of setting.entry.home.now) at
        (assertions_of clauses.now) (length (emit_of out.old).locals)) (emit_of out.old) (emit_of out.new) tt) }
{
    if clauses.is_empty() {
        return Ok(());
    }
    let home = setting.home;
    let left = save(alloc, setting.kinds.layout, &home.now, out)?;
    consume_all(alloc, clauses, &left, setting.reading(at), out)
}

/// The same of a single assertion.
pub fn assert(
    alloc: Global,
    assertion: &Assertion,
    at: Pos,
    setting: Setting,
    out: &mut Emit,
) -> Result<(), Memory>
    ensures { OnOk result (Emits (code.assert_code (kinds_of setting.entry.kinds) (home_of setting.entry.home.now) at
        (assertion_of assertion.now ∷ []) (length (emit_of out.old).locals)) (emit_of out.old) (emit_of out.new) tt) }
{
    let home = setting.home;
    let left = save(alloc, setting.kinds.layout, &home.now, out)?;
    let taking = Taking {
        left: &left,
        scale: Atom::Real(1),
    };
    consume(alloc, assertion, taking, setting.reading(at), out)
}
