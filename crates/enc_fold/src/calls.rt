// The calls that are handed a program and a place.
ghost use Rattle.std.specs.Prelude.{◌≡◌, length, OnOk};
ghost use Rattle.std.specs.Option.{option_map};
ghost use Rattle.viper_core.specs.View.{assertion_of, fold_of, program_of};
ghost use Rattle.viper_meaning.specs.Contents as m;
ghost use Rattle.enc_expr.specs.Emits.{emit_of, Emits};
ghost use Rattle.enc_expr.specs.Place.{place_of};
ghost use Rattle.enc_expr.specs.ReadOff.{types_in};
ghost use Rattle.enc_fold.specs.Calls.{fold_call, unfold_call};

use crate::folding::fold;
use crate::unfolding::unfold;
use enc_expr::{Emit, Kinds, OwnKinds, Place, Reading};
use std::alloc::Global;
use vb_base::Memory;
use viper_core::{Assertion, FoldStmt, Program};

/// The body of a predicate that has one.
pub fn body_of(program: &Program, predicate: u32) -> Option<&Assertion>
    ensures { option_map (λ body. assertion_of body.now) result ≡ m.body_of (program_of program.now) predicate }
{
    match program.predicates.get(predicate as usize) {
        Some(declared) => declared.body.as_ref(),
        None => None,
    }
}

/// Writes the code of `fold` at a place. The types of variables are read off the locals that the place names.
/// `Memory` where there is no memory.
pub fn fold_code(
    alloc: Global,
    program: &Program,
    s: &FoldStmt,
    place: &Place,
    out: &mut Emit,
) -> Result<(), Memory>
    ensures { OnOk result (Emits (fold_call (types_in (emit_of out.old)) (program_of program.now) (place_of place.entry.now)
        (fold_of s.now) (length (emit_of out.old).locals)) (emit_of out.old) (emit_of out.new) tt) }
{
    match body_of(program, s.predicate) {
        Some(body) => {
            let own = OwnKinds::of(alloc, place, out)?;
            let kinds = Kinds {
                vars: &own.vars,
                layout: &program.layout,
            };
            fold(alloc, s, body, Reading::of(kinds, place), out)
        }
        None => Ok(()),
    }
}

/// Writes the code of `unfold` at a place. The types are read off as in `fold_code`.
/// `Memory` where there is no memory.
pub fn unfold_code(
    alloc: Global,
    program: &Program,
    s: &FoldStmt,
    place: &Place,
    out: &mut Emit,
) -> Result<(), Memory>
    ensures { OnOk result (Emits (unfold_call (types_in (emit_of out.old)) (program_of program.now) (place_of place.entry.now)
        (fold_of s.now) (length (emit_of out.old).locals)) (emit_of out.old) (emit_of out.new) tt) }
{
    match body_of(program, s.predicate) {
        Some(body) => {
            let own = OwnKinds::of(alloc, place, out)?;
            let kinds = Kinds {
                vars: &own.vars,
                layout: &program.layout,
            };
            unfold(alloc, s, body, Reading::of(kinds, place), out)
        }
        None => Ok(()),
    }
}
