// The typing of a file.
ghost use Rattle.std.specs.Prelude.{◌≡◌, ◌≤◌, IfErr, IfOk, [], false, map};
ghost use Rattle.vb_base.specs.Limits.{max_weight};
ghost use Rattle.vb_base.specs.declared.places.Pos.{Pos};
ghost use Rattle.viper_core.specs.Formed.{IsFormed};
ghost use Rattle.viper_core.specs.Program as p;
ghost use Rattle.viper_core.specs.View as core;
ghost use Rattle.viper_core.specs.Weight.{weight};
ghost use Rattle.viper_syntax.specs.View.{decl_of, program_of as source_of};
ghost use Rattle.viper_scope.specs.declared.rules.Rule.{Rule};
ghost use Rattle.viper_scope.specs.Answers.{world_of};
ghost use Rattle.viper_types.specs.Checked.{Gives, IsRefused, Overweighs, Tells};
ghost use Rattle.viper_types.specs.Declaring as j;
ghost use Rattle.viper_syntax.specs.Good.{IsGoodSource};
ghost use Rattle.viper_scope.specs.Naming as n;
ghost use Rattle.viper_scope.specs.Outcome.{Broken, Found, then_typed};
ghost use Rattle.viper_types.specs.Program.{IsProgram};

use crate::copied::spend_decls;
use crate::declarations::declarations;
use crate::faults::TypeFault;
use crate::predicates::bodies_of;
use std::alloc::Global;
use vb_base::limits::{MAX_WEIGHT, TOO_HEAVY};
use viper_core::{Program, weight};
use viper_scope::{World, naming};
use viper_syntax::{Decl, SourceProgram};

/// Why a file is refused that copies more than a program may weigh: for the first rule that it breaks, or else for its weight.
///
/// Nothing is copied to find that out.
fn heavy_fault(alloc: Global, world: &World, decls: &[Decl]) -> TypeFault
    ensures { Overweighs (then_typed (j.decls_typing false (world_of world.now) [] (map decl_of decls.now)) (λ xs. Found (j.assembled j.no_program xs))) result }
{
    match declarations(alloc, world, &[], false, decls) {
        Ok(_) => TypeFault::Weight(TOO_HEAVY),
        Err(fault) => TypeFault::from(fault),
    }
}

/// The program that a file is, whose names are told; or the first rule that it breaks, or its weight, where what it copies tells that.
fn typed_in(alloc: Global, world: &World, source: &SourceProgram) -> Result<Program, TypeFault>
    requires { n.naming n.no_world (source_of source.now).decls ≡ Found (world_of world.now) }
    ensures found { IfOk result (λ q. j.program_typing (source_of source.now) ≡ Found (core.program_of q)) }
    ensures refused { IfErr result (λ f. IsRefused (source_of source.now) f) }
{
    let bodies = bodies_of(alloc, world, &source.decls)?;
    if spend_decls(MAX_WEIGHT, world, &bodies, &source.decls).is_none() {
        return Err(heavy_fault(alloc, world, &source.decls));
    }
    let parts = declarations(alloc, world, &bodies, true, &source.decls)?;
    Ok(parts.program())
}

fn typed(alloc: Global, source: &SourceProgram) -> Result<Program, TypeFault>
    ensures found { IfOk result (λ q. j.program_typing (source_of source.now) ≡ Found (core.program_of q)) }
    ensures refused { IfErr result (λ f. IsRefused (source_of source.now) f) }
{
    let world = naming(alloc, &source.decls)?;
    typed_in(alloc, &world, source)
}

/// The program that a file is, which weighs no more than `MAX_WEIGHT`; or else why there is none. A file that breaks a rule is
/// refused by the first that it breaks, with its place; `Weight` says that it breaks none and the program weighs more, and
/// `Memory` that memory was refused.
pub fn check(alloc: Global, source: &SourceProgram) -> Result<Program, TypeFault>
    ensures found { IfOk result (λ q. IsProgram (source_of source.now) (core.program_of q) × (weight (core.program_of q) ≤ max_weight)) }
    ensures only { (q : p.Program) → IsProgram (source_of source.now) q → Gives result q }
    ensures refused { IfErr result (λ f. IsRefused (source_of source.now) f) }
    ensures first { (at : Pos) (r : Rule) → j.program_typing (source_of source.now) ≡ Broken at r → Tells result at r }
    ensures formed { IsGoodSource (source_of source.now) → IfOk result (λ q. IsFormed (core.program_of q)) }
{
    let program = typed(alloc, source)?;
    let weight = weight(&program);
    if weight > MAX_WEIGHT {
        return Err(TypeFault::Weight(weight));
    }
    Ok(program)
}
