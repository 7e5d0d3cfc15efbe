// Formals: the parameters and returns of predicates and methods.
ghost use Rattle.std.specs.Prelude.{◌≡◌, ◌++◌, OnOk, map};
ghost use Rattle.viper_scope.specs.Answers.{Answers};
ghost use Rattle.viper_types.specs.Answers.{frame_of};
ghost use Rattle.viper_types.specs.Declaring as j;
ghost use Rattle.viper_types.specs.Frame as f;
ghost use Rattle.viper_scope.specs.Types as types;
ghost use Rattle.viper_scope.specs.Outcome.{Found};

use crate::frames::MethodVariables;
use vb_base::{Ident, Memory};
use vb_value::Ty;
use viper_scope::{Rule, RuleFault, type_of};
use viper_syntax::Formal;

/// Adds a formal, which is a Perm only where that is allowed.
fn formal(
    frame: &mut MethodVariables,
    allows_perm: bool,
    is_parameter: bool,
    formal: &Formal,
) -> Result<(), RuleFault>
    ensures { Answers (λ _. frame_of frame.new) (j.formal allows_perm (frame_of frame.old) formal.now (Found (f.with_variable (frame_of frame.old) formal.now.name.name (types.declared_type formal.now) is_parameter))) result }
{
    let at = formal.name.pos;
    if frame.scope.find(&formal.name.name).is_some() {
        return Err(RuleFault::Broken(at, Rule::DeclaredTwice));
    }
    let Some(ty) = type_of(formal.ty) else {
        return Err(RuleFault::Broken(at, Rule::WrongType));
    };
    if !allows_perm && ty == Ty::Perm {
        return Err(RuleFault::Broken(at, Rule::PermParameter));
    }
    frame.declare(&formal.name.name, ty, is_parameter)?;
    Ok(())
}

/// Adds formals in order, as parameters or as returns. They are Perms only where that is allowed.
pub fn formals(
    frame: &mut MethodVariables,
    allows_perm: bool,
    is_parameter: bool,
    formals: &[Formal],
) -> Result<(), RuleFault>
    ensures { Answers (λ _. frame_of frame.new) (j.formals allows_perm is_parameter (frame_of frame.old) formals.now) result }
{
    for next in formals {
        formal(frame, allows_perm, is_parameter, next)?;
    }
    Ok(())
}

/// Adds the names of formals in order.
pub fn add_names(names: &mut Vec<Ident>, formals: &[Formal]) -> Result<(), Memory>
    ensures { OnOk result (names.new.items ≡ names.old.items ++ map j.name_of formals.now) }
{
    for formal in formals {
        names.push(formal.name.name.copy()?)?;
    }
    Ok(())
}
