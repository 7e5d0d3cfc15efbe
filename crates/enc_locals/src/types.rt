// The types of the variables of a unit.
ghost use Rattle.std.specs.Prelude.{◌≡◌, ◌+◌, drop, take};
ghost use Rattle.viper_core.specs.View.{program_of};
ghost use Rattle.enc_expr.specs.Front.{types_of};
ghost use Rattle.enc_expr.specs.Locals.{types_of_others};

use vb_value::Ty;
use viper_core::{Method, Program, Unit};

/// So many of the types, or all where there are fewer.
pub fn first_of(types: &[Ty], many: usize) -> &[Ty]
    ensures { result.now ≡ take many types.now }
{
    if many < types.len() {
        &types[..many]
    } else {
        types
    }
}

/// The types behind so many.
fn rest_of(types: &[Ty], many: usize) -> &[Ty]
    ensures { result.now ≡ drop many types.now }
{
    if many < types.len() {
        &types[many..]
    } else {
        &[]
    }
}

/// How many parameters and returns a method has.
pub fn formals(method: &Method) -> usize
    ensures { result ≡ method.now.params + method.now.returns }
{
    method.params as usize + method.returns as usize
}

/// The types of the variables that an opening of a unit sets.
pub fn front_types(program: &Program, unit: Unit) -> &[Ty]
    ensures { result.now ≡ types_of (program_of program.now) unit }
{
    match unit {
        Unit::Method(n) => match program.methods.get(n as usize) {
            Some(method) => first_of(&method.vars, formals(method)),
            None => &[],
        },
        Unit::Predicate(n) => match program.predicates.get(n as usize) {
            Some(predicate) => &predicate.params,
            None => &[],
        },
    }
}

/// The types of its other variables.
pub fn other_types(program: &Program, unit: Unit) -> &[Ty]
    ensures { result.now ≡ types_of_others (program_of program.now) unit }
{
    match unit {
        Unit::Method(n) => match program.methods.get(n as usize) {
            Some(method) => rest_of(&method.vars, formals(method)),
            None => &[],
        },
        Unit::Predicate(_) => &[],
    }
}
