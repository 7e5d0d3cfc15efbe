// The methods, predicates and units of a program by their numbers, and the variables of a unit.
ghost use Rattle.std.specs.Prelude.{◌≡◌, ◌<◌, Some, length, slice_get};
ghost use Rattle.std.specs.Option.{option_map};
ghost use Rattle.enc_locals.specs.Procedure as procedure;
ghost use Rattle.viper_core.specs.View.{method_of, predicate_of, program_of};

use vb_value::Ty;
use viper_core::{Method, Predicate, Program, Unit};

/// A method by its number. None: there is none of that number.
pub fn method_at(program: &Program, number: u32) -> Option<&Method>
    ensures { option_map (λ m. method_of m.now) result ≡ slice_get (program_of program.now).methods number }
{
    program.methods.get(number as usize)
}

/// A predicate by its number. None: there is none of that number.
pub fn predicate_at(program: &Program, number: u32) -> Option<&Predicate>
    ensures { option_map (λ d. predicate_of d.now) result ≡ slice_get (program_of program.now).predicates number }
{
    program.predicates.get(number as usize)
}

/// A unit by its number.
pub fn unit_at(units: &[Unit], number: usize) -> Unit
    requires { number < length units.now }
    ensures { slice_get units.now number ≡ Some result }
{
    units[number]
}

/// The types of a unit's variables.
pub fn unit_vars(program: &Program, of: Unit) -> &[Ty]
    ensures { result.now ≡ procedure.unit_vars (program_of program.now) of }
{
    match of {
        Unit::Method(n) => match method_at(program, n) {
            Some(method) => &method.vars,
            None => &[],
        },
        Unit::Predicate(n) => match predicate_at(program, n) {
            Some(predicate) => &predicate.params,
            None => &[],
        },
    }
}
