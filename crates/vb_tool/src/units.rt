// The units of a program by their names.
ghost use Rattle.std.specs.Prelude.{◌≡◌, ◌&&◌};
ghost use Rattle.std.specs.Str.{bytes_eq};
ghost use Rattle.viper_core.specs.Formed.{IsFormed};
ghost use Rattle.viper_core.specs.View.{program_of};
ghost use Rattle.vb_tool.specs.Executions.{body_named, has_body};
ghost use Rattle.vb_tool.specs.Units.{name_of, is_name, unit_named};

use vb_base::Ident;
use viper_core::{Program, Unit};

/// The number of the unit that has this name.
pub fn unit_named(program: &Program, word: &str) -> Option<u32>
    requires { IsFormed (program_of program.now) }
    ensures { result ≡ unit_named (program_of program.now) word.now }
{
    let number = place_of(program, word)?;
    Some(number as u32)
}

/// Its place among the units.
fn place_of(program: &Program, word: &str) -> Option<usize>
    ensures { result ≡ unit_named (program_of program.now) word.now }
{
    program
        .units
        .iter()
        .position(|unit| is_named(program, *unit, word))
}

/// The number of the unit that is the method of this name, where that has a body.
pub fn body_named(program: &Program, word: &str) -> Option<u32>
    requires { IsFormed (program_of program.now) }
    ensures { result ≡ body_named (program_of program.now) word.now }
{
    let number = body_place_of(program, word)?;
    Some(number as u32)
}

/// Its place among the units.
fn body_place_of(program: &Program, word: &str) -> Option<usize>
    ensures { result ≡ body_named (program_of program.now) word.now }
{
    program.units.iter().position(|unit| is_named(program, *unit, word) && has_body(program, *unit))
}

/// Whether a unit is a method that has a body.
fn has_body(program: &Program, unit: Unit) -> bool
    ensures { result ≡ has_body (program_of program.now) unit }
{
    match unit {
        Unit::Method(number) => match program.methods.get(number as usize) {
            Some(method) => method.body.is_some(),
            None => false,
        },
        Unit::Predicate(_) => false,
    }
}

/// Whether the name of a unit is this word.
fn is_named(program: &Program, unit: Unit, word: &str) -> bool
    ensures { result ≡ is_name word.now (name_of (program_of program.now) unit) }
{
    match unit {
        Unit::Method(number) => match program.methods.get(number as usize) {
            Some(method) => is_name(&method.name, word),
            None => false,
        },
        Unit::Predicate(number) => match program.predicates.get(number as usize) {
            Some(predicate) => is_name(&predicate.name, word),
            None => false,
        },
    }
}

fn is_name(name: &Ident, word: &str) -> bool
    ensures { result ≡ bytes_eq name.now word.now }
{
    name.bytes() == word.as_bytes()
}
