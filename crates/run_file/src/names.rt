// What the lines of a run file may name.
ghost use Rattle.std.specs.Prelude.{◌≡◌, IfOk, map, slice_get, take};
ghost use Rattle.std.specs.Option.{option_map};
ghost use Rattle.vb_base.specs.Names.{NamesDiffer};
ghost use Rattle.viper_core.specs.Program as p;
ghost use Rattle.viper_core.specs.View.{method_of, predicate_of, program_of};
ghost use Rattle.run_file.specs.Lines as l;
ghost use Rattle.run_file.specs.LineView.{lent_names};

use run_file_words::RunFileNames;
use std::alloc::Global;
use symbol_table::{Digest, NameKey, SymbolTable};
use vb_base::{Ident, Memory};
use vb_value::{Layout, Ty};
use viper_core::{Method, Predicate, Program, Unit};

/// What the lines of a file for one unit may name: the variables that an opening sets, the fields and the predicates.
#[derive(Clone, Copy)]
pub(crate) struct UnitScope<'a> {
    pub(crate) variables: &'a RunFileNames,
    /// The types of the variables.
    pub(crate) types: &'a [Ty],
    pub(crate) fields: &'a RunFileNames,
    pub(crate) predicates: &'a RunFileNames,
    /// The types of the fields, and of the arguments of each predicate.
    pub(crate) layout: &'a Layout,
}

/// The names of the predicates in order.
pub(crate) fn predicate_names(
    alloc: Global,
    predicates: &[Predicate],
) -> Result<RunFileNames, Memory>
    requires { NamesDiffer (map (λ (d : p.Predicate). d.name) (map predicate_of predicates.now)) }
    ensures { IfOk result (λ x. x ≡ map (λ (d : p.Predicate). d.name) (map predicate_of predicates.now)) }
{
    let mut known = SymbolTable::new(alloc, key_of(predicates));
    for predicate in predicates {
        known.add(predicate.name.copy()?)?;
    }
    Ok(RunFileNames::of_table(known))
}

/// A key that comes of the names of all these.
fn key_of(predicates: &[Predicate]) -> NameKey {
    let mut digest = Digest::new();
    for predicate in predicates {
        digest.add(predicate.name.bytes());
    }
    digest.key()
}

/// The names and types of the variables that an opening of a unit sets.
pub(crate) fn variables_of(program: &Program, unit: u32) -> (&[Ident], &[Ty])
    ensures { lent_names result ≡ l.unit_variables (program_of program.now) (slice_get (program_of program.now).units unit) }
{
    match program.units.get(unit as usize) {
        Some(Unit::Method(number)) => method_variables(program.methods.get(*number as usize)),
        Some(Unit::Predicate(number)) => {
            predicate_variables(program.predicates.get(*number as usize))
        }
        None => (&[], &[]),
    }
}

/// The parameters, and then the returns.
fn method_variables(method: Option<&Method>) -> (&[Ident], &[Ty])
    ensures { lent_names result ≡ l.method_variables (option_map (λ m. method_of m.now) method.entry) }
{
    match method {
        Some(method) => {
            let count = method.params as usize + method.returns as usize;
            (&method.names, front(&method.vars, count))
        }
        None => (&[], &[]),
    }
}

fn predicate_variables(predicate: Option<&Predicate>) -> (&[Ident], &[Ty])
    ensures { lent_names result ≡ l.predicate_variables (option_map (λ d. predicate_of d.now) predicate.entry) }
{
    match predicate {
        Some(predicate) => (&predicate.names, &predicate.params),
        None => (&[], &[]),
    }
}

/// So many of the types, or all where there are fewer.
fn front(types: &[Ty], count: usize) -> &[Ty]
    ensures { result.now ≡ take count types.now }
{
    match types.get(..count) {
        Some(front) => front,
        None => types,
    }
}
