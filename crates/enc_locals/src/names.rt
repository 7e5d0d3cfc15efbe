// The names of a unit and of its fixed locals, each with its kind as a prefix.
ghost use Rattle.std.specs.Prelude.{◌≡◌, ◌++◌, codes, map, IfOk, OnOk};
ghost use Rattle.std.specs.Fmt.{decimal};
ghost use Rattle.viper_core.specs.Program as p;
ghost use Rattle.viper_core.specs.View.{predicate_of, program_of};
ghost use Rattle.enc_expr.specs.Front as front;
ghost use Rattle.enc_expr.specs.Locals as local;
ghost use Rattle.enc_locals.specs.Procedure as procedure;

use crate::lookups::{method_at, predicate_at};
use crate::numbers::Numbers;
use crate::types::{formals, other_types};
use enc_expr::add;
use std::alloc::Global;
use vb_base::{Ident, Memory};
use vb_value::Ty;
use viper_core::{Predicate, Program, Unit};

/// The name behind a prefix that tells what it names.
fn fronted(alloc: Global, front: &[u8], name: &Ident) -> Result<Ident, Memory>
    ensures { IfOk result (λ whole. whole ≡ front.now ++ name.now) }
{
    Ident::joined(alloc, front, name.bytes())
}

fn add_each(
    alloc: Global,
    front: &[u8],
    names: &[Ident],
    out: &mut Vec<Ident>,
) -> Result<(), Memory>
    ensures { OnOk result (out.new.items ≡ out.old.items ++ map (λ x. front.now ++ x) names.now) }
{
    for name in names {
        add(out, fronted(alloc, front, name)?)?;
    }
    Ok(())
}

fn add_predicates(
    alloc: Global,
    front: &[u8],
    predicates: &[Predicate],
    out: &mut Vec<Ident>,
) -> Result<(), Memory>
    ensures { OnOk result (out.new.items ≡ out.old.items ++ map (λ x. front.now ++ x) (map (λ d. d.name) (map predicate_of predicates.now))) }
{
    for predicate in predicates {
        add(out, fronted(alloc, front, &predicate.name)?)?;
    }
    Ok(())
}

/// The name of a variable by its number.
fn numbered(alloc: Global, number: usize) -> Result<Ident, Memory>
    ensures { IfOk result (λ name. name ≡ local.other_name number) }
{
    let digits = format!(in alloc; "{number}")?;
    Ident::joined(alloc, b"l$", digits.as_bytes())
}

fn add_numbered(
    alloc: Global,
    first: usize,
    types: &[Ty],
    out: &mut Vec<Ident>,
) -> Result<(), Memory>
    ensures { OnOk result (out.new.items ≡ out.old.items ++ local.names_from first types.now) }
{
    let mut numbers = Numbers { next: first };
    for _ty in types {
        let number = numbers.one()?;
        add(out, numbered(alloc, number)?)?;
    }
    Ok(())
}

/// The names of the variables that an opening sets.
fn variables(program: &Program, of: Unit) -> &[Ident]
    ensures { result.now ≡ front.names_of (program_of program.now) of }
{
    match of {
        Unit::Method(n) => match method_at(program, n) {
            Some(method) => &method.names,
            None => &[],
        },
        Unit::Predicate(n) => match predicate_at(program, n) {
            Some(predicate) => &predicate.names,
            None => &[],
        },
    }
}

/// The number of the first other variable.
fn first_other(program: &Program, of: Unit) -> usize
    ensures { result ≡ local.first_other (program_of program.now) of }
{
    match of {
        Unit::Method(n) => match method_at(program, n) {
            Some(method) => formals(method),
            None => 0,
        },
        Unit::Predicate(_) => 0,
    }
}

fn add_front(alloc: Global, program: &Program, of: Unit, out: &mut Vec<Ident>) -> Result<(), Memory>
    ensures { OnOk result (out.new.items ≡ out.old.items ++ front.front_names (program_of program.now) of) }
{
    add_each(alloc, b"v$", variables(program, of), out)?;
    add_each(alloc, b"h$", &program.fields, out)?;
    add_predicates(alloc, b"c$", &program.predicates, out)?;
    Ok(())
}

fn add_state(alloc: Global, program: &Program, out: &mut Vec<Ident>) -> Result<(), Memory>
    ensures { OnOk result (out.new.items ≡ out.old.items ++ local.state_names (program_of program.now)) }
{
    add_each(alloc, b"m$", &program.fields, out)?;
    add_predicates(alloc, b"a$", &program.predicates, out)
}

fn add_old(alloc: Global, program: &Program, out: &mut Vec<Ident>) -> Result<(), Memory>
    ensures { OnOk result (out.new.items ≡ out.old.items ++ local.old_names (program_of program.now)) }
{
    add_each(alloc, b"oh$", &program.fields, out)?;
    add_each(alloc, b"om$", &program.fields, out)?;
    add_predicates(alloc, b"oa$", &program.predicates, out)?;
    add_predicates(alloc, b"oc$", &program.predicates, out)?;
    Ok(())
}

fn add_zeros(alloc: Global, program: &Program, out: &mut Vec<Ident>) -> Result<(), Memory>
    ensures { OnOk result (out.new.items ≡ out.old.items ++ local.zero_names (program_of program.now)) }
{
    add(out, Ident::new(alloc, b"z$")?)?;
    add_predicates(alloc, b"z$", &program.predicates, out)
}

/// The names of the locals that an opening sets.
pub fn front_names(alloc: Global, program: &Program, of: Unit) -> Result<Vec<Ident>, Memory>
    ensures { IfOk result (λ names. names.items ≡ front.front_names (program_of program.now) of) }
{
    let mut names = Vec::new(alloc);
    add_front(alloc, program, of, &mut names)?;
    Ok(names)
}

/// The names of the fixed locals of a unit.
pub fn fixed_names(alloc: Global, program: &Program, of: Unit) -> Result<Vec<Ident>, Memory>
    ensures { IfOk result (λ names. names.items ≡ local.fixed_names (program_of program.now) of) }
{
    let mut names = Vec::new(alloc);
    add_front(alloc, program, of, &mut names)?;
    add_state(alloc, program, &mut names)?;
    add_old(alloc, program, &mut names)?;
    add_zeros(alloc, program, &mut names)?;
    let first = first_other(program, of);
    add_numbered(alloc, first, other_types(program, of), &mut names)?;
    Ok(names)
}

/// The name of a unit's procedure.
pub fn unit_name(alloc: Global, program: &Program, of: Unit) -> Result<Ident, Memory>
    ensures { IfOk result (λ name. name ≡ procedure.unit_name (program_of program.now) of) }
{
    match of {
        Unit::Method(n) => match method_at(program, n) {
            Some(method) => fronted(alloc, b"M$", &method.name),
            None => Ok(Ident::empty()),
        },
        Unit::Predicate(n) => match predicate_at(program, n) {
            Some(predicate) => fronted(alloc, b"P$", &predicate.name),
            None => Ok(Ident::empty()),
        },
    }
}
