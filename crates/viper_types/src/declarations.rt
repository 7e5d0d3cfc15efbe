// The typing of declarations in order.
ghost use Rattle.std.specs.Prelude.{◌≡◌, ◌++◌, ◌∷◌, [], OnOk, length, map};
ghost use Rattle.viper_core.specs.View as core;
ghost use Rattle.viper_syntax.specs.View.{decl_of};
ghost use Rattle.viper_scope.specs.Answers.{Answers, world_of};
ghost use Rattle.viper_types.specs.Answers.{declared_of, optional_bodies_of, parts_of};
ghost use Rattle.viper_types.specs.Declaring as j;
ghost use Rattle.viper_scope.specs.Outcome.{Found, then_typed};

use crate::methods::method;
use crate::predicates::predicate;
use std::alloc::Global;
use vb_base::{Ident, Memory, kept};
use vb_value::{Layout, Ty};
use viper_core::{Assertion, Method, Predicate, Program, Unit};
use viper_scope::{Rule, RuleFault, World, next_number, type_of};
use viper_syntax::{Decl, Formal};

/// A typed declaration.
#[derive(Drop)]
pub enum Declared {
    Field(Ident, Ty),
    Predicate(Predicate),
    Method(Method),
}

/// What the declarations so far are.
#[derive(Drop)]
pub struct DeclaredParts {
    fields: Vec<Ident>,
    types: Vec<Ty>,
    keys: Vec<Vec<Ty>>,
    predicates: Vec<Predicate>,
    methods: Vec<Method>,
    units: Vec<Unit>,
}

/// A field.
fn field(formal: &Formal) -> Result<Declared, RuleFault>
    ensures { Answers declared_of (j.field_typing formal.now) result }
{
    let Some(ty) = type_of(formal.ty) else {
        return Err(RuleFault::Broken(formal.name.pos, Rule::WrongType));
    };
    Ok(Declared::Field(formal.name.name.copy()?, ty))
}

/// A declaration.
fn declaration(
    alloc: Global,
    world: &World,
    bodies: &[Option<Assertion>],
    lists: bool,
    decl: &Decl,
) -> Result<Declared, RuleFault>
    ensures { Answers declared_of (j.decl_typing lists (world_of world.now) (optional_bodies_of bodies.now) (decl_of decl.now)) result }
{
    match decl {
        Decl::Field(formal) => field(formal),
        Decl::Predicate(at, name, params, body) => {
            let predicate = predicate(alloc, world, *at, name, params, body)?;
            Ok(Declared::Predicate(predicate))
        }
        Decl::Method(source) => {
            let method = method(alloc, world, bodies, lists, source)?;
            Ok(Declared::Method(method))
        }
    }
}

impl DeclaredParts {
    /// No declarations.
    fn new(alloc: Global) -> DeclaredParts
        ensures { parts_of result ≡ j.no_program }
    {
        DeclaredParts {
            fields: Vec::new(alloc),
            types: Vec::new(alloc),
            keys: Vec::new(alloc),
            predicates: Vec::new(alloc),
            methods: Vec::new(alloc),
            units: Vec::new(alloc),
        }
    }

    /// Adds what a predicate makes of its parameters, and a unit where it has a body.
    fn announce(&mut self, alloc: Global, predicate: &Predicate) -> Result<(), Memory>
        ensures keys { OnOk result (map (λ v. v.items) self.new.keys.items ≡ map (λ v. v.items) self.old.keys.items ++ (core.predicate_of predicate.now).params ∷ []) }
        ensures units { OnOk result (self.new.units.items ≡ self.old.units.items ++ j.predicate_units (core.predicate_of predicate.now) (length self.old.predicates.items)) }
        ensures rest { OnOk result (self.new ≡ record self.old { keys = self.new.keys; units = self.new.units }) }
    {
        let number = next_number(self.predicates.len())?;
        if predicate.body.is_some() {
            self.units.push(Unit::Predicate(number))?;
        }
        self.keys.push(predicate.params.as_slice().to_vec(alloc)?)?;
        Ok(())
    }

    /// Adds a predicate. One with a body is a unit.
    fn add_predicate(&mut self, alloc: Global, predicate: Predicate) -> Result<(), Memory>
        ensures { OnOk result (parts_of self.new ≡ j.with_declared (parts_of self.old) (j.PredicateOf (core.predicate_of predicate))) }
    {
        let announced = self.announce(alloc, &predicate);
        let ((), predicate) = kept(announced, predicate)?;
        self.predicates.push(predicate)?;
        Ok(())
    }

    /// Adds a declaration.
    fn add(&mut self, alloc: Global, declared: Declared) -> Result<(), Memory>
        ensures { OnOk result (parts_of self.new ≡ j.with_declared (parts_of self.old) (declared_of declared)) }
    {
        match declared {
            Declared::Field(name, ty) => {
                self.fields.push(name)?;
                self.types.push(ty)?;
            }
            Declared::Predicate(predicate) => self.add_predicate(alloc, predicate)?,
            Declared::Method(method) => {
                let number = next_number(self.methods.len())?;
                self.methods.push(method)?;
                self.units.push(Unit::Method(number))?;
            }
        }
        Ok(())
    }

    /// The program of all declarations.
    pub fn program(self) -> Program
        ensures { core.program_of result ≡ parts_of self }
    {
        Program {
            fields: self.fields,
            layout: Layout {
                fields: self.types,
                keys: self.keys,
            },
            predicates: self.predicates,
            methods: self.methods,
            units: self.units,
        }
    }
}

/// Declarations in order. Without `lists` those of `new` and of loops are left empty.
pub fn declarations(
    alloc: Global,
    world: &World,
    bodies: &[Option<Assertion>],
    lists: bool,
    decls: &[Decl],
) -> Result<DeclaredParts, RuleFault>
    ensures { Answers parts_of (then_typed (j.decls_typing lists (world_of world.now) (optional_bodies_of bodies.now) (map decl_of decls.now)) (λ xs. Found (j.assembled j.no_program xs))) result }
{
    let mut parts = DeclaredParts::new(alloc);
    for decl in decls {
        let declared = declaration(alloc, world, bodies, lists, decl)?;
        parts.add(alloc, declared)?;
    }
    Ok(parts)
}
