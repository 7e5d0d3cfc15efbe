// The names of a file, and the types of what they stand for.
ghost use Rattle.std.specs.Prelude.{◌≡◌, IfOk, None, OnOk, map};
ghost use Rattle.std.specs.Option.{option_map};
ghost use Rattle.vb_base.specs.declared.places.Pos.{Pos};
ghost use Rattle.viper_syntax.specs.Decl as d;
ghost use Rattle.viper_syntax.specs.View.{decl_of, method_of, term_of};
ghost use Rattle.viper_scope.specs.Answers.{Answers, world_of};
ghost use Rattle.viper_scope.specs.Context.{find};
ghost use Rattle.viper_scope.specs.Naming as j;
ghost use Rattle.viper_scope.specs.Types as f;

use crate::context::{MethodTypes, PredicateSignature, Role, World};
use crate::keys::key_of;
use crate::names::DeclaredNames;
use crate::rules::{Rule, RuleFault};
use crate::types::declared_type;
use std::alloc::Global;
use symbol_table::NameKey;
use vb_base::Memory;
use vb_value::Ty;
use viper_syntax::{Decl, Formal, Named, SMethod, Term};

/// The number of the next one of a kind. With 2^32 of them there is none left.
pub fn next_number(count: usize) -> Result<u32, Memory>
    ensures { IfOk result (λ n. n ≡ count) }
{
    u32::try_from(count).map_err(|_| Memory)
}

/// The types of formals, in order.
pub fn types_in(alloc: Global, formals: &[Formal]) -> Result<Vec<Ty>, Memory>
    ensures { IfOk result (λ v. v.items ≡ map f.declared_type formals.now) }
{
    let mut types = Vec::with_capacity(alloc, formals.len())?;
    for formal in formals {
        types.push(declared_type(formal))?;
    }
    Ok(types)
}

/// The name that a declaration declares.
fn decl_name(decl: &Decl) -> &Named
    ensures { result.now ≡ j.decl_name (decl_of decl.now) }
{
    match decl {
        Decl::Field(formal) => &formal.name,
        Decl::Predicate(_, name, _, _) => name,
        Decl::Method(method) => &method.name,
    }
}

impl World {
    /// No declarations. Their names are hashed by this key.
    pub fn new(alloc: Global, key: NameKey) -> World
        ensures { world_of result ≡ j.no_world }
    {
        World {
            roles: DeclaredNames::new(alloc, key),
            fields: Vec::new(alloc),
            predicates: Vec::new(alloc),
            methods: Vec::new(alloc),
        }
    }

    fn add_field(&mut self, field: &Formal) -> Result<(), Memory>
        requires { find self.old.roles field.now.name.name ≡ None }
        ensures { OnOk result (world_of self.new ≡ j.with_decl (world_of self.old) (d.Field field.now)) }
    {
        let role = Role::Field(next_number(self.fields.len())?);
        self.fields.push(declared_type(field))?;
        self.roles.declare(&field.name.name, role)
    }

    fn add_predicate(
        &mut self,
        alloc: Global,
        name: &Named,
        params: &[Formal],
        body: &Option<Term>,
    ) -> Result<(), Memory>
        requires { find self.old.roles name.now.name ≡ None }
        ensures { OnOk result ((at : Pos) → world_of self.new ≡ j.with_decl (world_of self.old) (d.Predicate at name.now params.now (option_map term_of body.now))) }
    {
        let role = Role::Predicate(next_number(self.predicates.len())?);
        self.predicates.push(PredicateSignature {
            params: types_in(alloc, params)?,
            has_body: body.is_some(),
        })?;
        self.roles.declare(&name.name, role)
    }

    fn add_method(&mut self, alloc: Global, method: &SMethod) -> Result<(), Memory>
        requires { find self.old.roles method.now.name.name ≡ None }
        ensures { OnOk result (world_of self.new ≡ j.with_decl (world_of self.old) (d.Method (method_of method.now))) }
    {
        let role = Role::Method(next_number(self.methods.len())?);
        self.methods.push(MethodTypes {
            params: types_in(alloc, &method.params)?,
            returns: types_in(alloc, &method.returns)?,
        })?;
        self.roles.declare(&method.name.name, role)
    }

    /// Adds a declaration of a new name, which has the next number of its kind.
    fn declare(&mut self, alloc: Global, decl: &Decl) -> Result<(), Memory>
        requires { find self.old.roles (j.decl_name (decl_of decl.now)).name ≡ None }
        ensures { OnOk result (world_of self.new ≡ j.with_decl (world_of self.old) (decl_of decl.now)) }
    {
        match decl {
            Decl::Field(field) => self.add_field(field),
            Decl::Predicate(_, name, params, body) => self.add_predicate(alloc, name, params, body),
            Decl::Method(method) => self.add_method(alloc, method),
        }
    }
}

/// Adds declarations, whose names must be new.
fn declare_all(world: &mut World, alloc: Global, decls: &[Decl]) -> Result<(), RuleFault>
    ensures { Answers (λ _. world_of world.new) (j.naming (world_of world.old) (map decl_of decls.now)) result }
{
    for decl in decls {
        let name = decl_name(decl);
        if world.roles.find(&name.name).is_some() {
            return Err(RuleFault::Broken(name.pos, Rule::DeclaredTwice));
        }
        world.declare(alloc, decl)?;
    }
    Ok(())
}

/// The declarations of a file, whose names are all different.
pub fn naming(alloc: Global, decls: &[Decl]) -> Result<World, RuleFault>
    ensures { Answers world_of (j.naming j.no_world (map decl_of decls.now)) result }
{
    let mut world = World::new(alloc, key_of(decls));
    declare_all(&mut world, alloc, decls)?;
    Ok(world)
}
