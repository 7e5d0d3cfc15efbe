// What a term is typed in.
ghost use Rattle.std.specs.Prelude.{◌≡◌};
ghost use Rattle.std.specs.Option.{option_map};
ghost use Rattle.viper_scope.specs.Answers.{world_of, numbered_signature_of, numbered_method_of};
ghost use Rattle.viper_scope.specs.Context as c;

use crate::names::DeclaredNames;
use vb_base::Ident;
use vb_value::Ty;
use viper_core::Assertion;

/// What a name of the shared space stands for: its number among those of its kind.
#[derive(Clone, Copy)]
pub enum Role {
    Field(u32),
    Predicate(u32),
    Method(u32),
}

/// The part of a unit that a term stands in.
#[derive(Clone, Copy)]
pub enum UnitPart {
    /// The body of a predicate.
    Body,
    /// A `requires` clause.
    Precondition,
    /// A method's body, or an `ensures` clause.
    Elsewhere,
}

/// A variable in scope.
#[derive(Clone, Copy)]
pub struct Variable {
    pub number: u32,
    pub ty: Ty,
    pub is_parameter: bool,
}

/// A predicate's parameters, and whether it has a body.
#[derive(Drop)]
pub struct PredicateSignature {
    pub params: Vec<Ty>,
    pub has_body: bool,
}

/// A method's parameters and returns.
#[derive(Drop)]
pub struct MethodTypes {
    pub params: Vec<Ty>,
    pub returns: Vec<Ty>,
}

/// The declarations of a file.
#[derive(Drop)]
pub struct World {
    pub roles: DeclaredNames<Role>,
    pub fields: Vec<Ty>,
    pub predicates: Vec<PredicateSignature>,
    pub methods: Vec<MethodTypes>,
}

/// What stays the same in a part of a unit: the declarations, the typed bodies of the predicates, the part, and whether the
/// lists of `new` and of loops are made.
#[derive(Clone, Copy)]
pub struct Context<'a> {
    pub world: &'a World,
    pub bodies: &'a [Option<Assertion>],
    pub part: UnitPart,
    pub lists: bool,
}

impl UnitPart {
    /// Whether this is a `requires` clause.
    pub fn is_precondition(self) -> bool
        ensures { result ≡ c.is_precondition self }
    {
        matches!(self, UnitPart::Precondition)
    }
}

impl World {
    /// The field of this name, with its number.
    pub fn field(&self, name: &Ident) -> Option<(u32, Ty)>
        ensures { result ≡ c.field_at (world_of self.now) name.now }
    {
        let Some(Role::Field(n)) = self.roles.find(name) else {
            return None;
        };
        Some((n, *self.fields.get(n as usize)?))
    }

    /// The predicate of this name, with its number.
    pub fn predicate(&self, name: &Ident) -> Option<(u32, &PredicateSignature)>
        ensures { option_map numbered_signature_of result ≡ c.predicate_at (world_of self.now) name.now }
    {
        let Some(Role::Predicate(n)) = self.roles.find(name) else {
            return None;
        };
        Some((n, self.predicates.get(n as usize)?))
    }

    /// The method of this name, with its number.
    pub fn method(&self, name: &Ident) -> Option<(u32, &MethodTypes)>
        ensures { option_map numbered_method_of result ≡ c.method_at (world_of self.now) name.now }
    {
        let Some(Role::Method(n)) = self.roles.find(name) else {
            return None;
        };
        Some((n, self.methods.get(n as usize)?))
    }
}
