//! The rules of types, each by what breaks it, and why a part of a file has no type.
ghost use Rattle.std.specs.Prelude.{◌≡◌};
ghost use Rattle.viper_scope.specs.Rules.{number};
ghost use Rattle.viper_scope.specs.declared.rules.RuleFault.TheVariants as fault;

use std::alloc::{AllocError, AllocFailed};
use vb_base::{Memory, Pos};

/// A rule of types, by what breaks it.
#[derive(Clone, Copy, Debug)]
pub enum Rule {
    /// A name that is unknown in its role.
    UnknownName,
    /// A second declaration: in the shared space, among the formals of a method or predicate, or of a visible variable.
    DeclaredTwice,
    /// A wrong type.
    WrongType,
    /// `acc` or an instance inside an expression.
    PermissionInExpression,
    /// `old` in a `requires` clause or in the body of a predicate.
    MisplacedOld,
    /// `wildcard` elsewhere than as the whole amount of an `acc`; in the body of a predicate; in a `fold`, `unfold` or `unfolding`.
    MisplacedWildcard,
    /// `fold`, `unfold` or `unfolding` of a predicate without a body.
    MissingBody,
    /// A parameter as target.
    ParameterAsTarget,
    /// A wrong number of arguments.
    ArgumentCount,
    /// A wrong number of targets, or a field as target of a call or `new`.
    TargetCount,
    /// A target twice.
    TargetTwice,
    /// An `acc` of what is neither a field of a term nor an instance.
    NoResource,
    /// A parameter of a predicate of type Perm.
    PermParameter,
    /// A field twice in a `new`.
    FieldTwice,
    /// A block that is too deep.
    TooDeep,
    /// `unfolding` in the body of a predicate.
    MisplacedUnfolding,
}

impl Rule {
    /// The number under which the rule is told, from 1 to 16.
    pub fn number(self) -> u32
        ensures { result ≡ number self }
    {
        match self {
            Rule::UnknownName => 1,
            Rule::DeclaredTwice => 2,
            Rule::WrongType => 3,
            Rule::PermissionInExpression => 4,
            Rule::MisplacedOld => 5,
            Rule::MisplacedWildcard => 6,
            Rule::MissingBody => 7,
            Rule::ParameterAsTarget => 8,
            Rule::ArgumentCount => 9,
            Rule::TargetCount => 10,
            Rule::TargetTwice => 11,
            Rule::NoResource => 12,
            Rule::PermParameter => 13,
            Rule::FieldTwice => 14,
            Rule::TooDeep => 15,
            Rule::MisplacedUnfolding => 16,
        }
    }
}

/// Why a part of a file has no type.
#[derive(Clone, Copy, Debug)]
pub enum RuleFault {
    /// Memory was refused.
    Memory,
    /// This rule is broken at this place; no rule is broken before it.
    Broken(Pos, Rule),
}

impl From<AllocError> for RuleFault {
    ghost from_gives = { λ _ e. e ≡ fault.Memory };

    fn from(_: AllocError) -> RuleFault {
        RuleFault::Memory
    }
}

impl<T: Drop> From<AllocFailed<T>> for RuleFault {
    ghost from_gives = { λ _ e. e ≡ fault.Memory };

    fn from(_: AllocFailed<T>) -> RuleFault {
        RuleFault::Memory
    }
}

impl From<Memory> for RuleFault {
    ghost from_gives = { λ _ e. e ≡ fault.Memory };

    fn from(_: Memory) -> RuleFault {
        RuleFault::Memory
    }
}
