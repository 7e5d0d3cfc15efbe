// The variables of a method while its statements are typed.
ghost use Rattle.std.specs.Prelude.{◌≡◌, IfOk, None, OnOk, length};
ghost use Rattle.viper_scope.specs.Answers.{Answers};
ghost use Rattle.viper_types.specs.Answers.{frame_of, target_of};
ghost use Rattle.viper_scope.specs.Context.{find};
ghost use Rattle.viper_types.specs.Declaring.{no_frame};
ghost use Rattle.viper_types.specs.Frame as f;
ghost use Rattle.viper_scope.specs.Types as types;
ghost use Rattle.viper_types.specs.Stepping as s;

use std::alloc::Global;
use vb_base::{Ident, Memory, Pos};
use vb_value::Ty;
use viper_scope::{Rule, RuleFault, Variable, VariableScope, World, next_number, type_of};
use viper_syntax::Formal;

/// The variables of a method so far.
#[derive(Drop)]
pub struct MethodVariables {
    /// The types of all variables, by their numbers.
    pub vars: Vec<Ty>,
    /// Those that are visible.
    pub scope: VariableScope,
}

/// A variable that takes a value, and the place of its name.
#[derive(Clone, Copy)]
pub struct AssignedVariable {
    pub number: u32,
    pub ty: Ty,
    pub at: Pos,
}

impl MethodVariables {
    /// No variables. Their names are hashed as those of the declarations.
    pub fn new(alloc: Global, world: &World) -> MethodVariables
        ensures { frame_of result ≡ no_frame }
    {
        MethodVariables {
            vars: Vec::new(alloc),
            scope: VariableScope::new(alloc, world.roles.key()),
        }
    }

    /// Adds a variable of a new name, which has the next number.
    pub fn declare(&mut self, name: &Ident, ty: Ty, is_parameter: bool) -> Result<(), Memory>
        requires { find self.old.scope name.now ≡ None }
        ensures { OnOk result (frame_of self.new ≡ f.with_variable (frame_of self.old) name.now ty is_parameter) }
    {
        let number = self.next_number()?;
        self.vars.push(ty)?;
        let variable = Variable {
            number,
            ty,
            is_parameter,
        };
        self.scope.declare(name, variable)
    }

    /// The number of the next variable. With 2^32 variables there is none left.
    pub fn next_number(&self) -> Result<u32, Memory>
        ensures { IfOk result (λ n. n ≡ length self.now.vars.items) }
    {
        next_number(self.vars.len())
    }

    /// The variable that a declaration makes.
    pub fn fresh(&self, formal: &Formal) -> Result<AssignedVariable, RuleFault>
        ensures answers { Answers target_of (s.fresh (frame_of self.now) formal.now) result }
        ensures typed { IfOk result (λ v. v.ty ≡ types.declared_type formal.now) }
        ensures is_new { OnOk result (find self.now.scope formal.now.name.name ≡ None) }
    {
        let at = formal.name.pos;
        if self.scope.find(&formal.name.name).is_some() {
            return Err(RuleFault::Broken(at, Rule::DeclaredTwice));
        }
        let Some(ty) = type_of(formal.ty) else {
            return Err(RuleFault::Broken(at, Rule::WrongType));
        };
        let number = self.next_number()?;
        Ok(AssignedVariable { number, ty, at })
    }
}
