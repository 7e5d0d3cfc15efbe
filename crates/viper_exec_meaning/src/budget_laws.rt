//! Laws of the budget of an execution, each as the contract of a function that does nothing.

ghost use Rattle.std.specs.Prelude.{◌≡◌, ◌+◌, ◌<◌, ℕ, false, List};
ghost use Rattle.vb_value.specs.Bound.{Bound};
ghost use Rattle.vb_value.specs.declared.values.Value.{Value};
ghost use Rattle.viper_core.specs.Program.{Program, Method, Body};
ghost use Rattle.viper_state.specs.Choice.{Choice};
ghost use Rattle.viper_state.specs.Run.{Opening};
ghost use Rattle.viper_state.specs.State.{State};
ghost use Rattle.viper_meaning.specs.Run.{on};
ghost use Rattle.viper_exec_meaning.specs.Budget.{is_spent, with_more_still};
ghost use Rattle.viper_exec_meaning.specs.Execution.{bodies_within, exec};

/// The budget only cuts. Where an execution did not spend its budget, it ends the same with a greater one: with the same events, the
/// same end and the same choices left, and with so much more of the budget.
pub fn a_budget_only_cuts()
    ensures { (b : Bound) (program : Program) (m : Method) (body : Body) (o : Opening) (n more : ℕ) (choices : List Choice)
        → is_spent (on (exec b program m body o n) choices) ≡ false
        → on (exec b program m body o (n + more)) choices ≡ with_more_still more (on (exec b program m body o n) choices) }
{}

/// Bodies that may nest deeper than the budget lasts change nothing.
pub fn deeper_bodies_change_nothing()
    ensures { (b : Bound) (program : Program) (depth more : ℕ) (m : Method) (body : Body) (given : List Value) (old : State) (n : ℕ)
        → n < depth → bodies_within b program depth m body given old n ≡ bodies_within b program (depth + more) m body given old n }
{}
