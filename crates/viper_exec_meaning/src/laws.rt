//! Worked examples of executions, each as the contract of a function that does nothing.

ghost use Rattle.std.specs.Prelude.{◌≡◌, pos, []};
ghost use Rattle.vb_base.specs.declared.labels.Kind.TheVariants as kind;
ghost use Rattle.vb_value.specs.Bound.{Bound};
ghost use Rattle.viper_meaning.specs.Run.{Goes, Fails, ran, on};
ghost use Rattle.viper_exec_meaning.specs.Execution.{Still, Spent, execution};
ghost use Rattle.viper_exec_meaning.specs.Worked.{adding, at_4_23, at_5_1, beginning_at, holding};

/// A method calls another twice, whose body runs each time on the state as it is: the call loses no permission, and adds to the field.
/// A budget of two is enough for it, and with a budget of one the second call finds nothing left. Where the body adds too much, its
/// own postcondition fails, at the place of its body.
pub fn a_method_calls_twice()
    ensures enough { (b : Bound) → on (execution b (adding (pos 1)) 1 (beginning_at (pos 4)) 2) [] ≡ ran [] (Goes (Still 0 (holding (pos 6)))) [] }
    ensures spent { (b : Bound) → on (execution b (adding (pos 1)) 1 (beginning_at (pos 4)) 1) [] ≡ ran [] (Goes Spent) [] }
    ensures fails { (b : Bound) → on (execution b (adding (pos 2)) 1 (beginning_at (pos 4)) 2) []
        ≡ ran [] (Fails (record { at = at_5_1; part = at_4_23; kind = kind.Fact })) [] }
{}
