//! Laws of what files spell, each as the contract of a function that does nothing.

ghost use Rattle.std.specs.Prelude.{◌≡◌, ℕ, List, Some, slice_get};
ghost use Rattle.viper_core.specs.Program as viper;
ghost use Rattle.viper_core.specs.declared.programs.Unit.TheVariants as unit;
ghost use Rattle.viper_exec_meaning.specs.Execution.{CanExecute};
ghost use Rattle.boogie_tree.specs.Program.{BProgram, Proc};
ghost use Rattle.boogie_tree.specs.Value.{BRun};
ghost use Rattle.boogie_print.specs.Read.{IsRead};
ghost use Rattle.boogie_run.specs.Start.{CanRun, IsWithinProgram};
ghost use Rattle.run_file.specs.Run.{ViperRun, SpellsViperRun};
ghost use Rattle.run_file_boogie.specs.BoogieRun.{SpellsBoogieRun};

/// No literal of a program of Boogie that is read is outside the bound of runs.
pub fn what_is_read_is_within()
    ensures { (bytes : List ℕ) (program : BProgram) → IsRead bytes program → IsWithinProgram program }
{}

/// A run that a file spells for a procedure can be run: each variable begins with a value of its type, fractions are in lowest
/// terms, and numbers are within the bound.
pub fn what_a_file_spells_can_be_run()
    ensures { (bytes : List ℕ) (d : Proc) (run : BRun) → SpellsBoogieRun bytes d run → CanRun d run }
{}

/// A run that a file spells for the unit of a method opens an execution of the method, where this has a body.
pub fn what_opens_a_method_can_be_executed()
    ensures { (bytes : List ℕ) (program : viper.Program) (n k : ℕ) (m : viper.Method) (body : viper.Body) (run : ViperRun)
        → slice_get program.units n ≡ Some (unit.Method k) → slice_get program.methods k ≡ Some m → m.body ≡ Some body
        → SpellsViperRun bytes program n run → CanExecute program k run.opening }
{}
