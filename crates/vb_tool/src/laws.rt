// Laws of the definitions, each the contract of a function with nothing to do.
ghost use Rattle.std.specs.Prelude.{◌≡◌, ◌≤◌, ℕ, List, Contains, Option, Some, slice_get};
ghost use Rattle.boogie_run.specs.Start.{outcome_of};
ghost use Rattle.boogie_run.specs.declared.replaying.BOutcome.{BOutcome};
ghost use Rattle.boogie_tree.specs.Program.{Proc, BProgram};
ghost use Rattle.boogie_formula.specs.Value.{Valid};
ghost use Rattle.vb_base.specs.Limits.{max_made_methods};
ghost use Rattle.vb_base.specs.declared.labels.Label.{Label};
ghost use Rattle.vb_gen.specs.Generated.{program_text};
ghost use Rattle.vb_gen_laws.specs.Made.{generated_weight};
ghost use Rattle.vb_outer.specs.Shelf.{Files, IsFile};
ghost use Rattle.vb_value.specs.Bound.{Bound};
ghost use Rattle.vb_value.specs.declared.values.Value.{Value};
ghost use Rattle.viper_core.specs.Program as p;
ghost use Rattle.viper_core.specs.Formed.{IsFormed};
ghost use Rattle.viper_core.specs.Weight.{weight};
ghost use Rattle.viper_core.specs.declared.programs.Unit.{Unit};
ghost use Rattle.viper_state.specs.State.{State};
ghost use Rattle.viper_meaning.specs.Units.{ViperFails};
ghost use Rattle.viper_exec_meaning.specs.Frame.{NoExecutionFails};
ghost use Rattle.viper_exec_subset.specs.Unframed.{first_unframed};
ghost use Rattle.boogie_file.specs.Accepted.{IsBoogie};
ghost use Rattle.boogie_grammar.specs.Spells.{BSpells};
ghost use Rattle.enc_units.specs.Translates.{Translates, text_of};
ghost use Rattle.vb_tool.specs.Units.{name_of};
ghost use Rattle.viper_file.specs.Accepted.{IsAccepted};
ghost use Rattle.vb_tool.specs.Accepted.{AcceptsRun, IsRefusal, IsRunRefusal, HasOneAnswer};
ghost use Rattle.vb_tool.specs.AcceptedCondition.{AcceptsCondition, IsConditionRefusal};
ghost use Rattle.vb_tool.specs.AcceptedCut.{AcceptsCut, IsCutRefusal};
ghost use Rattle.viper_file.specs.Framed.{IsFramed};
ghost use Rattle.vb_tool.specs.AcceptedExecution.{AcceptsExecution, IsExecutionRefusal};
ghost use Rattle.vb_tool.specs.Conditions.{IsCondition};
ghost use Rattle.vb_tool.specs.AcceptedReplay.{AcceptsReplay, IsReplayRefusal};
ghost use Rattle.vb_tool.specs.Procedures.{ProcedureRun, procedure_end};
ghost use Rattle.vb_tool.specs.Call.{Does};
ghost use Rattle.vb_tool.specs.Command.{Command};
ghost use Rattle.vb_tool.specs.Proved.{labels_of, ConditionsHold};
ghost use Rattle.viper_file.specs.Verified.{SatisfiesPrecondition, run_from, RunNeverFails, HasNoFailure};
ghost use Rattle.vb_tool.specs.Verified.{NoProcedureFails, NothingFails};
ghost use Rattle.vb_tool.specs.declared.status.Status.{Status};

/// No two units of a program have one name.
pub fn names_of_units_differ()
    ensures { (q : p.Program) → IsFormed q → (i j : ℕ) (w v : Unit) (name : List ℕ) → slice_get q.units i ≡ Some w → slice_get q.units j ≡ Some v
        → name_of q w ≡ Some name → name_of q v ≡ Some name → i ≡ j }
{}

/// Bytes are accepted for exactly one program, or refused for exactly one reason, and never both. So it is with the bytes of a
/// file and a run file, and the name of a unit, and the run that they are, or the name of a method and its execution; with the
/// bytes of a file of Boogie and a run file, or the name of a procedure; and with the bytes of a file with loops and calls.
pub fn bytes_have_one_answer()
    ensures translate { (bytes : List ℕ) → HasOneAnswer (IsAccepted bytes) (IsRefusal bytes) }
    ensures run { (bytes name run_bytes : List ℕ) → HasOneAnswer (AcceptsRun bytes name run_bytes) (IsRunRefusal bytes name run_bytes) }
    ensures replay { (bytes run_bytes : List ℕ) → HasOneAnswer (AcceptsReplay bytes run_bytes) (IsReplayRefusal bytes run_bytes) }
    ensures exec { (bytes name run_bytes : List ℕ) → HasOneAnswer (AcceptsExecution bytes name run_bytes) (IsExecutionRefusal bytes name run_bytes) }
    ensures vc { (bytes name : List ℕ) → HasOneAnswer (AcceptsCondition bytes name) (IsConditionRefusal bytes name) }
    ensures cut { (bytes : List ℕ) → HasOneAnswer (AcceptsCut bytes) (IsCutRefusal bytes) }
    ensures boogie { (bytes : List ℕ) (q r : BProgram) → IsBoogie bytes q → IsBoogie bytes r → q ≡ r }
{}

/// Each run of a procedure that two files are ends in one of the five outcomes: none is ill-typed.
pub fn a_replay_has_an_outcome()
    ensures { (bytes run_bytes : List ℕ) (u : ProcedureRun) → AcceptsReplay bytes run_bytes u → (o : BOutcome) × (outcome_of (procedure_end u) ≡ Some o) }
{}

/// The files determine what a command does: its status and what it writes.
pub fn a_command_does_one_thing()
    ensures { (files : Option Files) (command : Command) (s t : Status) (text other : List ℕ)
        → Does (IsFile files) command s text → Does (IsFile files) command t other → (s ≡ t) × (text ≡ other) }
{}

/// Each program that is generated is accepted, so `make` refuses a number alone. It weighs 25 for each odd method and 39 for each
/// even one.
pub fn each_made_program_is_accepted()
    ensures { (n : ℕ) → n ≤ max_made_methods → (program : p.Program) × IsAccepted (program_text n) program × (weight program ≡ generated_weight n) }
{}

/// The text that is defined for the program of an accepted file is a translation of it. And where no procedure fails of the program that
/// this text spells, no run of a method or a predicate of the file fails, nor any method from a state that satisfies its precondition.
pub fn each_accepted_file_has_a_translation()
    ensures translates { (bytes : List ℕ) (program : p.Program) → IsAccepted bytes program → Translates program (text_of program) }
    ensures verified { (bytes : List ℕ) (program : p.Program) (boogie : BProgram) → IsAccepted bytes program → BSpells (text_of program) boogie
        → NoProcedureFails boogie → HasNoFailure program }
{}

/// Where no run of a translation's procedures fails, no run of a method or a predicate does, at any label. And no method of an accepted
/// file fails,
/// with the bound or without it, from a state that satisfies its precondition: one whose permissions are exactly those that the
/// precondition denotes, and in which nothing is held where it has no clause.
pub fn where_no_procedure_fails_no_method_does()
    ensures units { (program : p.Program) (bytes : List ℕ) (t : Translates program bytes) → NothingFails t
        → (n : ℕ) (label : Label) → ViperFails program n label → ⊥ }
    ensures methods { (source : List ℕ) (program : p.Program) (bytes : List ℕ) (t : Translates program bytes) → IsAccepted source program
        → NothingFails t → (b : Bound) (k : ℕ) (m : p.Method) (store : List Value) (s : State) → slice_get program.methods k ≡ Some m
        → SatisfiesPrecondition program m store s → RunNeverFails (run_from b program m store s) }
{}

/// Where no run of a translation's procedures fails, no whole execution of the file's methods does, with all that they call and
/// however often loops turn: from any opening that fits, on any choices, within any budget, with the bound or without it.
/// The file has none of the words `wildcard`, `inhale` and `assume`.
pub fn where_no_procedure_fails_no_execution_does()
    ensures { (source : List ℕ) (program : p.Program) (bytes : List ℕ) (t : Translates program bytes) (accepted : IsAccepted source program)
        → first_unframed accepted.tokens ≡ None → NothingFails t → (b : Bound) → NoExecutionFails b program }
{}

/// Where for each procedure of a translation and each label of its assertions the formula that `vc` writes is valid, no procedure has a
/// failing run. So no method and no predicate of the file fails, and no execution of a method, if the file has none of the words
/// `wildcard`, `inhale` and `assume`. A formula for a label that no assertion has is valid in any case, so finitely many are enough.
pub fn where_each_condition_is_valid_nothing_fails()
    ensures procedures { (program : p.Program) (bytes : List ℕ) (t : Translates program bytes) → ConditionsHold t.boogie → NothingFails t }
    ensures units { (source : List ℕ) (program : p.Program) (bytes : List ℕ) (t : Translates program bytes) → IsAccepted source program
        → ConditionsHold t.boogie → HasNoFailure program }
    ensures executions { (source : List ℕ) (program : p.Program) (bytes : List ℕ) (t : Translates program bytes) → IsFramed source program
        → ConditionsHold t.boogie → (b : Bound) → NoExecutionFails b program }
    ensures others { (d : Proc) (label : Label) (text : List ℕ) (c : IsCondition d label text) → (Contains (labels_of d) label → ⊥)
        → Valid c.formula }
{}
