//! Laws of what an opening sets, each as the contract of a function that does nothing.

ghost use Rattle.std.specs.Prelude.{◌≡◌, ◌≤◌, ℕ, List, Option, Some, fold, length, map, slice_get, slice_set};
ghost use Rattle.std.specs.Option.{option_map};
ghost use Rattle.viper_core.specs.Formed.{IsFormed};
ghost use Rattle.viper_core.specs.Program.{Program};
ghost use Rattle.viper_core.specs.declared.programs.Unit.{Unit};
ghost use Rattle.viper_state.specs.Run.{Opening};
ghost use Rattle.viper_meaning.specs.Units.{Opens};
ghost use Rattle.boogie_tree.specs.Program.{BType, Local};
ghost use Rattle.boogie_tree.specs.Value.{BSetting, BValue};
ghost use Rattle.boogie_meaning.specs.Programs.{default_value};
ghost use Rattle.enc_expr.specs.Front.{front_names, front_values, settings};
ghost use Rattle.enc_locals.specs.Opened.{start_settings};
ghost use Rattle.enc_units.specs.Units.{started, unit_procedure};

/// What an opening sets in the procedure of a unit, each value with the name of its variable, is what `settings` says: the names of
/// the first locals, each with its value.
pub fn settings_are_by_name()
    ensures as_many { (p : Program) (u : Unit) (o : Opening) → IsFormed p → length (front_values o) ≡ length (front_names p u)
        → map {B = Option (List ℕ) × BValue}
        (λ (s : BSetting). (option_map (λ (l : Local). l.name) (slice_get (unit_procedure p u).locals s.var), s.value)) (start_settings o)
        ≡ map {B = Option (List ℕ) × BValue} (λ (x : List ℕ × BValue). (Some x.0, x.1)) (settings p u o) }

    // an opening of the unit has as many
    ensures opened { (p : Program) (n : ℕ) (u : Unit) (o : Opening) → IsFormed p → slice_get p.units n ≡ Some u → Opens p n o
        → map {B = Option (List ℕ) × BValue}
        (λ (s : BSetting). (option_map (λ (l : Local). l.name) (slice_get (unit_procedure p u).locals s.var), s.value)) (start_settings o)
        ≡ map {B = Option (List ℕ) × BValue} (λ (x : List ℕ × BValue). (Some x.0, x.1)) (settings p u o) }
{}

/// To give variables of some types, which have their defaults, what an opening sets, one after the other, is to begin with the
/// values of the opening, and defaults behind them.
pub fn a_run_begins_with_its_settings()
    ensures { (ts : List BType) (o : Opening) → length (front_values o) ≤ length ts
        → fold (λ (env : List BValue) (s : BSetting). slice_set env s.var s.value) (map default_value ts) (start_settings o)
        ≡ started ts (front_values o) }
{}
