//! The law of the generated programs, as the contract of a function with an empty body.
#![tactic(auto)]

ghost use Rattle.std.specs.Prelude.{ℕ, ◌≤◌};
ghost use Rattle.vb_base.specs.Limits.{max_made_methods, max_weight};
ghost use Rattle.vb_gen_laws.specs.Made.{IsMade, generated_weight};

/// Each generated program is the text of a typed program, within the limits of a file, of its tokens and of
/// weight. So no program that is made is ever refused.
pub fn made_programs()
    ensures made { (n : ℕ) → n ≤ max_made_methods → IsMade n }
    ensures light { (n : ℕ) → n ≤ max_made_methods → generated_weight n ≤ max_weight }
{}
