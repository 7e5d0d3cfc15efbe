//! The law of the translation, as the contract of a function that does nothing.

ghost use Rattle.viper_core.specs.Formed.{IsFormed};
ghost use Rattle.viper_core.specs.Program.{Program};
ghost use Rattle.enc_units.specs.Translates.{text_of, Translates};

/// The text of each formed program is a translation of it: it spells one program of Boogie, with a procedure for each method and
/// for each predicate with a body, which is well-typed, can be read back, and fails exactly where the program does.
pub fn the_text_is_a_translation()
    ensures { (p : Program) → IsFormed p → Translates p (text_of p) }
{}
