//! The law of the words of a text, as the contract of a function that does nothing.

ghost use Rattle.viper_exec_subset.specs.Texts.{TextsAreFramed};

/// Where no token is `wildcard`, `inhale` or `assume`, the program that the tokens spell has no amount `wildcard` in a clause or a
/// statement of its methods, and no `inhale`.
pub fn a_text_without_these_words_is_framed()
    ensures { TextsAreFramed }
{}
