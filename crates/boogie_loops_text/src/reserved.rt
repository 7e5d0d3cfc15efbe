// New names, which are none of the words.
ghost use Rattle.std.specs.Prelude.{◌≡◌, ◌<◌, ◌++◌, ◌∷◌, [], length, false, IfOk, OnOk};
ghost use Rattle.boogie_grammar.specs.Greedy.{Takes};
ghost use Rattle.boogie_grammar.specs.Tests.{a_new_name};
ghost use Rattle.boogie_grammar.specs.Words.{is_among};
ghost use Rattle.boogie_loops_grammar.specs.Words.{wide_words};
ghost use Rattle.boogie_loops_text.specs.Words.{spelled_as};

use crate::words::{WideWord, spelled_as};
use boogie_grammar::PlacedLexeme;
use boogie_grammar::eating::BoogieRead;
use boogie_grammar::new_names::bound_name;
use boogie_grammar::scopes::{BoogieNames, ExprScope};
use std::alloc::Global;
use std::marker::Model;
use vb_base::{Ident, Memory};

/// The words, as names that no variable and no procedure has.
#[derive(Drop)]
pub(crate) struct Reserved {
    names: BoogieNames,
}

impl Model for Reserved {
    ghost Value = { Unit {0} };

    ghost view = { λ _. tt };

    ghost invariant = { λ x. x.names ≡ wide_words };
}

impl Reserved {
    /// All of them, hashed as these names.
    pub(crate) fn new(alloc: Global, others: &BoogieNames) -> Result<Reserved, Memory> {
        let mut names = BoogieNames::new(alloc, others.key());
        add_word(alloc, &mut names, WideWord::While)?;
        add_word(alloc, &mut names, WideWord::Call)?;
        add_word(alloc, &mut names, WideWord::Invariant)?;
        add_word(alloc, &mut names, WideWord::Requires)?;
        add_word(alloc, &mut names, WideWord::Ensures)?;
        add_word(alloc, &mut names, WideWord::Returns)?;
        Ok(Reserved { names })
    }

    pub(crate) fn names(&self) -> &BoogieNames
        ensures { result.now ≡ wide_words }
    {
        &self.names
    }
}

/// What the parts of a procedure are read with.
#[derive(Clone, Copy)]
pub(crate) struct Within<'a> {
    pub(crate) alloc: Global,
    /// The variables that can be named.
    pub(crate) locals: &'a BoogieNames,
    pub(crate) words: &'a Reserved,
}

/// One word more, which is none of these names.
fn add_word(alloc: Global, names: &mut BoogieNames, word: WideWord) -> Result<(), Memory>
    requires { is_among (spelled_as word) names.now ≡ false }
    ensures { OnOk result (names.new ≡ names.old ++ (spelled_as word ∷ [])) }
{
    names.add(Ident::new(alloc, spelled_as(word))?)?;
    Ok(())
}

/// No bound names.
pub(crate) fn none_bound<'a>() -> &'a [Ident]
    ensures { result.now ≡ [] }
{
    &[]
}

/// A copy of the next name, which must be next, not reserved, none of these and none of the words.
pub(crate) fn new_name<'a>(
    alloc: Global,
    taken: &BoogieNames,
    words: &Reserved,
    tokens: &'a [PlacedLexeme],
) -> BoogieRead<'a, Ident>
    ensures shorter { IfOk result (λ r. length r.1.now < length tokens.now) }
    ensures takes { Takes (a_new_name (taken.now ++ wide_words)) tokens.now result }
{
    let none = BoogieNames::new(alloc, taken.key());
    let scope = ExprScope {
        locals: taken,
        others: words.names(),
        bound: none_bound(),
    };
    bound_name(scope, &none, tokens)
}

/// The same, where it is to be none of two lists of names.
pub(crate) fn newer_name<'a>(
    taken: &BoogieNames,
    others: &BoogieNames,
    words: &Reserved,
    tokens: &'a [PlacedLexeme],
) -> BoogieRead<'a, Ident>
    ensures shorter { IfOk result (λ r. length r.1.now < length tokens.now) }
    ensures takes { Takes (a_new_name ((taken.now ++ others.now) ++ wide_words)) tokens.now result }
{
    let scope = ExprScope {
        locals: taken,
        others,
        bound: none_bound(),
    };
    bound_name(scope, words.names(), tokens)
}
