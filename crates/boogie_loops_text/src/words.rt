// The words that are reserved here besides those of the other programs, one at a time.
ghost use Rattle.std.specs.Prelude.{◌≡◌, ◌<◌, ◌↔◌, length, IsTrue, IfSome, MatchOption};
ghost use Rattle.boogie_grammar.specs.Greedy.{IsNot, Starts};
ghost use Rattle.boogie_grammar.specs.Tests.{the_name};
ghost use Rattle.boogie_loops_text.specs.Words.{spelled_as};

use boogie_grammar::{Lexeme, PlacedLexeme};
use vb_base::same_bytes;

/// A word that is reserved here, though not in the other programs.
#[derive(Clone, Copy)]
pub(crate) enum WideWord {
    While,
    Call,
    Invariant,
    Requires,
    Ensures,
    Returns,
}

/// How a word is spelled.
pub(crate) fn spelled_as(word: WideWord) -> &'static [u8]
    ensures { result.now ≡ spelled_as word }
{
    match word {
        WideWord::While => b"while",
        WideWord::Call => b"call",
        WideWord::Invariant => b"invariant",
        WideWord::Requires => b"requires",
        WideWord::Ensures => b"ensures",
        WideWord::Returns => b"returns",
    }
}

/// The tokens after this word, if it is next.
pub(crate) fn eat_wide(wanted: WideWord, tokens: &[PlacedLexeme]) -> Option<&[PlacedLexeme]>
    ensures shorter { IfSome result (λ r. length r.now < length tokens.now) }
    ensures eats { MatchOption result (IsNot (the_name (spelled_as wanted)) tokens.now) (λ r. Starts (the_name (spelled_as wanted)) tokens.now tt r.now) }
{
    let (first, rest) = tokens.split_first()?;
    match &first.tok {
        Lexeme::Name(name) if same_bytes(name.bytes(), spelled_as(wanted)) => Some(rest),
        _ => None,
    }
}
