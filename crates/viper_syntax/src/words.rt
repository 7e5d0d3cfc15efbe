// The words of Viper, by their bytes.
ghost use Rattle.std.specs.Prelude.{◌≡◌, ◌≢◌, MatchOption, find, map};
ghost use Rattle.std.specs.List.{list_any};
ghost use Rattle.std.specs.Str.{bytes_eq};
ghost use Rattle.vb_base.specs.Names.{refused_words};
ghost use Rattle.viper_syntax.specs.declared.tokens.Word.{Word};
ghost use Rattle.viper_syntax.specs.Spelling.{word_text};
ghost use Rattle.viper_syntax.specs.First.{words_from, refused_words_from};

use crate::Word;
use crate::signs::byte_at;

/// The bytes of a word.
fn word_text(word: Word) -> &'static [u8]
    ensures { result.now ≡ word_text word }
{
    match word {
        Word::Field => b"field",
        Word::Predicate => b"predicate",
        Word::Method => b"method",
        Word::Returns => b"returns",
        Word::Requires => b"requires",
        Word::Ensures => b"ensures",
        Word::Invariant => b"invariant",
        Word::Var => b"var",
        Word::New => b"new",
        Word::If => b"if",
        Word::Elseif => b"elseif",
        Word::Else => b"else",
        Word::While => b"while",
        Word::Inhale => b"inhale",
        Word::Exhale => b"exhale",
        Word::Assert => b"assert",
        Word::Assume => b"assume",
        Word::Fold => b"fold",
        Word::Unfold => b"unfold",
        Word::Unfolding => b"unfolding",
        Word::In => b"in",
        Word::Acc => b"acc",
        Word::Old => b"old",
        Word::Null => b"null",
        Word::True => b"true",
        Word::False => b"false",
        Word::Write => b"write",
        Word::None => b"none",
        Word::Wildcard => b"wildcard",
        Word::Int => b"Int",
        Word::Bool => b"Bool",
        Word::Ref => b"Ref",
        Word::Perm => b"Perm",
    }
}

/// The words that begin with this byte.
fn words_from(first: u8) -> &'static [Word]
    ensures { result.now ≡ words_from first }
{
    match first {
        b'f' => &[Word::Field, Word::Fold, Word::False],
        b'p' => &[Word::Predicate],
        b'm' => &[Word::Method],
        b'r' => &[Word::Returns, Word::Requires],
        b'e' => &[Word::Ensures, Word::Elseif, Word::Else, Word::Exhale],
        b'i' => &[Word::Invariant, Word::If, Word::Inhale, Word::In],
        b'v' => &[Word::Var],
        b'n' => &[Word::New, Word::Null, Word::None],
        b'w' => &[Word::While, Word::Write, Word::Wildcard],
        b'a' => &[Word::Assert, Word::Assume, Word::Acc],
        b'u' => &[Word::Unfold, Word::Unfolding],
        b'o' => &[Word::Old],
        b't' => &[Word::True],
        b'I' => &[Word::Int],
        b'B' => &[Word::Bool],
        b'R' => &[Word::Ref],
        b'P' => &[Word::Perm],
        _ => &[],
    }
}

/// The refused words that begin with this byte.
fn refused_words_from(first: u8) -> &'static [&'static [u8]]
    ensures { map (λ w. w.now) result.now ≡ refused_words_from first }
{
    match first {
        b'f' => &[b"function", b"forall", b"forperm"],
        b'd' => &[b"domain", b"define", b"decreases"],
        b'a' => &[b"axiom", b"apply", b"applying"],
        b'u' => &[b"unique"],
        b'i' => &[b"import"],
        b'l' => &[b"label", b"let"],
        b'g' => &[b"goto"],
        b'e' => &[b"exists", b"epsilon"],
        b'p' => &[b"perm", b"package"],
        b'S' => &[b"Seq", b"Set"],
        b'M' => &[b"Multiset", b"Map"],
        b'R' => &[b"Rational"],
        b'r' => &[b"refute"],
        _ => &[],
    }
}

/// The word with these bytes, if any.
pub(crate) fn word_of(name: &[u8]) -> Option<Word>
    ensures { MatchOption result ((w : Word) → name.now ≢ word_text w) (λ w. name.now ≡ word_text w) }
{
    word_among(words_from(byte_at(name, 0)), name)
}

/// Whether these bytes are a refused word.
pub(crate) fn is_refused_word(name: &[u8]) -> bool
    ensures { result ≡ list_any (bytes_eq name.now) refused_words }
{
    is_among(refused_words_from(byte_at(name, 0)), name)
}

/// Whether these bytes are one of the words.
fn is_among(words: &[&[u8]], name: &[u8]) -> bool
    ensures { result ≡ list_any (λ w. bytes_eq name.now w.now) words.now }
{
    words.iter().any(|word| name == *word)
}

/// The first of these words that has these bytes.
fn word_among(words: &[Word], name: &[u8]) -> Option<Word>
    ensures { result ≡ find (λ w. bytes_eq name.now (word_text w)) words.now }
{
    words.iter().copied().find(|word| name == word_text(*word))
}
