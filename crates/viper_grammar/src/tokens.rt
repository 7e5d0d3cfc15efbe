// One token at a time: whether the next one is of a kind, and what it holds.
ghost use Rattle.std.specs.Prelude.{◌≡◌, ◌<◌, ◌≤◌, length, IfOk, IfSome, MatchOption, IsTrue, ◌↔◌, ℕ};
ghost use Rattle.viper_grammar.specs.Grammar.{the_word, the_sign, Starts};
ghost use Rattle.viper_grammar.specs.Greedy.{IsNot, Takes};
ghost use Rattle.viper_grammar.specs.Tests.{a_name, a_number, one_of, a_negation, an_operator, level_of, is_negation, belongs};

use crate::parts::WordClass;
use grammar::Stop;
use vb_base::{Memory, Pos};
use viper_syntax::{Named, Sign, Tok, Token, Word};

/// What was read, and the tokens that are left.
pub type ViperRead<'a, T> = grammar::Read<'a, Token, T>;

fn same_sign(a: Sign, b: Sign) -> bool
    ensures { IsTrue result ↔ (a ≡ b) }
{
    a == b
}

fn same_word(a: Word, b: Word) -> bool
    ensures { IsTrue result ↔ (a ≡ b) }
{
    a == b
}

/// The place of this sign, if it is next, and the tokens after it.
pub fn eat_sign<'a>(wanted: Sign, tokens: &'a [Token]) -> Option<(Pos, &'a [Token])>
    ensures shorter { IfSome result (λ p. length p.1.now < length tokens.now) }
    ensures eats { MatchOption result (IsNot (the_sign wanted) tokens.now) (λ p. Starts (the_sign wanted) tokens.now p.0 p.1.now) }
{
    let (first, rest) = tokens.split_first()?;
    match first.tok {
        Tok::Sign(sign) if same_sign(sign, wanted) => Some((first.pos, rest)),
        _ => None,
    }
}

/// The place of this word, if it is next, and the tokens after it.
pub fn eat_word<'a>(wanted: Word, tokens: &'a [Token]) -> Option<(Pos, &'a [Token])>
    ensures shorter { IfSome result (λ p. length p.1.now < length tokens.now) }
    ensures eats { MatchOption result (IsNot (the_word wanted) tokens.now) (λ p. Starts (the_word wanted) tokens.now p.0 p.1.now) }
{
    let (first, rest) = tokens.split_first()?;
    match first.tok {
        Tok::Word(word) if same_word(word, wanted) => Some((first.pos, rest)),
        _ => None,
    }
}

/// The next word, if it is of this class, and the tokens after it.
pub fn eat_one_of<'a>(class: WordClass, tokens: &'a [Token]) -> Option<((Word, Pos), &'a [Token])>
    ensures shorter { IfSome result (λ p. length p.1.now < length tokens.now) }
    ensures eats { MatchOption result (IsNot (one_of class) tokens.now) (λ p. Starts (one_of class) tokens.now p.0 p.1.now) }
{
    let (first, rest) = tokens.split_first()?;
    match first.tok {
        Tok::Word(word) if is_of(class, word) => Some(((word, first.pos), rest)),
        _ => None,
    }
}

/// Whether a word is of a class.
fn is_of(class: WordClass, word: Word) -> bool
    ensures { result ≡ belongs class word }
{
    match class {
        WordClass::Type => matches!(word, Word::Int | Word::Bool | Word::Ref | Word::Perm),
        WordClass::Constant => matches!(
            word,
            Word::True | Word::False | Word::Null | Word::Write | Word::None | Word::Wildcard
        ),
        WordClass::Check => matches!(
            word,
            Word::Inhale | Word::Exhale | Word::Assert | Word::Assume
        ),
        WordClass::Clause => matches!(word, Word::Requires | Word::Ensures),
    }
}

/// A copy of the next name, if one is next, and the tokens after it.
pub fn eat_name(tokens: &[Token]) -> Result<Option<(Named, &[Token])>, Memory>
    ensures shorter { IfOk result (λ r. IfSome r (λ p. length p.1.now < length tokens.now)) }
    ensures eats { IfOk result (λ r. MatchOption r (IsNot a_name tokens.now) (λ p. Starts a_name tokens.now p.0 p.1.now)) }
{
    let Some((first, rest)) = tokens.split_first() else {
        return Ok(None);
    };
    match &first.tok {
        Tok::Name(name) => {
            let name = name.copy()?;
            Ok(Some((
                Named {
                    name,
                    pos: first.pos,
                },
                rest,
            )))
        }
        _ => Ok(None),
    }
}

/// The next number, if one is next, and the tokens after it.
pub fn eat_number(tokens: &[Token]) -> Option<((i128, Pos), &[Token])>
    ensures shorter { IfSome result (λ p. length p.1.now < length tokens.now) }
    ensures eats { MatchOption result (IsNot a_number tokens.now) (λ p. Starts a_number tokens.now p.0 p.1.now) }
{
    let (first, rest) = tokens.split_first()?;
    match &first.tok {
        Tok::Number(value) => Some(((value.value(), first.pos), rest)),
        _ => None,
    }
}

/// Whether a sign is `!` or `-`.
fn is_negation(sign: Sign) -> bool
    ensures { result ≡ is_negation sign }
{
    matches!(sign, Sign::Not | Sign::Minus)
}

/// A `!` or `-`, if one is next, and the tokens after it.
pub fn eat_negation(tokens: &[Token]) -> Option<((Sign, Pos), &[Token])>
    ensures shorter { IfSome result (λ p. length p.1.now < length tokens.now) }
    ensures eats { MatchOption result (IsNot a_negation tokens.now) (λ p. Starts a_negation tokens.now p.0 p.1.now) }
{
    let (first, rest) = tokens.split_first()?;
    match first.tok {
        Tok::Sign(sign) if is_negation(sign) => Some(((sign, first.pos), rest)),
        _ => None,
    }
}

/// The next operator, if it is of level n, and the tokens after it.
pub fn eat_operator(n: u32, tokens: &[Token]) -> Option<((Sign, Pos), &[Token])>
    ensures shorter { IfSome result (λ p. length p.1.now < length tokens.now) }
    ensures eats { MatchOption result (IsNot (an_operator n) tokens.now) (λ p. Starts (an_operator n) tokens.now p.0 p.1.now) }
{
    let (first, rest) = tokens.split_first()?;
    match first.tok {
        Tok::Sign(sign) if is_at_level(n, sign) => Some(((sign, first.pos), rest)),
        _ => None,
    }
}

/// Whether a sign is a binary operator of level n.
fn is_at_level(n: u32, sign: Sign) -> bool
    ensures { IsTrue result ↔ ((level_of sign ≡ n) × (1 ≤ n)) }
{
    n > 0 && level_of(sign) == n
}

/// The level of a binary operator, from 1 for the tightest to 8; 0 for every other sign.
fn level_of(sign: Sign) -> u32
    ensures { result ≡ level_of sign }
{
    match sign {
        Sign::Star | Sign::Slash | Sign::Backslash | Sign::Percent => 1,
        Sign::Plus | Sign::Minus => 2,
        Sign::Less | Sign::AtMost | Sign::Greater | Sign::AtLeast => 3,
        Sign::Equal | Sign::NotEqual => 4,
        Sign::And => 5,
        Sign::Or => 6,
        Sign::Implies => 7,
        Sign::Iff => 8,
        _ => 0,
    }
}

/// The place of this sign, which must be next.
pub fn sign<'a>(wanted: Sign, tokens: &'a [Token]) -> ViperRead<'a, Pos>
    ensures shorter { IfOk result (λ p. length p.1.now < length tokens.now) }
    ensures takes { Takes (the_sign wanted) tokens.now result }
{
    match eat_sign(wanted, tokens) {
        Some(eaten) => Ok(eaten),
        None => Err(Stop::Before(tokens)),
    }
}

/// The place of this word, which must be next.
pub fn word<'a>(wanted: Word, tokens: &'a [Token]) -> ViperRead<'a, Pos>
    ensures shorter { IfOk result (λ p. length p.1.now < length tokens.now) }
    ensures takes { Takes (the_word wanted) tokens.now result }
{
    match eat_word(wanted, tokens) {
        Some(eaten) => Ok(eaten),
        None => Err(Stop::Before(tokens)),
    }
}

/// A word of this class, which must be next.
pub fn one_of<'a>(class: WordClass, tokens: &'a [Token]) -> ViperRead<'a, (Word, Pos)>
    ensures shorter { IfOk result (λ p. length p.1.now < length tokens.now) }
    ensures takes { Takes (one_of class) tokens.now result }
{
    match eat_one_of(class, tokens) {
        Some(eaten) => Ok(eaten),
        None => Err(Stop::Before(tokens)),
    }
}

/// A name, which must be next.
pub fn name(tokens: &[Token]) -> ViperRead<'_, Named>
    ensures shorter { IfOk result (λ p. length p.1.now < length tokens.now) }
    ensures takes { Takes a_name tokens.now result }
{
    match eat_name(tokens)? {
        Some(eaten) => Ok(eaten),
        None => Err(Stop::Before(tokens)),
    }
}
