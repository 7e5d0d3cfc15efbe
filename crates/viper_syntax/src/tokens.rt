// The tokens of Viper, and the faults of a text that has no tokens.
ghost use Rattle.std.specs.Prelude.{◌≡◌};
ghost use Rattle.viper_syntax.specs.declared.tokens.LexFault.TheVariants.{Memory};

use std::alloc::AllocFailed;
use vb_base::{Ident, Literal, Pos};

/// A token with the place of its first byte.
#[derive(Drop)]
pub struct Token {
    pub tok: Tok,
    pub pos: Pos,
}

/// What a token is.
#[derive(Drop)]
pub enum Tok {
    /// A letter, `_` or `$`, then any of these, digits and `'`; none of the words, and no refused word.
    Name(Ident),
    /// The value of a row of digits, from 0 to 2^127 - 1.
    Number(Literal),
    Word(Word),
    Sign(Sign),
}

/// The words: what has the form of a name and is none. Each is spelled as its variant, in the case that the
/// language has (`Int` to `Perm` begin with a capital, all others are small letters).
#[derive(Clone, Copy, Debug, PartialEq, Eq)]
pub enum Word {
    Field,
    Predicate,
    Method,
    Returns,
    Requires,
    Ensures,
    Invariant,
    Var,
    New,
    If,
    Elseif,
    Else,
    While,
    Inhale,
    Exhale,
    Assert,
    Assume,
    Fold,
    Unfold,
    Unfolding,
    In,
    Acc,
    Old,
    Null,
    True,
    False,
    Write,
    None,
    Wildcard,
    Int,
    Bool,
    Ref,
    Perm,
}

/// The signs.
#[derive(Clone, Copy, Debug, PartialEq, Eq)]
pub enum Sign {
    /// `(`
    OpenParen,
    /// `)`
    CloseParen,
    /// `{`
    OpenBrace,
    /// `}`
    CloseBrace,
    /// `[`
    OpenBracket,
    /// `]`
    CloseBracket,
    /// `,`
    Comma,
    /// `;`
    Semicolon,
    /// `.`
    Dot,
    /// `:`
    Colon,
    /// `:=`
    Assign,
    /// `?`
    Question,
    /// `<==>`
    Iff,
    /// `==>`
    Implies,
    /// `||`
    Or,
    /// `&&`
    And,
    /// `==`
    Equal,
    /// `!=`
    NotEqual,
    /// `<=`
    AtMost,
    /// `>=`
    AtLeast,
    /// `<`
    Less,
    /// `>`
    Greater,
    /// `+`
    Plus,
    /// `-`
    Minus,
    /// `*`
    Star,
    /// `/`
    Slash,
    /// `\`
    Backslash,
    /// `%`
    Percent,
    /// `!`
    Not,
}

/// Why a text has no tokens. The first three come at the first place where the cut of the bytes meets one; then
/// the next three are tried in their order over the whole list of tokens.
#[derive(Clone, Copy, Debug, PartialEq, Eq)]
pub enum LexFault {
    /// A byte at which no token, blank or comment begins.
    BadByte(Pos),
    /// A `/*` with no later `*/`.
    OpenComment(Pos),
    /// A number above 2^127 - 1, at its first digit.
    BigLiteral(Pos),
    /// The first `{` with which more than `MAX_UNCLOSED_BRACES` are unclosed.
    Braces(Pos),
    /// The first token with which a group, the tokens between two dividers, has more than `MAX_GROUP_TOKENS`.
    LongGroup(Pos),
    /// The first word that is Viper's and none of this subset.
    Unsupported(Pos),
    /// Memory was refused.
    Memory,
}

impl From<vb_base::Memory> for LexFault {
    ghost from_gives = { λ _ e. e ≡ Memory };

    fn from(_: vb_base::Memory) -> LexFault {
        LexFault::Memory
    }
}

impl<T: Drop> From<AllocFailed<T>> for LexFault {
    ghost from_gives = { λ _ e. e ≡ Memory };

    fn from(_: AllocFailed<T>) -> LexFault {
        LexFault::Memory
    }
}
