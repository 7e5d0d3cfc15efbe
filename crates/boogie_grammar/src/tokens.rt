// The tokens of Boogie after the prelude.
use vb_base::{Ident, Label, Literal, Pos};

/// A sign.
#[derive(Clone, Copy, PartialEq, Eq)]
pub enum BSign {
    OpenParen,
    CloseParen,
    OpenBrace,
    CloseBrace,
    OpenBracket,
    CloseBracket,
    Comma,
    Semicolon,
    Colon,
    /// `::`
    Bounds,
    /// `:=`
    Assign,
    /// `<==>`
    Iff,
    /// `==>`
    Implies,
    /// `||`
    Or,
    /// `&&`
    And,
    /// `==`
    Equal,
    /// `!=`
    NotEqual,
    /// `<=`
    AtMost,
    /// `>=`
    AtLeast,
    Less,
    Greater,
    Plus,
    Minus,
    Star,
    Slash,
    Not,
}

/// A word of the grammar. As a token it is a name.
#[derive(Clone, Copy)]
pub enum BoogieWord {
    Procedure,
    Var,
    Havoc,
    Assume,
    Assert,
    If,
    Then,
    Else,
    Forall,
    True,
    False,
    Int,
    Bool,
    Real,
    Div,
    Mod,
    Ref,
    Null,
    Snap,
    SUnit,
    SInt,
    SBool,
    SRef,
    SPerm,
    SPair,
    /// `msg`, which is not reserved.
    Msg,
}

/// What a token of the grammar is.
#[derive(Drop)]
pub enum Lexeme {
    /// A name or a word.
    Name(Ident),
    Number(Literal),
    /// A real literal: the digits before its `.0`.
    Real(Literal),
    /// The text of a label between quotes.
    Text(Label),
    Sign(BSign),
}

/// A token of the grammar at its place.
#[derive(Drop)]
pub struct PlacedLexeme {
    pub tok: Lexeme,
    pub pos: Pos,
}
