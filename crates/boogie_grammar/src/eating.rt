// One token at a time: whether the next one is of a kind, and what it holds.
ghost use Rattle.std.specs.Prelude.{◌≡◌, ◌<◌, ◌↔◌, find, length, IsTrue, IfOk, IfSome, MatchOption};
ghost use Rattle.std.specs.Str.{bytes_eq};
ghost use Rattle.boogie_tree.specs.declared.exprs.BBase.{BBase};
ghost use Rattle.boogie_tree.specs.declared.exprs.BOp.{BOp};
ghost use Rattle.boogie_grammar.specs.declared.tokens.Lexeme.TheVariants as tok;
ghost use Rattle.boogie_grammar.specs.Greedy.{IsNot, Starts, Takes};
ghost use Rattle.boogie_grammar.specs.Printed.{base_text};
ghost use Rattle.boogie_grammar.specs.Step.{sign_operator};
ghost use Rattle.boogie_grammar.specs.Tests.{the_sign, the_word, the_name, a_number, a_real, a_label, a_base, a_key, an_operator};
ghost use Rattle.boogie_grammar.specs.Words.{word_text, operator_tok};

use crate::{BSign, BoogieWord, Lexeme, PlacedLexeme};
use boogie_tree::{BBase, BOp, is_key};
use grammar::Stop;
use vb_base::{Ident, Label, same_bytes};

/// What was read, and the tokens that are left.
pub type BoogieRead<'a, T> = grammar::Read<'a, PlacedLexeme, T>;

fn same_sign(a: BSign, b: BSign) -> bool
    ensures { IsTrue result ↔ (a ≡ b) }
{
    a == b
}

/// The tokens after this sign, if it is next.
pub fn eat_sign(wanted: BSign, tokens: &[PlacedLexeme]) -> Option<&[PlacedLexeme]>
    ensures shorter { IfSome result (λ r. length r.now < length tokens.now) }
    ensures eats { MatchOption result (IsNot (the_sign wanted) tokens.now) (λ r. Starts (the_sign wanted) tokens.now tt r.now) }
{
    let (first, rest) = tokens.split_first()?;
    match first.tok {
        Lexeme::Sign(sign) if same_sign(sign, wanted) => Some(rest),
        _ => None,
    }
}

/// The tokens after this sign, which must be next.
pub fn need_sign<'a>(wanted: BSign, tokens: &'a [PlacedLexeme]) -> BoogieRead<'a, ()>
    ensures shorter { IfOk result (λ p. length p.1.now < length tokens.now) }
    ensures takes { Takes (the_sign wanted) tokens.now result }
{
    match eat_sign(wanted, tokens) {
        Some(rest) => Ok(((), rest)),
        None => Err(Stop::Before(tokens)),
    }
}

/// How a word is spelled.
pub(crate) fn word_text(word: BoogieWord) -> &'static [u8]
    ensures { result.now ≡ word_text word }
{
    match word {
        BoogieWord::Procedure => b"procedure",
        BoogieWord::Var => b"var",
        BoogieWord::Havoc => b"havoc",
        BoogieWord::Assume => b"assume",
        BoogieWord::Assert => b"assert",
        BoogieWord::If => b"if",
        BoogieWord::Then => b"then",
        BoogieWord::Else => b"else",
        BoogieWord::Forall => b"forall",
        BoogieWord::True => b"true",
        BoogieWord::False => b"false",
        BoogieWord::Int => b"int",
        BoogieWord::Bool => b"bool",
        BoogieWord::Real => b"real",
        BoogieWord::Div => b"div",
        BoogieWord::Mod => b"mod",
        BoogieWord::Ref => b"Ref",
        BoogieWord::Null => b"null",
        BoogieWord::Snap => b"Snap",
        BoogieWord::SUnit => b"sUnit",
        BoogieWord::SInt => b"sInt",
        BoogieWord::SBool => b"sBool",
        BoogieWord::SRef => b"sRef",
        BoogieWord::SPerm => b"sPerm",
        BoogieWord::SPair => b"sPair",
        BoogieWord::Msg => b"msg",
    }
}

/// The tokens after this word, if it is next.
pub fn eat_word(wanted: BoogieWord, tokens: &[PlacedLexeme]) -> Option<&[PlacedLexeme]>
    ensures shorter { IfSome result (λ r. length r.now < length tokens.now) }
    ensures eats { MatchOption result (IsNot (the_word wanted) tokens.now) (λ r. Starts (the_word wanted) tokens.now tt r.now) }
{
    let (first, rest) = tokens.split_first()?;
    match &first.tok {
        Lexeme::Name(name) if same_bytes(name.bytes(), word_text(wanted)) => Some(rest),
        _ => None,
    }
}

/// The tokens after this word, which must be next.
pub fn need_word<'a>(wanted: BoogieWord, tokens: &'a [PlacedLexeme]) -> BoogieRead<'a, ()>
    ensures shorter { IfOk result (λ p. length p.1.now < length tokens.now) }
    ensures takes { Takes (the_word wanted) tokens.now result }
{
    match eat_word(wanted, tokens) {
        Some(rest) => Ok(((), rest)),
        None => Err(Stop::Before(tokens)),
    }
}

/// The next number, if one is next, and the tokens after it.
pub fn eat_number(tokens: &[PlacedLexeme]) -> Option<(i128, &[PlacedLexeme])>
    ensures shorter { IfSome result (λ p. length p.1.now < length tokens.now) }
    ensures eats { MatchOption result (IsNot a_number tokens.now) (λ p. Starts a_number tokens.now p.0 p.1.now) }
{
    let (first, rest) = tokens.split_first()?;
    match &first.tok {
        Lexeme::Number(value) => Some((value.value(), rest)),
        _ => None,
    }
}

/// The digits of the next real literal, if one is next, and the tokens after it.
pub fn eat_real(tokens: &[PlacedLexeme]) -> Option<(i128, &[PlacedLexeme])>
    ensures shorter { IfSome result (λ p. length p.1.now < length tokens.now) }
    ensures eats { MatchOption result (IsNot a_real tokens.now) (λ p. Starts a_real tokens.now p.0 p.1.now) }
{
    let (first, rest) = tokens.split_first()?;
    match &first.tok {
        Lexeme::Real(value) => Some((value.value(), rest)),
        _ => None,
    }
}

/// The label of the next text, which must be next, and the tokens after it.
pub fn need_label(tokens: &[PlacedLexeme]) -> BoogieRead<'_, Label>
    ensures shorter { IfOk result (λ p. length p.1.now < length tokens.now) }
    ensures takes { Takes a_label tokens.now result }
{
    match tokens.split_first() {
        Some((first, rest)) => match &first.tok {
            Lexeme::Text(label) => Ok((*label, rest)),
            _ => Err(Stop::Before(tokens)),
        },
        None => Err(Stop::Before(tokens)),
    }
}

const BASES: [BBase; 5] = [
    BBase::Int,
    BBase::Bool,
    BBase::Ref,
    BBase::Real,
    BBase::Snap,
];

/// The word of a type.
pub fn base_text(base: BBase) -> &'static [u8]
    ensures { result.now ≡ base_text base }
{
    match base {
        BBase::Int => b"int",
        BBase::Bool => b"bool",
        BBase::Ref => b"Ref",
        BBase::Real => b"real",
        BBase::Snap => b"Snap",
    }
}

/// The type that has this word, if one has.
fn base_of(bytes: &[u8]) -> Option<BBase>
    ensures { MatchOption result ((u : BBase) → bytes.now ≡ base_text u → ⊥) (λ u. bytes.now ≡ base_text u) }
{
    base_among(&BASES, bytes)
}

/// The first of these types that has this word.
fn base_among(bases: &[BBase], bytes: &[u8]) -> Option<BBase>
    ensures { result ≡ find (λ u. bytes_eq bytes.now (base_text u)) bases.now }
{
    bases
        .iter()
        .copied()
        .find(|base| same_bytes(bytes, base_text(*base)))
}

/// A type, which must be next, and the tokens after it.
pub fn need_base(tokens: &[PlacedLexeme]) -> BoogieRead<'_, BBase>
    ensures shorter { IfOk result (λ p. length p.1.now < length tokens.now) }
    ensures takes { Takes a_base tokens.now result }
{
    match eat_base(tokens) {
        Some(eaten) => Ok(eaten),
        None => Err(Stop::Before(tokens)),
    }
}

fn eat_base(tokens: &[PlacedLexeme]) -> Option<(BBase, &[PlacedLexeme])>
    ensures shorter { IfSome result (λ p. length p.1.now < length tokens.now) }
    ensures eats { MatchOption result (IsNot a_base tokens.now) (λ p. Starts a_base tokens.now p.0 p.1.now) }
{
    let (first, rest) = tokens.split_first()?;
    match &first.tok {
        Lexeme::Name(name) => {
            let base = base_of(name.bytes())?;
            Some((base, rest))
        }
        _ => None,
    }
}

/// The operator that a sign is, if it is one.
fn sign_operator(sign: BSign) -> Option<BOp>
    ensures { result ≡ sign_operator sign }
{
    Some(match sign {
        BSign::Iff => BOp::Iff,
        BSign::Implies => BOp::Implies,
        BSign::Or => BOp::Or,
        BSign::And => BOp::And,
        BSign::Equal => BOp::Eq,
        BSign::NotEqual => BOp::Ne,
        BSign::Less => BOp::Lt,
        BSign::AtMost => BOp::Le,
        BSign::Greater => BOp::Gt,
        BSign::AtLeast => BOp::Ge,
        BSign::Plus => BOp::Add,
        BSign::Minus => BOp::Sub,
        BSign::Star => BOp::Mul,
        BSign::Slash => BOp::Divide,
        _ => return None,
    })
}

/// The operator that a word is, if it is one.
fn word_operator(bytes: &[u8]) -> Option<BOp>
    ensures { MatchOption result ((o : BOp) → tok.Name bytes.now ≡ operator_tok o → ⊥) (λ o. tok.Name bytes.now ≡ operator_tok o) }
{
    if same_bytes(bytes, b"div") {
        Some(BOp::IntDiv)
    } else if same_bytes(bytes, b"mod") {
        Some(BOp::IntMod)
    } else {
        None
    }
}

/// A type of keys, which must be next, and the tokens after it.
pub fn need_key(tokens: &[PlacedLexeme]) -> BoogieRead<'_, BBase>
    ensures shorter { IfOk result (λ p. length p.1.now < length tokens.now) }
    ensures takes { Takes a_key tokens.now result }
{
    match eat_key(tokens) {
        Some(eaten) => Ok(eaten),
        None => Err(Stop::Before(tokens)),
    }
}

fn eat_key(tokens: &[PlacedLexeme]) -> Option<(BBase, &[PlacedLexeme])>
    ensures shorter { IfSome result (λ p. length p.1.now < length tokens.now) }
    ensures eats { MatchOption result (IsNot a_key tokens.now) (λ p. Starts a_key tokens.now p.0 p.1.now) }
{
    let (base, rest) = eat_base(tokens)?;
    if is_key(base) {
        Some((base, rest))
    } else {
        None
    }
}

/// The operator that a token is, if it is one.
fn operator_of(tok: &Lexeme) -> Option<BOp>
    ensures { MatchOption result ((o : BOp) → tok.now ≡ operator_tok o → ⊥) (λ o. tok.now ≡ operator_tok o) }
{
    match tok {
        Lexeme::Sign(sign) => sign_operator(*sign),
        Lexeme::Name(name) => word_operator(name.bytes()),
        _ => None,
    }
}

/// An operator, which must be next, and the tokens after it.
pub fn need_operator(tokens: &[PlacedLexeme]) -> BoogieRead<'_, BOp>
    ensures shorter { IfOk result (λ p. length p.1.now < length tokens.now) }
    ensures takes { Takes an_operator tokens.now result }
{
    match eat_operator(tokens) {
        Some(eaten) => Ok(eaten),
        None => Err(Stop::Before(tokens)),
    }
}

fn eat_operator(tokens: &[PlacedLexeme]) -> Option<(BOp, &[PlacedLexeme])>
    ensures shorter { IfSome result (λ p. length p.1.now < length tokens.now) }
    ensures eats { MatchOption result (IsNot an_operator tokens.now) (λ p. Starts an_operator tokens.now p.0 p.1.now) }
{
    let (first, rest) = tokens.split_first()?;
    let op = operator_of(&first.tok)?;
    Some((op, rest))
}

/// The tokens after this name, if it is next.
pub fn eat_given_name<'a>(name: &Ident, tokens: &'a [PlacedLexeme]) -> Option<&'a [PlacedLexeme]>
    ensures shorter { IfSome result (λ r. length r.now < length tokens.now) }
    ensures eats { MatchOption result (IsNot (the_name name.now) tokens.now) (λ r. Starts (the_name name.now) tokens.now tt r.now) }
{
    let wanted: &[u8] = name.bytes();
    let (first, rest) = tokens.split_first()?;
    match &first.tok {
        Lexeme::Name(other) if same_bytes(other.bytes(), wanted) => Some(rest),
        _ => None,
    }
}

/// The tokens after this name, which must be next.
pub fn need_given_name<'a>(name: &Ident, tokens: &'a [PlacedLexeme]) -> BoogieRead<'a, ()>
    ensures shorter { IfOk result (λ p. length p.1.now < length tokens.now) }
    ensures takes { Takes (the_name name.now) tokens.now result }
{
    match eat_given_name(name, tokens) {
        Some(rest) => Ok(((), rest)),
        None => Err(Stop::Before(tokens)),
    }
}
