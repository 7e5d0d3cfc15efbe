// The bytes of signs.
ghost use Rattle.std.specs.Prelude.{◌≡◌, find};
ghost use Rattle.std.specs.Str.{bytes_eq};
ghost use Rattle.boogie_grammar.specs.Words.{sign_text};
ghost use Rattle.boogie_text.specs.PublicTokens.{sign_of};

use boogie_grammar::BSign;
use boogie_grammar::signs::sign_text;

/// The signs.
const SIGNS: [BSign; 26] = [
    BSign::Iff,
    BSign::Implies,
    BSign::Or,
    BSign::And,
    BSign::Equal,
    BSign::NotEqual,
    BSign::AtMost,
    BSign::AtLeast,
    BSign::Assign,
    BSign::Bounds,
    BSign::OpenParen,
    BSign::CloseParen,
    BSign::OpenBrace,
    BSign::CloseBrace,
    BSign::OpenBracket,
    BSign::CloseBracket,
    BSign::Comma,
    BSign::Semicolon,
    BSign::Colon,
    BSign::Less,
    BSign::Greater,
    BSign::Plus,
    BSign::Minus,
    BSign::Star,
    BSign::Slash,
    BSign::Not,
];

/// The sign that has these bytes.
pub(crate) fn sign_of(bytes: &[u8]) -> Option<BSign>
    ensures { result ≡ sign_of bytes.now }
{
    sign_among(&SIGNS, bytes)
}

/// The first of these signs that has these bytes.
fn sign_among(signs: &[BSign], bytes: &[u8]) -> Option<BSign>
    ensures { result ≡ find (λ o. bytes_eq bytes.now (sign_text o)) signs.now }
{
    signs.iter().copied().find(|sign| bytes == sign_text(*sign))
}
