// The signs, by their bytes.
ghost use Rattle.std.specs.Prelude.{◌≡◌, [], ◌∷◌, slice_index};
ghost use Rattle.boogie_grammar.specs.Pieces.{sign_at};
ghost use Rattle.boogie_grammar.specs.Words.{sign_text};

use crate::BSign;

/// The longest sign with which a text begins.
pub fn sign_at(text: &[u8]) -> Option<BSign>
    ensures { result ≡ sign_at text.now }
{
    sign_of(
        byte_at(text, 0),
        byte_at(text, 1),
        byte_at(text, 2),
        byte_at(text, 3),
    )
}

/// The longest sign with which these four bytes begin. A 0 stands for a byte past the end, since no sign has it.
fn sign_of(first: u8, second: u8, third: u8, fourth: u8) -> Option<BSign>
    ensures { result ≡ sign_at (first ∷ second ∷ third ∷ fourth ∷ []) }
{
    Some(match first {
        b'(' => BSign::OpenParen,
        b')' => BSign::CloseParen,
        b'{' => BSign::OpenBrace,
        b'}' => BSign::CloseBrace,
        b'[' => BSign::OpenBracket,
        b']' => BSign::CloseBracket,
        b',' => BSign::Comma,
        b';' => BSign::Semicolon,
        b':' if second == b':' => BSign::Bounds,
        b':' if second == b'=' => BSign::Assign,
        b':' => BSign::Colon,
        b'<' if second == b'=' && third == b'=' && fourth == b'>' => BSign::Iff,
        b'<' if second == b'=' => BSign::AtMost,
        b'<' => BSign::Less,
        b'=' if second == b'=' && third == b'>' => BSign::Implies,
        b'=' if second == b'=' => BSign::Equal,
        b'|' if second == b'|' => BSign::Or,
        b'&' if second == b'&' => BSign::And,
        b'!' if second == b'=' => BSign::NotEqual,
        b'!' => BSign::Not,
        b'>' if second == b'=' => BSign::AtLeast,
        b'>' => BSign::Greater,
        b'+' => BSign::Plus,
        b'-' => BSign::Minus,
        b'*' => BSign::Star,
        b'/' => BSign::Slash,
        _ => return None,
    })
}

/// The byte at an index, or 0 past the end.
fn byte_at(bytes: &[u8], index: usize) -> u8
    ensures { result ≡ slice_index bytes.now index }
{
    bytes.get(index).copied().unwrap_or(0)
}

/// How a sign is spelled.
pub fn sign_text(sign: BSign) -> &'static [u8]
    ensures { result.now ≡ sign_text sign }
{
    match sign {
        BSign::OpenParen => b"(",
        BSign::CloseParen => b")",
        BSign::OpenBrace => b"{",
        BSign::CloseBrace => b"}",
        BSign::OpenBracket => b"[",
        BSign::CloseBracket => b"]",
        BSign::Comma => b",",
        BSign::Semicolon => b";",
        BSign::Colon => b":",
        BSign::Bounds => b"::",
        BSign::Assign => b":=",
        BSign::Iff => b"<==>",
        BSign::Implies => b"==>",
        BSign::Or => b"||",
        BSign::And => b"&&",
        BSign::Equal => b"==",
        BSign::NotEqual => b"!=",
        BSign::AtMost => b"<=",
        BSign::AtLeast => b">=",
        BSign::Less => b"<",
        BSign::Greater => b">",
        BSign::Plus => b"+",
        BSign::Minus => b"-",
        BSign::Star => b"*",
        BSign::Slash => b"/",
        BSign::Not => b"!",
    }
}
