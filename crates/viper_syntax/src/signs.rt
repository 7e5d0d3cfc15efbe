// The signs of Viper, by their bytes.
ghost use Rattle.std.specs.Prelude.{◌≡◌, [], ◌∷◌, length, slice_index};
ghost use Rattle.viper_syntax.specs.Spelling.{sign_text};
ghost use Rattle.viper_syntax.specs.Longest.{longest_sign};

use crate::Sign;

/// The longest sign with which these four bytes begin. A 0 stands for a byte past the end, since no sign has it.
fn sign_of(first: u8, second: u8, third: u8, fourth: u8) -> Option<Sign>
    ensures { result ≡ longest_sign (first ∷ second ∷ third ∷ fourth ∷ []) }
{
    Some(match first {
        b'(' => Sign::OpenParen,
        b')' => Sign::CloseParen,
        b'{' => Sign::OpenBrace,
        b'}' => Sign::CloseBrace,
        b'[' => Sign::OpenBracket,
        b']' => Sign::CloseBracket,
        b',' => Sign::Comma,
        b';' => Sign::Semicolon,
        b'.' => Sign::Dot,
        b':' if second == b'=' => Sign::Assign,
        b':' => Sign::Colon,
        b'?' => Sign::Question,
        b'<' if second == b'=' && third == b'=' && fourth == b'>' => Sign::Iff,
        b'<' if second == b'=' => Sign::AtMost,
        b'<' => Sign::Less,
        b'=' if second == b'=' && third == b'>' => Sign::Implies,
        b'=' if second == b'=' => Sign::Equal,
        b'|' if second == b'|' => Sign::Or,
        b'&' if second == b'&' => Sign::And,
        b'!' if second == b'=' => Sign::NotEqual,
        b'!' => Sign::Not,
        b'>' if second == b'=' => Sign::AtLeast,
        b'>' => Sign::Greater,
        b'+' => Sign::Plus,
        b'-' => Sign::Minus,
        b'*' => Sign::Star,
        b'/' => Sign::Slash,
        b'\\' => Sign::Backslash,
        b'%' => Sign::Percent,
        _ => return None,
    })
}

/// How many bytes a sign has.
pub(crate) fn sign_len(sign: Sign) -> usize
    ensures { result ≡ length (sign_text sign) }
{
    match sign {
        Sign::Iff => 4,
        Sign::Implies => 3,
        Sign::Assign
        | Sign::Or
        | Sign::And
        | Sign::Equal
        | Sign::NotEqual
        | Sign::AtMost
        | Sign::AtLeast => 2,
        _ => 1,
    }
}

/// The byte at an index, or 0 past the end.
pub(crate) fn byte_at(bytes: &[u8], index: usize) -> u8
    ensures { result ≡ slice_index bytes.now index }
{
    bytes.get(index).copied().unwrap_or(0)
}

/// The longest sign with which the bytes begin.
pub(crate) fn sign_at(bytes: &[u8]) -> Option<Sign>
    ensures { result ≡ longest_sign bytes.now }
{
    sign_of(
        byte_at(bytes, 0),
        byte_at(bytes, 1),
        byte_at(bytes, 2),
        byte_at(bytes, 3),
    )
}
