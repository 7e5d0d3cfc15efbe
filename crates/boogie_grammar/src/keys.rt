// The key by which the names of a text are hashed.
use crate::{Lexeme, PlacedLexeme};
use symbol_table::{Digest, NameKey};

/// A key that comes of all names among these tokens.
pub fn key_of(tokens: &[PlacedLexeme]) -> NameKey {
    let mut digest = Digest::new();
    for token in tokens {
        if let Lexeme::Name(name) = &token.tok {
            digest.add(name.bytes());
        }
    }
    digest.key()
}
