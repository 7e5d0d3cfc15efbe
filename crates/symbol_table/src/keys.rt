// The key by which names are hashed.
ghost use Rattle.core.specs.Hash.DefaultHasher.{with_keys};

use core::hash::keyed_hasher;
use std::hash::{BuildHasher, DefaultHasher, Hasher};

/// The key of a map of names: each name is hashed by SipHash with it.
#[derive(Clone, Copy)]
pub struct NameKey {
    first: u64,
    second: u64,
}

impl BuildHasher for NameKey {
    type Hasher = DefaultHasher;

    ghost build_hasher = { λ key. with_keys key.first key.second };

    fn build_hasher(&self) -> DefaultHasher {
        keyed_hasher(self.first, self.second)
    }
}

/// A digest of what is read, part by part.
#[derive(Clone, Copy)]
pub struct Digest {
    state: DefaultHasher,
}

impl Digest {
    /// That of no part.
    pub fn new() -> Digest {
        Digest {
            state: DefaultHasher::new(),
        }
    }

    /// One part more: its bytes, eight at a time, and with the last of them how many they are.
    pub fn add(&mut self, part: &[u8]) {
        let (front, back) = part.split_at(part.len() / 8 * 8);
        self.state.write(front);
        self.state
            .write_u64(word(back) | (part.len() as u64 & 0xff) << 56);
    }

    /// The key that comes of all parts.
    pub fn key(self) -> NameKey {
        let mut further = self.state;
        further.write_u8(1);
        NameKey {
            first: self.state.finish(),
            second: further.finish(),
        }
    }
}

/// Fewer than eight bytes as one number.
fn word(bytes: &[u8]) -> u64 {
    let mut word = 0;
    for byte in bytes {
        word = word << 8 | u64::from(*byte);
    }
    word
}
