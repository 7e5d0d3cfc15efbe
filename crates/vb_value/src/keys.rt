//! The keys of instances: lists of arguments.

ghost use Rattle.std.specs.Prelude.{◌≡◌, ◌∷◌, []};
ghost use Rattle.std.specs.Cmp.{partial_order_from_agreeing_total, partial_equiv_from_equiv, eq_by_cmp_equiv};
ghost use Rattle.std.specs.Ordering.{as_partial_cmp, eq_by_cmp};
ghost use Rattle.std.proofs.Common.{refl};
ghost use Rattle.vb_value.specs.Key.{key_cmp};
ghost use Rattle.vb_value.specs.KeyOrder.{key_cmp_total};

use std::alloc::AllocError;
use std::cmp::Ordering;
use std::marker::Model;
use std::slice;

/// An argument of a predicate. Ints and Refs are in the order of numbers, false is before true, and
/// parts of different variants are in the order of the variants.
#[derive(Clone, Copy, Debug, PartialEq, Eq, PartialOrd, Ord)]
pub enum KeyPart {
    Int(i128),
    Bool(bool),
    Ref(u64),
}

/// The arguments of an instance, seen as their list. Keys are compared part by part from the first
/// on, and a list is before its extensions.
#[derive(Debug, Drop)]
pub struct Key {
    parts: KeyPartList,
}

/// Nearly all keys have one part, which stands in the key itself and takes no memory of its own.
#[derive(Debug, Drop)]
enum KeyPartList {
    One(KeyPart),
    Listed(Vec<KeyPart>),
}

impl Model for Key {
    ghost use Rattle.std.specs.Prelude.{List};
    ghost use Rattle.vb_value.specs.declared.keys.KeyPart.{KeyPart};

    ghost Value = { List KeyPart };

    ghost use Rattle.vb_value.specs.KeyParts.{list_of};

    ghost view = { λ k. list_of k.parts };
}

impl Key {
    /// The key of these parts. Where there is one, their memory is given back.
    pub fn new(parts: Vec<KeyPart>) -> Key
        ensures { result ≡ parts.items }
    {
        if parts.len() == 1 {
            return Key::of_one(parts[0]);
        }
        Key {
            parts: KeyPartList::Listed(parts),
        }
    }

    /// The key of one part. It takes no memory.
    pub fn of_one(part: KeyPart) -> Key
        ensures { result ≡ part ∷ [] }
    {
        Key {
            parts: KeyPartList::One(part),
        }
    }

    /// The parts from the first on.
    pub fn parts(&self) -> &[KeyPart]
        ensures { result.now ≡ self.now }
    {
        match &self.parts {
            KeyPartList::One(part) => slice::from_ref(part),
            KeyPartList::Listed(parts) => parts,
        }
    }
}

impl Clone for Key {
    ghost is_clone = { λ x y. y ≡ x };

    fn clone(&self) -> Result<Key, AllocError> {
        match &self.parts {
            KeyPartList::One(part) => Ok(Key::of_one(*part)),
            KeyPartList::Listed(parts) => Ok(Key {
                parts: KeyPartList::Listed(parts.clone()?),
            }),
        }
    }
}

impl PartialEq for Key {
    ghost eq = { eq_by_cmp key_cmp };

    ghost laws = { partial_equiv_from_equiv (eq_by_cmp_equiv key_cmp_total) };

    fn eq(&self, other: &Key) -> bool {
        self.cmp(other).is_eq()
    }
}

impl Eq for Key {
    ghost laws = { eq_by_cmp_equiv key_cmp_total };
}

impl PartialOrd for Key {
    ghost partial_cmp = { as_partial_cmp key_cmp };

    ghost laws = { partial_order_from_agreeing_total key_cmp key_cmp_total (λ _ _. refl) (λ _ _. refl) };

    fn partial_cmp(&self, other: &Key) -> Option<Ordering> {
        Some(self.cmp(other))
    }
}

impl Ord for Key {
    ghost cmp = { key_cmp };

    ghost total = { key_cmp_total };

    ghost matches_partial_cmp = { λ _ _. refl };

    ghost matches_eq = { λ _ _. refl };

    fn cmp(&self, other: &Key) -> Ordering {
        match (&self.parts, &other.parts) {
            (KeyPartList::One(part), KeyPartList::One(other_part)) => part.cmp(other_part),
            _ => self.parts().cmp(other.parts()),
        }
    }
}
