// Names.
ghost use Rattle.std.specs.Prelude.{◌≡◌, ◌==◌, ◌++◌, ◌∷◌, ◌≤◌, [], IfOk, length};
ghost use Rattle.std.specs.Cmp.{partial_equiv_from_equiv};
ghost use Rattle.std.specs.Cmp.Lexicographic.{bytes_decides, pointwise, nat_list_eq_equiv};
ghost use Rattle.std.proofs.Common.{ap};
ghost use Rattle.vb_base.specs.ShortName.{max_short_name};

use crate::{Memory, same_bytes};
use std::alloc::Global;
use std::hash::{Hash, Hasher};
use std::marker::Model;
use std::rc::Rc;

/// The most bytes of a name that stands in itself, so that a name takes 16 bytes.
const MAX_SHORT_NAME: usize = 14;

/// A name of a program, as its bytes. Contracts see the list of them.
#[derive(Debug, Drop)]
pub struct Ident {
    bytes: NameBytes,
}

/// Most names are short, and take no memory of their own. The copies of a long one share its bytes.
#[derive(Debug, Drop)]
enum NameBytes {
    Short(ShortName),
    Long(Rc<Vec<u8>>),
}

/// The first of its bytes, as many as its length says.
#[derive(Clone, Copy, Debug)]
struct ShortName {
    len: u8,
    bytes: [u8; MAX_SHORT_NAME],
    ghost fits: { len ≤ max_short_name },
}

impl Model for Ident {
    ghost use Rattle.std.specs.Prelude.{List, ℕ};
    ghost use Rattle.vb_base.specs.NameBytes.{bytes_of};

    ghost Value = { List ℕ };

    ghost view = { λ name. bytes_of name.bytes };
}

impl Ident {
    /// The name without a byte.
    pub fn empty() -> Ident
        ensures { result ≡ [] }
    {
        short(&[], &[])
    }

    /// The name of these bytes. `Memory` where there is no memory.
    pub fn new(alloc: Global, bytes: &[u8]) -> Result<Ident, Memory>
        ensures { IfOk result (λ name. name ≡ bytes.now) }
    {
        Ident::joined(alloc, bytes, &[])
    }

    /// The name of these bytes and, behind them, those. `Memory` where there is no memory.
    pub fn joined(alloc: Global, front: &[u8], back: &[u8]) -> Result<Ident, Memory>
        ensures { IfOk result (λ name. name ≡ front.now ++ back.now) }
    {
        if front.len() <= MAX_SHORT_NAME && back.len() <= MAX_SHORT_NAME - front.len() {
            return Ok(short(front, back));
        }
        let mut bytes = front.to_vec(alloc)?;
        bytes.extend_from_slice(back)?;
        let bytes = Rc::new(alloc, bytes)?;
        Ok(Ident {
            bytes: NameBytes::Long(bytes),
        })
    }

    /// Its bytes.
    pub fn bytes(&self) -> &[u8]
        ensures { result.now ≡ self.now }
    {
        match &self.bytes {
            NameBytes::Short(name) => &name.bytes[..usize::from(name.len)],
            NameBytes::Long(bytes) => bytes,
        }
    }

    /// The same name again. `Memory` where there is no memory.
    pub fn copy(&self) -> Result<Ident, Memory>
        ensures { IfOk result (λ name. name ≡ self.now) }
    {
        let bytes = match &self.bytes {
            NameBytes::Short(name) => NameBytes::Short(*name),
            NameBytes::Long(bytes) => NameBytes::Long(Rc::clone(bytes)?),
        };
        Ok(Ident { bytes })
    }
}

/// A name that stands in itself: these bytes, and behind them those.
fn short(front: &[u8], back: &[u8]) -> Ident
    requires { length (front.now ++ back.now) ≤ max_short_name }
    ensures { result ≡ front.now ++ back.now }
{
    let mut bytes = [0; MAX_SHORT_NAME];
    let len = front.len() + back.len();
    bytes[..front.len()].copy_from_slice(front);
    bytes[front.len()..len].copy_from_slice(back);
    Ident {
        bytes: NameBytes::Short(ShortName {
            len: len as u8,
            bytes,
        }),
    }
}

impl PartialEq for Ident {
    ghost eq = { pointwise ◌==◌ };

    ghost laws = { partial_equiv_from_equiv nat_list_eq_equiv };

    fn eq(&self, other: &Ident) -> bool {
        same_bytes(self.bytes(), other.bytes())
    }
}

impl Eq for Ident {
    ghost laws = { nat_list_eq_equiv };
}

impl Hash for Ident {
    ghost hash_input = { λ name. name ∷ [] };

    ghost respects_eq = { λ x y h. ap (λ name. name ∷ []) ((bytes_decides x y).0 h) };

    fn hash<H: Hasher>(&self, state: &mut H) {
        // All bytes at once, since a hasher takes eight in one step.
        state.write(self.bytes());
    }
}
