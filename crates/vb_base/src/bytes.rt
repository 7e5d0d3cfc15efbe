// Rows of bytes, most of which are short, so that they are gone through one by one.
ghost use Rattle.std.specs.Prelude.{◌≡◌, ◌++◌, ◌↔◌, IsTrue, OnOk};

use crate::Memory;

/// Whether these bytes are those.
pub fn same_bytes(first: &[u8], second: &[u8]) -> bool
    ensures { IsTrue result ↔ (first.now ≡ second.now) }
{
    if first.len() != second.len() {
        return false;
    }
    for (byte, other) in first.iter().zip(second) {
        if byte != other {
            return false;
        }
    }
    true
}

/// Appends these bytes. `Memory` where there is no memory.
pub fn put(out: &mut Vec<u8>, bytes: &[u8]) -> Result<(), Memory>
    ensures { OnOk result (out.new.items ≡ out.old.items ++ bytes.now) }
{
    if out.capacity() - out.len() < bytes.len() {
        out.reserve(bytes.len())?;
    }
    for byte in bytes {
        out.push_reserved(*byte);
    }
    Ok(())
}
