//! Where files are read from.
ghost use Rattle.std.specs.Prelude.{◌≡◌, ◌≢◌, ◌⊎◌, ℕ, ◌+◌, ◌<◌, ◌≤◌, List, length, vec_len, Option, Result, IfOk, OnOk, OnErr, IsErr, IsErrOf};
ghost use Rattle.vb_outer.specs.declared.fault.Failed.{Failed};
ghost use Rattle.vb_outer.specs.Faults.{HasCause, Rose};
ghost use Rattle.vb_outer.specs.Shelf.{Files, IsMissing, IsWhole, IsLonger, IsClosed, IsBegun, Reads, Takes, TakesLen, TakesAtMost, TakesOfFile, GrowsBy};
ghost use Rattle.std.specs.Io.KnownBytes.{IsAtEnd};

use crate::{Failed, FileFault};
use std::alloc::{AllocError, Global};

/// Files that are read by name, one at a time, from the first byte on.
pub trait Shelf {
    /// The files, where the shelf is transparent to contracts. None where it is opaque.
    ghost files: { Self → Option Files };

    /// What is left to read of the begun file, where it is known. With no begun file nothing is left.
    ghost left: { Self → Option (List ℕ) };

    /// How often the device has failed. It stops at the greatest `u64`.
    ghost faults: { Self → ℕ };

    /// Begins the named file, at its first byte.
    ///
    /// It fails at a missing name, which is no fault of the device, and else only where the device failed. Then no
    /// file is begun.
    fn begin(&mut self, name: &str) -> Result<(), Failed>
        ensures begun { OnOk result (IsBegun (files self.old) name.now (left self.new)) }
        ensures closed { OnErr result (IsClosed (left self.new)) }
        ensures missing { IsMissing (files self.old) name.now
            → IsErr result × (faults self.new ≡ faults self.old) }
        ensures cause { OnErr result
            (IsMissing (files self.old) name.now ⊎ Rose (faults self.old) (faults self.new)) }
        ensures later { faults self.old ≤ faults self.new }
        ensures same { files self.new ≡ files self.old };

    /// Reads the next bytes of the begun file into a prefix of the buffer, and answers how many: none in a buffer
    /// that has room is the end of the file. A call that fails may have taken bytes, at most as many as the buffer has
    /// room for.
    fn read(&mut self, buf: &mut [u8]) -> Result<usize, Failed>
        ensures bound { IfOk result (λ count. count ≤ length buf.new) }
        ensures bytes { Reads (left self.old) (left self.new) result buf.new }
        ensures cause { HasCause (faults self.old) (faults self.new) result }
        ensures same { files self.new ≡ files self.old };
}

/// How many bytes are asked for at once.
const CHUNK: usize = 65536;

/// Reads the whole of the named file, if it has at most `limit` bytes. At most `limit + 1` bytes are read.
///
/// `Failed` only where the shelf failed or has no file of that name; the latter is no fault of the shelf. `Long` only
/// where more than `limit` bytes came. `Memory` where there is no memory.
pub fn read_file<H: Shelf>(
    alloc: Global,
    shelf: &mut H,
    name: &str,
    limit: usize,
) -> Result<Vec<u8>, FileFault>
    ensures whole { IfOk result (λ bytes. IsWhole (H.files shelf.old) name.now bytes.items) }
    ensures within { IfOk result (λ bytes. length bytes.items ≤ limit) }
    ensures long { IsErrOf result FileFault.Long → IsLonger (H.files shelf.old) name.now limit }
    ensures failed { IsErrOf result FileFault.Failed
        → IsMissing (H.files shelf.old) name.now ⊎ Rose (H.faults shelf.old) (H.faults shelf.new) }

    // At a missing name the answer is `Failed`, and no fault is counted.
    ensures missing { IsMissing (H.files shelf.old) name.now
        → IsErrOf result FileFault.Failed × (H.faults shelf.new ≡ H.faults shelf.old) }

    // At most `limit + 1` bytes of the file were taken, or it could not be begun.
    ensures taken { TakesOfFile (H.files shelf.old) name.now (H.left shelf.new) (limit + 1)
        ⊎ IsErrOf result FileFault.Failed × IsClosed (H.left shelf.new) }

    ensures later { H.faults shelf.old ≤ H.faults shelf.new }
    ensures same { H.files shelf.new ≡ H.files shelf.old }
{
    shelf.begin(name)?;
    read_rest(alloc, shelf, limit)
}

/// Reads what is left of the begun file, if that is at most `limit` bytes.
fn read_rest<H: Shelf>(alloc: Global, shelf: &mut H, limit: usize) -> Result<Vec<u8>, FileFault>
    ensures whole { IfOk result (λ bytes.
        Takes (H.left shelf.old) (H.left shelf.new) bytes.items × IsAtEnd (H.left shelf.new)) }
    ensures within { IfOk result (λ bytes. length bytes.items ≤ limit) }
    ensures long { IsErrOf result FileFault.Long
        → TakesLen (H.left shelf.old) (H.left shelf.new) (limit + 1) }
    ensures failed { IsErrOf result FileFault.Failed
        → Rose (H.faults shelf.old) (H.faults shelf.new) }
    ensures taken { TakesAtMost (H.left shelf.old) (H.left shelf.new) (limit + 1) }
    ensures later { H.faults shelf.old ≤ H.faults shelf.new }
    ensures same { H.files shelf.new ≡ H.files shelf.old }
{
    let mut chunk = zeros(alloc, CHUNK)?;
    let mut bytes = Vec::new(alloc);
    while bytes.len() <= limit {
        let room = (limit - bytes.len()).min(CHUNK - 1) + 1;
        let count = read_more(shelf, &mut chunk[..room], &mut bytes)?;
        if count == 0 {
            return Ok(bytes);
        }
    }
    Err(FileFault::Long)
}

/// Reads once into the buffer, appends what came, and answers how many bytes that were.
fn read_more<H: Shelf>(
    shelf: &mut H,
    buf: &mut [u8],
    bytes: &mut Vec<u8>,
) -> Result<usize, FileFault>
    ensures ok { IfOk result (λ count.
        GrowsBy (H.left shelf.old) (H.left shelf.new) bytes.old.items bytes.new.items count) }
    ensures bound { IfOk result (λ count. count ≤ length buf.old) }
    ensures end { result ≡ Ok 0 → 0 < length buf.old → IsAtEnd (H.left shelf.new) }
    ensures err { OnErr result (TakesAtMost (H.left shelf.old) (H.left shelf.new) (length buf.old)) }
    ensures failed { IsErrOf result FileFault.Failed
        → Rose (H.faults shelf.old) (H.faults shelf.new) }
    ensures long { result ≢ Err FileFault.Long }
    ensures later { H.faults shelf.old ≤ H.faults shelf.new }
    ensures same { H.files shelf.new ≡ H.files shelf.old }
{
    let count = shelf.read(buf)?;
    bytes.extend_from_slice(&buf[..count])?;
    Ok(count)
}

/// So many bytes of 0.
fn zeros(alloc: Global, count: usize) -> Result<Vec<u8>, AllocError>
    ensures { IfOk result (λ bytes. vec_len bytes ≡ count) }
{
    vec![in alloc; 0; count]
}

/// A shelf with no begun file gives nothing.
pub fn closed_gives_nothing()
    ensures { (before now : Option (List ℕ)) (result : Result ℕ Failed) (buf : List ℕ)
        → IsClosed before → IfOk result (λ count. count ≤ length buf) → Reads before now result buf
        → IfOk result (λ count. count ≡ 0) }
{}
