//! Where bytes are written to.
ghost use Rattle.std.specs.Prelude.{ℕ, List, ◌++◌, Option, OnOk, OnErr};
ghost use Rattle.vb_outer.specs.Faults.{HasCause};
ghost use Rattle.vb_outer.specs.Sink.{Writes, Appends, AppendsPrefix};

use crate::Failed;

/// A device that takes bytes, some at a time.
pub trait Sink {
    /// The bytes that were written, where the sink tells them.
    ghost written: { Self → Option (List ℕ) };

    /// How often the device has failed. It stops at the greatest `u64`.
    ghost faults: { Self → ℕ };

    /// Appends the first bytes of a piece and answers how many: one at least, unless the piece is empty. A device
    /// that takes nothing of a piece that is not empty has failed. A call that fails has appended nothing.
    fn write(&mut self, bytes: &[u8]) -> Result<usize, Failed>
        ensures bytes { Writes (written self.old) (written self.new) result bytes.now }
        ensures cause { HasCause (faults self.old) (faults self.new) result };
}

/// Writes all the bytes, in as many calls as the sink needs; each is given all that are left.
///
/// `Failed` only where the sink failed. Then some first bytes were appended.
pub fn write_all<S: Sink>(sink: &mut S, bytes: &[u8]) -> Result<(), Failed>
    ensures ok { OnOk result (Appends (S.written sink.old) (S.written sink.new) bytes.now) }
    ensures failed { OnErr result (AppendsPrefix (S.written sink.old) (S.written sink.new) bytes.now) }
    ensures cause { HasCause (S.faults sink.old) (S.faults sink.new) result }
{
    let mut rest = bytes;
    while !rest.is_empty() {
        let count = sink.write(rest)?;
        rest = &rest[count..];
    }
    Ok(())
}

/// What is written in two calls is one text after another, and where the second failed, the first and a prefix of the
/// second.
pub fn written_in_turn()
    ensures both { (before between now : Option (List ℕ)) (first second : List ℕ)
        → Appends before between first → Appends between now second
        → Appends before now (first ++ second) }
    ensures front { (before between now : Option (List ℕ)) (first second : List ℕ)
        → Appends before between first → AppendsPrefix between now second
        → AppendsPrefix before now (first ++ second) }
{}
