// Writing what a call comes to.
ghost use Rattle.std.specs.Prelude.{◌≡◌, ℕ, List, IfOk};
ghost use Rattle.std.specs.String.{string_bytes};
ghost use Rattle.tool_common.specs.Written.{Delivers, Reports};

use crate::status::CallStatus;
use std::alloc::AllocError;
use vb_outer::{Sink, write_all};

/// Writes a whole text, whose status is then the answer.
pub fn deliver<S: CallStatus, W: Sink>(sink: &mut W, text: &[u8], status: S) -> S
    ensures { Delivers S.kind (W.written sink.old) (W.written sink.new) (W.faults sink.old) (W.faults sink.new) text.now status result }
{
    match write_all(sink, text) {
        Ok(()) => status,
        Err(_) => S::write_fault(),
    }
}

/// Writes the line of a status, where there was memory for it; the status is then the answer.
pub fn report<S: CallStatus, W: Sink>(
    sink: &mut W,
    line: Result<String, AllocError>,
    status: S,
) -> S
    ensures { (text : List ℕ) → IfOk line (λ l. string_bytes l ≡ text)
        → Reports S.kind (W.written sink.old) (W.written sink.new) (W.faults sink.old) (W.faults sink.new) text status result }
{
    match line {
        Ok(line) => deliver(sink, line.as_bytes(), status),
        Err(_) => S::no_memory(),
    }
}
