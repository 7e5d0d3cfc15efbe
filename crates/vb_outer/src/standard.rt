//! A standard stream as a sink.
ghost use Rattle.std.specs.Prelude.{◌≡◌, None};

use crate::{Failed, Sink, count_fault};
use std::io::Write;

/// A writer of std, as a standard stream. It tells nothing of what was written, and counts each error as a fault,
/// and each time that the writer takes nothing of a piece that is not empty.
#[derive(Drop)]
pub struct StdSink<W: Write> {
    stream: W,
    faults: u64,
}

impl<W: Write> StdSink<W> {
    /// A sink over the stream, as `rt.stdout()` or `rt.stderr()`.
    pub fn make(stream: W) -> Self
        ensures { ⟦<StdSink<W> as Sink>⟧.faults result ≡ 0 }
    {
        StdSink { stream, faults: 0 }
    }
}

impl<W: Write> Sink for StdSink<W> {
    ghost written = { λ _. None };

    ghost faults = { λ s. s.faults };

    fn write(&mut self, bytes: &[u8]) -> Result<usize, Failed> {
        match self.stream.write(bytes) {
            Ok(count) if count > 0 || bytes.is_empty() => Ok(count),
            _ => Err(count_fault(&mut self.faults)),
        }
    }
}
