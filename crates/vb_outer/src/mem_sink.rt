//! A sink in memory.
ghost use Rattle.std.specs.Prelude.{◌≡◌, ◌≤◌, [], Some, IfOk, OnErr, false};
ghost use Rattle.vb_outer.specs.Calls.{fails_next};
ghost use Rattle.vb_outer.specs.Faults.{HasCause};
ghost use Rattle.vb_outer.specs.MemSink.{SinkState, write_count, after_write, write_failed};
ghost use Rattle.vb_outer.specs.Sink.{Writes};

use crate::calls::Schedule;
use crate::{Failed, Memory, Sink};
use std::alloc::Global;
use std::marker::Model;

/// How many bytes room is made for at first.
const FIRST_ROOM: usize = 4096;

/// Keeps what is written to it, takes a fixed number of bytes a call, and fails the calls that it is told to fail.
#[derive(Drop)]
pub struct MemSink {
    written: Vec<u8>,
    most: usize,
    schedule: Schedule,
}

impl Model for MemSink {
    ghost use Rattle.std.specs.Prelude.{◌<◌};
    ghost use Rattle.vb_outer.specs.MemSink.{SinkState};

    ghost Value = { SinkState };

    ghost view = { λ s. record { written = s.written.items; most = s.most; calls = s.schedule } };

    ghost invariant = { λ s. 0 < s.most };
}

impl MemSink {
    /// An empty sink that takes `most` bytes a call and fails the calls whose numbers, from 1 on, stand in `failing`.
    /// `Memory` where there is no memory.
    pub fn make(alloc: Global, failing: Vec<u64>, most: usize) -> Result<MemSink, Memory>
        requires { 1 ≤ most }
        ensures { IfOk result (λ sink. sink ≡ record {
          written = [];
          most = most;
          calls = record { failing = failing.items; made = 0; faults = 0 };
        }) }
    {
        Ok(MemSink {
            written: Vec::with_capacity(alloc, FIRST_ROOM)?,
            most,
            schedule: Schedule::new(failing),
        })
    }

    /// The bytes that were written.
    pub fn written(&self) -> &[u8]
        ensures { result.now ≡ self.now.written }
    {
        &self.written
    }
}

impl Sink for MemSink {
    ghost written = { λ s. Some s.written };

    ghost faults = { λ s. s.calls.faults };

    /// Takes as many bytes as the smaller of `most` and the piece's length. It fails the listed calls, and each call
    /// that finds no memory.
    fn write(&mut self, bytes: &[u8]) -> Result<usize, Failed>
        ensures bytes { Writes (Some self.old.written) (Some self.new.written) result bytes.now }
        ensures cause { HasCause self.old.calls.faults self.new.calls.faults result }

        ensures listed { IfOk result (λ _. fails_next self.old.calls ≡ false) }
        ensures count { IfOk result (λ count. count ≡ write_count self.old bytes.now) }
        ensures ok { IfOk result (λ _. self.new ≡ after_write self.old bytes.now) }
        ensures failed { OnErr result (self.new ≡ write_failed self.old) }
    {
        let count = bytes.len().min(self.most);
        let fails = self.schedule.call();
        if fails || self.written.extend_from_slice(&bytes[..count]).is_err() {
            return Err(self.schedule.fault());
        }
        Ok(count)
    }
}
