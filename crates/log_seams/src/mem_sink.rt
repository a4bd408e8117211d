//! A sink in memory.
ghost use Rattle.std.specs.Prelude.{◌≡◌, ◌+◌, ◌<◌, ◌≤◌, ◌↔◌, ◌⊎◌, ◌++◌, [], length, take, option_map, IfOk, IsErr, OnErr, Contains};
ghost use Rattle.log_seams.specs.Memory.{CalledOnce};
ghost use Rattle.log_seams.specs.Outside.{Counts};

use crate::calls::Calls;
use crate::{Failed, Sink};
use std::alloc::{AllocError, Global};
use std::marker::Model;

/// A sink in memory with room for so many bytes, whose writes with certain numbers fail. It tells
/// what was written.
#[derive(Debug, Drop)]
pub struct MemSink {
    bytes: Vec<u8>,
    room: usize,
    calls: Calls,
    faults: u64,
}

impl Model for MemSink {
    ghost use Rattle.std.specs.Prelude.{◌≤◌, vec_len, vec_capacity};
    ghost use Rattle.log_seams.specs.Memory.{SinkState};

    ghost Value = { SinkState };

    ghost view = { λ s. record {
      written = s.bytes.items;
      room = s.room;
      calls = s.calls;
      faults = s.faults;
    } };

    ghost invariant = { λ s. (vec_len s.bytes ≤ s.room) × (s.room ≤ vec_capacity s.bytes) };
}

impl MemSink {
    /// An empty sink that takes `room` bytes in all, and whose writes with a number in `fails`
    /// will fail. The first write has the number 0.
    pub fn new(alloc: Global, room: usize, fails: Vec<u64>) -> Result<MemSink, AllocError>
        ensures written { IfOk result (λ s. s.written ≡ []) }
        ensures room { IfOk result (λ s. s.room ≡ room) }
        ensures made { IfOk result (λ s. s.calls.made ≡ 0) }
        ensures fails { IfOk result (λ s. s.calls.fails ≡ fails.items) }
        ensures faults { IfOk result (λ s. s.faults ≡ 0) }
    {
        Ok(MemSink {
            bytes: Vec::with_capacity(alloc, room)?,
            room,
            calls: Calls::new(fails),
            faults: 0,
        })
    }

    /// What was written.
    pub fn bytes(&self) -> &[u8]
        ensures { result.now ≡ self.now.written }
    {
        self.bytes.as_slice()
    }
}

impl Sink for MemSink {
    ghost use Rattle.std.specs.Prelude.{Some};

    ghost written = { λ s. Some s.written };

    ghost faults = { λ s. s.faults };

    /// Writes all of `bytes`, or fails where its number is listed or they go past the room.
    fn write(&mut self, bytes: &[u8]) -> Result<usize, Failed>
        requires { 0 < length bytes.now }
        // As of every sink.
        ensures some { IfOk result (λ n. 0 < n) }
        ensures within { IfOk result (λ n. n ≤ length bytes.now) }
        ensures appended { IfOk result
            (λ n. Some self.new.written ≡ option_map (λ w. w ++ take n bytes.now)
            (Some self.old.written)) }
        ensures unwritten { OnErr result (self.new.written ≡ self.old.written) }
        ensures cause { Counts self.old.faults self.new.faults result }

        // Of this one.
        ensures listed { IsErr result ↔ (Contains self.old.calls.fails self.old.calls.made
            ⊎ (self.old.room < length self.old.written + length bytes.now)) }
        ensures all { IfOk result (λ n. n ≡ length bytes.now) }
        ensures room { self.new.room ≡ self.old.room }
        ensures calls { CalledOnce self.old.calls self.new.calls }
    {
        let listed = self.calls.next_fails();
        if listed || self.room - self.bytes.len() < bytes.len() {
            self.faults = self.faults.saturating_add(1);
            return Err(Failed);
        }
        self.bytes.extend_from_slice(bytes).unwrap();
        Ok(bytes.len())
    }
}
