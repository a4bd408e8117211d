//! Logs in memory.
ghost use Rattle.std.specs.Prelude.{◌≡◌, ◌<◌, ◌≤◌, ◌↔◌, min, length, drop, IfOk, IsOk, IsErr, OnErr, Contains};
ghost use Rattle.log_seams.specs.Memory.{CalledOnce};
ghost use Rattle.log_seams.specs.Outside.{Counts, Takes};

use crate::calls::Calls;
use crate::{Failed, Source};
use plain_list::Text;
use std::marker::Model;

/// A log in memory whose reads with certain numbers fail. It tells its bytes.
#[derive(Debug, Drop)]
pub struct MemSource {
    bytes: Text,
    at: usize,
    calls: Calls,
    faults: u64,
}

impl Model for MemSource {
    ghost use Rattle.std.specs.Prelude.{◌≤◌, length, drop};
    ghost use Rattle.log_seams.specs.Memory.{SourceState};

    ghost Value = { SourceState };

    ghost view = { λ s. record { left = drop s.at s.bytes; calls = s.calls; faults = s.faults } };

    ghost invariant = { λ s. s.at ≤ length s.bytes };
}

impl MemSource {
    /// The log of these bytes, whose reads with a number in `fails` will fail. The first read
    /// has the number 0.
    pub fn new(bytes: Text, fails: Vec<u64>) -> MemSource
        ensures left { result.left ≡ bytes }
        ensures made { result.calls.made ≡ 0 }
        ensures fails { result.calls.fails ≡ fails.items }
        ensures faults { result.faults ≡ 0 }
    {
        MemSource {
            bytes,
            at: 0,
            calls: Calls::new(fails),
            faults: 0,
        }
    }

    /// How often reading has failed; it stops at the last value of u64.
    pub fn faults(&self) -> u64
        ensures { result ≡ self.now.faults }
    {
        self.faults
    }

    /// The bytes of the log, how many of them were read, and how often reading has failed.
    pub(crate) fn into_parts(self) -> (Text, usize, u64)
        ensures left { self.left ≡ drop result.1 result.0 }
        ensures faults { result.2 ≡ self.faults }
    {
        (self.bytes, self.at, self.faults)
    }
}

impl Source for MemSource {
    ghost use Rattle.std.specs.Prelude.{Some, None};

    ghost left = { λ s. Some s.left };

    ghost name = { λ _. None };

    ghost faults = { λ s. s.faults };

    fn read(&mut self, buf: &mut [u8]) -> Result<usize, Failed>
        requires { 0 < length buf.old }
        // As of every source.
        ensures within { IfOk result (λ n. n ≤ length buf.old) }
        ensures taken { IfOk result
            (λ n. Takes n buf.new (Some self.old.left) (Some self.new.left)) }
        ensures untaken { OnErr result (self.new.left ≡ self.old.left) }
        ensures cause { Counts self.old.faults self.new.faults result }

        // Of this one.
        ensures listed { IsErr result ↔ Contains self.old.calls.fails self.old.calls.made }
        ensures full { IfOk result (λ n. n ≡ min (length buf.old) (length self.old.left)) }
        ensures calls { CalledOnce self.old.calls self.new.calls }
    {
        if self.calls.next_fails() {
            self.faults = self.faults.saturating_add(1);
            return Err(Failed);
        }
        let left = &self.bytes.as_slice()[self.at..];
        let count = left.len().min(buf.len());
        buf[..count].copy_from_slice(&left[..count]);
        self.at += count;
        Ok(count)
    }
}

/// A log in memory that never fails. It tells its bytes.
#[derive(Debug, Drop)]
pub struct PlainSource {
    bytes: Text,
    at: usize,
}

impl Model for PlainSource {
    ghost use Rattle.std.specs.Prelude.{◌≤◌, List, ℕ, length, drop};

    ghost Value = { List ℕ };

    ghost view = { λ s. drop s.at s.bytes };

    ghost invariant = { λ s. s.at ≤ length s.bytes };
}

impl PlainSource {
    /// The log of these bytes.
    pub fn new(bytes: Text) -> PlainSource
        ensures { result ≡ bytes }
    {
        PlainSource { bytes, at: 0 }
    }
}

impl Source for PlainSource {
    ghost use Rattle.std.specs.Prelude.{Some, None};

    ghost left = { λ s. Some s };

    ghost name = { λ _. None };

    ghost faults = { λ _. 0 };

    fn read(&mut self, buf: &mut [u8]) -> Result<usize, Failed>
        requires { 0 < length buf.old }
        ensures within { IfOk result (λ n. n ≤ length buf.old) }
        ensures taken { IfOk result (λ n. Takes n buf.new (Some self.old) (Some self.new)) }
        ensures full { IfOk result (λ n. n ≡ min (length buf.old) (length self.old)) }
        ensures never { IsOk result }
    {
        let left = &self.bytes.as_slice()[self.at..];
        let count = left.len().min(buf.len());
        buf[..count].copy_from_slice(&left[..count]);
        self.at += count;
        Ok(count)
    }
}
