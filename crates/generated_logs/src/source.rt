//! A generated log that is read.
ghost use Rattle.std.specs.Prelude.{◌≡◌, ◌<◌, ◌≤◌, [], length, IfOk, IsOk};
ghost use Rattle.generated_logs.specs.Logs.{log_of};
ghost use Rattle.generated_logs.specs.States.{left_in};
ghost use Rattle.log_seams.specs.Outside.{Takes};

use crate::line::Line;
use crate::text::line_of;
use log_seams::{Failed, Source};
use std::marker::Model;

/// A generated log: each line is made when it is read. It tells its bytes and its name, takes no memory
/// and never fails.
#[derive(Debug, Drop)]
pub struct GeneratedSource {
    number: u32,
    log: u32,
    // the number of the next line, and how many lines there are from it on
    next: u32,
    rest: u32,
    // the line that is read, and how many bytes of it were
    line: Line,
    at: usize,
}

impl Model for GeneratedSource {
    ghost use Rattle.std.specs.Prelude.{◌+◌, ◌≤◌, drop, length};
    ghost use Rattle.generated_logs.specs.Logs.{lines_from};
    ghost use Rattle.generated_logs.specs.States.{SourceState};

    ghost Value = { SourceState };

    ghost view = { λ s. record {
      log = s.log;
      line = drop s.at s.line;
      more = lines_from s.number s.log s.next s.rest;
    } };

    ghost invariant = { λ s.
        (s.at ≤ length s.line) × (s.log ≤ 3) × (s.next + s.rest ≤ 1000001) };
}

impl GeneratedSource {
    /// Log `log` of the four, with so many lines.
    pub(crate) fn new(number: u32, log: u32, lines: u32) -> GeneratedSource
        requires log { log ≤ 3 }
        requires most { lines ≤ 1000000 }
        ensures log { result.log ≡ log }
        ensures left { left_in result ≡ log_of number lines log }
    {
        GeneratedSource {
            number,
            log,
            next: 1,
            rest: lines,
            line: Line::new(),
            at: 0,
        }
    }

    /// Which of the four it is.
    pub(crate) fn log(&self) -> u32
        ensures is { result ≡ self.now.log }
        ensures one { result ≤ 3 }
    {
        self.log
    }

    /// Makes the next line where the one before was read whole.
    fn go_on(&mut self)
        ensures log { self.new.log ≡ self.old.log }
        ensures left { left_in self.new ≡ left_in self.old }
        ensures some { self.new.line ≡ [] → self.new.more ≡ [] }
    {
        if self.at < self.line.as_slice().len() {
            return;
        }
        if self.rest == 0 {
            return;
        }
        self.line = line_of(self.number, self.log, self.next);
        self.at = 0;
        self.next += 1;
        self.rest -= 1;
    }
}

impl Source for GeneratedSource {
    ghost use Rattle.std.specs.Prelude.{Some};
    ghost use Rattle.generated_logs.specs.Logs.{name_of};

    ghost left = { λ s. Some (left_in s) };

    ghost name = { λ s. Some (name_of s.log) };

    ghost faults = { λ _. 0 };

    fn read(&mut self, buf: &mut [u8]) -> Result<usize, Failed>
        requires { 0 < length buf.old }
        ensures within { IfOk result (λ n. n ≤ length buf.old) }
        ensures taken { IfOk result
            (λ n. Takes n buf.new (Some (left_in self.old)) (Some (left_in self.new))) }
        ensures log { self.new.log ≡ self.old.log }
        ensures never { IsOk result }
    {
        self.go_on();
        let left = &self.line.as_slice()[self.at..];
        let count = left.len().min(buf.len());
        buf[..count].copy_from_slice(&left[..count]);
        self.at += count;
        Ok(count)
    }
}
