//! The bytes that were read and not yet given.
ghost use Rattle.std.specs.Prelude.{◌≡◌, ◌+◌, ◌-◌, ◌<◌, ◌≤◌, [], IfOk, IfSome, OnErr, length, take, drop, vec_len};
ghost use Rattle.log_seams.specs.Outside.{Counts, Takes};
ghost use Rattle.line_cut.specs.Length.{bytes_left};

use log_seams::{Failed, Source};
use std::alloc::{AllocError, Global};
use std::marker::Model;

/// The most bytes that are asked for in one read. Free to tune.
pub(crate) const READ_SIZE: usize = 262_144;

/// A buffer of fixed size, with the bytes that it holds.
#[derive(Drop)]
pub(crate) struct Window {
    /// All of its room, written or not.
    buffer: Vec<u8>,
    /// The offset of the first byte that is held.
    start: usize,
    /// The offset behind the last byte that is held.
    end: usize,
}

impl Model for Window {
    ghost use Rattle.std.specs.Prelude.{◌-◌, ◌≤◌, take, drop, vec_len};
    ghost use Rattle.line_cut.specs.StepsWindow.{WindowState};

    ghost Value = { WindowState };

    ghost view = { λ w. record {
      held = take (w.end - w.start) (drop w.start w.buffer.items);
      size = vec_len w.buffer;
    } };

    ghost invariant = { λ w. (w.start ≤ w.end) × (w.end ≤ vec_len w.buffer) };
}

/// Moves the bytes from `start` to `end` to the front.
fn move_to_front(buffer: &mut Vec<u8>, start: usize, end: usize)
    requires order { start ≤ end }
    requires within { end ≤ vec_len buffer.old }
    ensures front { take (end - start) buffer.new.items
        ≡ take (end - start) (drop start buffer.old.items) }
    ensures len { vec_len buffer.new ≡ vec_len buffer.old }
{
    buffer.copy_within(start..end, 0);
}

/// Reads into the buffer behind its first `from` bytes.
fn read_behind<S: Source>(
    source: &mut S,
    buffer: &mut Vec<u8>,
    from: usize,
) -> Result<usize, Failed>
    requires { from < vec_len buffer.old }
    ensures within { IfOk result (λ n. from + n ≤ vec_len buffer.old) }
    ensures front { take from buffer.new.items ≡ take from buffer.old.items }
    ensures len { vec_len buffer.new ≡ vec_len buffer.old }
    ensures taken { IfOk result
        (λ n. Takes n (drop from buffer.new.items) (S.left source.old) (S.left source.new)) }
    ensures untaken { OnErr result (S.left source.new ≡ S.left source.old) }
    ensures name { S.name source.new ≡ S.name source.old }
    ensures cause { Counts (S.faults source.old) (S.faults source.new) result }
{
    let room = (buffer.len() - from).min(READ_SIZE);
    source.read(&mut buffer[from..from + room])
}

impl Window {
    /// An empty window that can hold so many bytes.
    pub(crate) fn new(alloc: Global, size: usize) -> Result<Window, AllocError>
        ensures held { IfOk result (λ w. w.held ≡ []) }
        ensures size { IfOk result (λ w. w.size ≡ size) }
    {
        Ok(Window {
            buffer: vec![in alloc; 0; size]?,
            start: 0,
            end: 0,
        })
    }

    /// The bytes that it holds.
    pub(crate) fn held(&self) -> &[u8]
        ensures { result.now ≡ self.now.held }
    {
        &self.buffer[self.start..self.end]
    }

    /// Lets go of the first `count` bytes.
    pub(crate) fn consume(&mut self, count: usize)
        requires { count ≤ length self.old.held }
        ensures held { self.new.held ≡ drop count self.old.held }
        ensures size { self.new.size ≡ self.old.size }
    {
        self.start += count;
    }

    /// Reads once, behind the bytes that it holds, and answers how many more it holds.
    pub(crate) fn fill_buf<S: Source>(&mut self, source: &mut S) -> Result<usize, Failed>
        requires { length self.old.held < self.old.size }

        // what stays
        ensures front { take (length self.old.held) self.new.held ≡ self.old.held }
        ensures left { bytes_left self.new.held (S.left source.new)
            ≡ bytes_left self.old.held (S.left source.old) }
        ensures size { self.new.size ≡ self.old.size }
        ensures name { S.name source.new ≡ S.name source.old }

        // by the answer
        ensures grown { IfOk result (λ n. length self.new.held ≡ length self.old.held + n) }
        ensures at_end { IfOk result (λ n. n ≡ 0 → IfSome (S.left source.new) (λ rest. rest ≡ [])) }
        ensures untaken { OnErr result (self.new.held ≡ self.old.held) }
        ensures cause { Counts (S.faults source.old) (S.faults source.new) result }
    {
        // what is held moves to the front, so that the whole rest of the buffer is free for one read
        if self.start > 0 {
            move_to_front(&mut self.buffer, self.start, self.end);
            self.end -= self.start;
            self.start = 0;
        }
        let count = read_behind(source, &mut self.buffer, self.end)?;
        self.end += count;
        Ok(count)
    }
}

/// Lets go of the line or message at the front of the window, which is `step` bytes with its
/// newline.
pub(crate) fn let_go(window: &mut Window, line: &mut usize, step: &mut usize)
    requires { step.old ≤ length window.old.held }
    ensures held { window.new.held ≡ drop step.old window.old.held }
    ensures size { window.new.size ≡ window.old.size }
    ensures line { line.new ≡ 0 }
    ensures step { step.new ≡ 0 }
{
    window.consume(*step);
    *line = 0;
    *step = 0;
}
