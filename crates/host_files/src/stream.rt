//! Standard output and standard error as sinks. They count one fault for each call that failed.
ghost use Rattle.std.specs.Prelude.{◌≡◌, ◌<◌, ◌≤◌, ◌++◌, ℕ, List, Option, None, IfOk, OnErr, length, option_map, take};

use crate::faults::counted;
use log_seams::{Failed, Sink};
use std::io::{self, ErrorKind, Print, Stderr, Stdout};

/// What takes bytes, and keeps them in order.
pub trait Output: Drop {
    /// The bytes that were taken, where they are told.
    ghost taken: { Self → Option (List ℕ) };

    /// Writes the first of `bytes`, which is not empty, and answers how many. A write that failed or
    /// was interrupted wrote nothing.
    fn write_some(&mut self, bytes: &[u8]) -> io::Result<usize>
        requires { 0 < length bytes.now }
        ensures within { IfOk result (λ n. n ≤ length bytes.now) }
        ensures appended { IfOk result (λ n. taken self.new
            ≡ option_map (λ w. w ++ take n bytes.now) (taken self.old)) }
        ensures unwritten { OnErr result (taken self.new ≡ taken self.old) };
}

/// The two standard streams that are written.
#[derive(Clone, Copy)]
pub enum Standard {
    Output(Stdout),
    Errors(Stderr),
}

impl Output for Standard {
    ghost taken = { λ _. None };

    fn write_some(&mut self, bytes: &[u8]) -> io::Result<usize> {
        match self {
            Standard::Output(stdout) => stdout.write_some(bytes),
            Standard::Errors(stderr) => stderr.write_some(bytes),
        }
    }
}

/// Writes once, and again as long as a signal interrupted the write. A write of nothing failed.
fn write_again<W: Output>(to: &mut W, bytes: &[u8]) -> io::Result<usize>
    requires { 0 < length bytes.now }
    ensures some { IfOk result (λ n. 0 < n) }
    ensures within { IfOk result (λ n. n ≤ length bytes.now) }
    ensures appended { IfOk result (λ n. W.taken to.new
        ≡ option_map (λ w. w ++ take n bytes.now) (W.taken to.old)) }
    ensures unwritten { OnErr result (W.taken to.new ≡ W.taken to.old) }
{
    for _ in 0..u64::MAX {
        match to.write_some(bytes) {
            Ok(0) => return Err(ErrorKind::WriteZero.into()),
            Err(error) if error.kind() == ErrorKind::Interrupted => {}
            answer => return answer,
        }
    }
    Err(ErrorKind::TimedOut.into())
}

/// A stream that is written to. It tells what its end tells.
#[derive(Drop)]
pub struct Stream<W> {
    to: W,
    faults: u64,
}

impl<W> Stream<W> {
    /// The stream to an end, to which nothing was written yet.
    pub fn new(to: W) -> Self
        ensures to { result.to ≡ to }
        ensures faults { result.faults ≡ 0 }
    {
        Stream { to, faults: 0 }
    }

    /// The end that it writes to.
    pub fn to(&self) -> &W
        ensures { result.now ≡ self.now.to }
    {
        &self.to
    }
}

impl<W: Output> Sink for Stream<W> {
    ghost written = { λ s. W.taken s.to };

    ghost faults = { λ s. s.faults };

    fn write(&mut self, bytes: &[u8]) -> Result<usize, Failed> {
        counted(&mut self.faults, write_again(&mut self.to, bytes))
    }
}
