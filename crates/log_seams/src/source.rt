//! A log that is read from its start to its end.
ghost use Rattle.std.specs.Prelude.{◌≡◌, ◌<◌, ◌≤◌, List, ℕ, Option, length, IfOk, OnErr};
ghost use Rattle.log_seams.specs.Outside.{Counts, Takes};

use crate::Failed;

/// Where the bytes of a log come from.
pub trait Source {
    /// The bytes that are left, where the source tells them.
    ghost left: { Self → Option (List ℕ) };

    /// The name of the log, where the source tells it.
    ghost name: { Self → Option (List ℕ) };

    /// How often the source has failed.
    ghost faults: { Self → ℕ };

    /// Reads the next bytes to the front of `buf`, which is not empty, and answers how many.
    ///
    /// `Ok(0)` is the end of the log. A read that failed took nothing, and the count of faults
    /// rose.
    fn read(&mut self, buf: &mut [u8]) -> Result<usize, Failed>
        requires { 0 < length buf.old }
        ensures within { IfOk result (λ n. n ≤ length buf.old) }
        ensures taken { IfOk result (λ n. Takes n buf.new (left self.old) (left self.new)) }
        ensures untaken { OnErr result (left self.new ≡ left self.old) }
        ensures name { name self.new ≡ name self.old }
        ensures cause { Counts (faults self.old) (faults self.new) result };
}

impl<S: Source> Source for &mut S {
    ghost left = { λ s. S.left s.now };

    ghost name = { λ s. S.name s.now };

    ghost faults = { λ s. S.faults s.now };

    fn read(&mut self, buf: &mut [u8]) -> Result<usize, Failed> {
        (**self).read(buf)
    }
}
