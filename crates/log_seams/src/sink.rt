//! Where text is written.
ghost use Rattle.std.specs.Prelude.{◌≡◌, ◌<◌, ◌≤◌, ◌++◌, List, ℕ, Option, length, take, IfOk, OnErr, option_map};
ghost use Rattle.log_seams.specs.Outside.{Counts};

use crate::Failed;

/// Takes bytes, and keeps them in order.
pub trait Sink {
    /// The bytes that were written so far, where the sink tells them.
    ghost written: { Self → Option (List ℕ) };

    /// How often the sink has failed.
    ghost faults: { Self → ℕ };

    /// Writes the first of `bytes`, which is not empty, and answers how many: at least one.
    ///
    /// A write that failed wrote nothing, and the count of faults rose.
    fn write(&mut self, bytes: &[u8]) -> Result<usize, Failed>
        requires { 0 < length bytes.now }
        ensures some { IfOk result (λ n. 0 < n) }
        ensures within { IfOk result (λ n. n ≤ length bytes.now) }
        ensures appended { IfOk result
            (λ n. written self.new ≡ option_map (λ w. w ++ take n bytes.now) (written self.old)) }
        ensures unwritten { OnErr result (written self.new ≡ written self.old) }
        ensures cause { Counts (faults self.old) (faults self.new) result };
}

impl<S: Sink> Sink for &mut S {
    ghost written = { λ s. S.written s.now };

    ghost faults = { λ s. S.faults s.now };

    fn write(&mut self, bytes: &[u8]) -> Result<usize, Failed> {
        (**self).write(bytes)
    }
}
