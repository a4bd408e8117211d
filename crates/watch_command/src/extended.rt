//! An output that is known to have taken only more since it was lent.
//!
//! What a reader prints is told where the archive's disk tells its bytes. That it prints behind what was
//! there, and takes nothing back, is told over any disk: so it prints into this output.
ghost use Rattle.std.specs.Prelude.{◌≡◌, ℕ, List, Option, None, true};
ghost use Rattle.watch_command.specs.Extended.{has_more};

use log_seams::{Failed, Sink};
use std::marker::{Brand, PhantomData};

/// An output that is lent, for proofs alone.
pub(crate) trait LentOut {
    /// Which borrow it is.
    ghost name: { ℕ };

    /// What it had taken.
    ghost had: { Option (List ℕ) };
}

impl LentOut for Brand {
    ghost name = { 0 };

    ghost had = { None };
}

/// An output that was lent, which has what it had and more.
#[derive(Drop)]
pub(crate) struct Extended<'o, K: Sink, L: LentOut> {
    /// The output.
    pub(crate) out: &'o mut K,
    /// Which borrow it is.
    pub(crate) lent: PhantomData<L>,
    ghost same: { out.ghost_name ≡ L.name },
    ghost more: { has_more L.had (K.written out.now) ≡ true },
}

impl<'o, K: Sink, L: LentOut> Sink for Extended<'o, K, L> {
    ghost written = { λ e. K.written e.out.now };

    ghost faults = { λ e. K.faults e.out.now };

    fn write(&mut self, bytes: &[u8]) -> Result<usize, Failed> {
        self.out.write(bytes)
    }
}
