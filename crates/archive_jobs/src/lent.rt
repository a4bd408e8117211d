//! The disk of an archive, as it is lent to the sources of its files.
ghost use Rattle.std.specs.Prelude.{[]};
ghost use Rattle.archive_jobs.specs.Lent.{LentDisk, untold};

use std::marker::Brand;

/// The disk that is lent to the sources of an archive's files, one after the other, for proofs
/// alone. A file and what opens it are of one such disk, so that each file fits.
pub trait Lent {
    /// Which disk it is, how it was before it was lent, and the log types of its archive.
    ghost lent: { LentDisk };
}

impl Lent for Brand {
    ghost lent = { record { name = 0; disk = untold; types = [] } };
}
