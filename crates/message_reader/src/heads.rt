//! The lines that begin a message.
ghost use Rattle.message_reader.specs.Versions.{IsHead};
ghost use Rattle.message_reader.specs.StepsReading.{version_of};

use line_cut::Heads;
use time_patterns::{read_micro, read_stamp};

/// The time stamps that begin a message: of version 3, where moments count microseconds, or of
/// version 2.
#[derive(Clone, Copy, Debug, Drop)]
pub(crate) struct Stamps {
    pub(crate) micro: bool,
}

impl Heads for Stamps {
    ghost starts = { λ s line. IsHead (version_of s) line };

    fn begins(&self, line: &[u8]) -> bool {
        if self.micro {
            read_micro(line).is_some()
        } else {
            read_stamp(line).is_some()
        }
    }
}
