//! A run of a pattern.
ghost use Rattle.std.specs.Prelude.{◌<◌, length};

use plain_list::Text;

/// What stands between two gaps of a pattern. A message that the pattern matches has it as a whole.
#[derive(Debug, Drop)]
pub(crate) struct Run {
    /// Its bytes: there are some.
    pub(crate) text: Text,
    /// One of eight bits.
    pub(crate) bit: u8,
    /// Whether it has no delimiter, so that a variable may have all of it.
    pub(crate) within_token: bool,
    pub(crate) ghost some: { 0 < length text },
}
