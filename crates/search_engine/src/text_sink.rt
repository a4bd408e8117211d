//! A text in memory that a lane writes to.
ghost use Rattle.std.specs.Prelude.{◌≡◌, [], Some};

use log_seams::{Failed, Sink};
use std::alloc::Global;

/// A text that grows. A write fails only for want of memory.
#[derive(Drop)]
pub(crate) struct TextSink {
    pub(crate) alloc: Global,
    pub(crate) text: Vec<u8>,
    pub(crate) faults: u64,
}

impl TextSink {
    /// No text. Takes no memory.
    pub(crate) fn new(alloc: Global) -> TextSink
        ensures { result.text.items ≡ [] }
    {
        TextSink {
            alloc,
            text: Vec::new(alloc),
            faults: 0,
        }
    }
}

impl Sink for TextSink {
    ghost written = { λ s. Some s.text.items };

    ghost faults = { λ s. s.faults };

    fn write(&mut self, bytes: &[u8]) -> Result<usize, Failed> {
        match self.text.extend_from_slice(bytes) {
            Ok(()) => Ok(bytes.len()),
            Err(_) => {
                self.faults = self.faults.saturating_add(1);
                Err(Failed)
            }
        }
    }
}
