//! What stands between the lines of a script.
use crate::books::Books;
use row_codec::Encoder;
use std::alloc::Global;

/// What stands between the lines of a script.
#[derive(Drop)]
pub(crate) struct Machine {
    pub(crate) alloc: Global,
    /// The dictionaries.
    pub(crate) books: Books,
    /// What reads messages one after the other.
    pub(crate) encoder: Encoder,
}

impl Machine {
    /// One whose books have no texts, and room for a hundred each.
    pub(crate) fn new(alloc: Global) -> Machine {
        Machine {
            alloc,
            books: Books::new(alloc, 1, 100),
            encoder: Encoder::new(alloc),
        }
    }
}
