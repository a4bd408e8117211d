//! Columns as plain arrays, as they stand in a segment.

ghost use Rattle.std.specs.Prelude.{[]};
ghost use Rattle.column_store.specs.Columns.{AreArraysOf};

use std::alloc::Global;

/// The fields of rows, each as an array, and the words of all rows one after the other.
#[derive(Debug, Drop)]
pub struct Arrays {
    /// The pattern of each row.
    pub patterns: Vec<u8>,
    /// The moment of each row.
    pub moments: Vec<i64>,
    /// The log type's number of each row.
    pub types: Vec<u32>,
    /// How many words each row has.
    pub counts: Vec<u32>,
    /// The words of the first row, of the second, and so on.
    pub words: Vec<u64>,
}

impl Arrays {
    /// Arrays without rows. Takes no memory.
    pub fn new(alloc: Global) -> Arrays
        ensures { AreArraysOf [] result }
    {
        Arrays {
            patterns: Vec::new(alloc),
            moments: Vec::new(alloc),
            types: Vec::new(alloc),
            counts: Vec::new(alloc),
            words: Vec::new(alloc),
        }
    }
}
