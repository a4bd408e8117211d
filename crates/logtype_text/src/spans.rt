//! Where variables stand, and what they are coded as.

use crate::Symbols;
use plain_list::ListOf;
use var_codec::Coded;

/// The place of a variable in its body: the bytes from `start` up to `end`.
#[derive(Clone, Copy, Debug, PartialEq, Eq)]
pub struct Span {
    /// The place of its first byte.
    pub start: usize,
    /// The place after its last byte.
    pub end: usize,
}

/// The places of a body's variables, in order. Contracts see the list.
pub type Spans = ListOf<Span>;

/// What a body's variables are coded as, in order. Contracts see the list.
pub type CodedList = ListOf<Coded>;

/// A body's symbols, the places of its variables, and what they are coded as.
#[derive(Debug, Drop)]
pub struct Split {
    /// The constant bytes of the body, and a slot for each variable.
    pub symbols: Symbols,
    /// For each slot, in order, where in the body its variable stands.
    pub spans: Spans,
    /// For each slot, in order, what its variable is coded as.
    pub codes: CodedList,
}
