//! What of a reader stays the same. No value of it is made.

use wild_match::Pattern;

/// What of a reader stays the same: the borrow of its output, the output as it was when the reader was
/// made, and what is searched for.
pub struct LiveFixed<K> {
    /// The name of the borrow.
    pub name: u64,
    /// The output as it was.
    pub begun: K,
    /// What is searched for.
    pub pattern: Pattern,
}
