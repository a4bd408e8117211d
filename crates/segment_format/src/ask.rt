//! Where the pieces of a page stand.

/// The pieces of a page: how many rows it has, and where its columns begin in the payload. The five
/// pieces one after the other are the columns of the page's rows.
#[derive(Clone, Copy, Debug, PartialEq, Eq)]
pub struct PageAsk {
    /// How many rows the page has.
    pub rows: u32,
    /// Where its patterns begin, of one byte each.
    pub patterns: u64,
    /// Where its moments begin, of eight bytes each.
    pub moments: u64,
    /// Where its log types begin, of four bytes each.
    pub types: u64,
    /// Where its counts begin, of four bytes each.
    pub counts: u64,
    /// Where its variables begin, of eight bytes each. Its counts tell how many they are.
    pub variables: u64,
}
