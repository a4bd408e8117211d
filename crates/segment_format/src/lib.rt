//! A segment of an archive as bytes and back, whole and by pages.
//!
//! A segment is a head, which says what the rows of the segment hold, and the columns of its rows.
#![tactic(auto)]

mod ask;
mod columns;
mod fixed;
mod head;
mod laws;
mod numbers;
mod pages;
mod segment;
mod sets;

pub use ask::PageAsk;
pub use columns::read_columns;
pub use fixed::{FIXED_LEN, Fixed, head_len, read_fixed};
pub use head::{Head, list_in, read_head};
pub use laws::{
    columns_are_unique, heads_are_unique, pages_are_the_columns, segments_are_unique,
    segments_read_back,
};
pub use pages::{PAGE_ROWS, PageReader, open_pages};
pub use record_format::FormatRefusal;
pub use segment::write_segment;
pub use sets::set_of;
