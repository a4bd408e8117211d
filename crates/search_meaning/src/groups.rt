//! Groups of messages.

use crate::report::GroupReport;
use plain_list::{ListOf, Text};

/// The messages that have one key.
#[derive(Debug, Drop)]
pub struct Group {
    /// The text of their log type. By minute it is empty.
    pub key: Text,
    /// The first moment of their minute. By log type it is 0.
    pub moment: i64,
    /// How many there are.
    pub count: u64,
}

/// Groups in the order of their keys. Contracts see the list.
pub type GroupList = ListOf<Group>;

/// By what messages are grouped.
#[derive(Clone, Copy, Debug, PartialEq, Eq)]
pub enum GroupBy {
    /// By their log types.
    Shape,
    /// By the minutes of their stamps.
    Minute,
}

/// The messages of an archive that a pattern matches, in groups.
#[derive(Debug, Drop)]
pub struct Grouped {
    /// The groups.
    pub groups: GroupList,
    /// How many messages have no stamp, and so no minute. By log type it is 0.
    pub without: u64,
    /// The counts of the work.
    pub report: GroupReport,
}
