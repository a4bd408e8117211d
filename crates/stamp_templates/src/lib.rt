//! Which bytes may stand at which place of a time stamp, so that a text is told to stand in no stamp of
//! a pattern before any stamp is printed.
//!
//! A pattern's texts are all alike but for their digits. Its template is such a text with a zero for each
//! digit: a zero allows any digit, and any other byte allows itself.
#![tactic(auto)]

mod between;
pub mod laws;
mod places;
mod templates;

pub use between::may_hold_between;
pub use places::{may_end, may_hold, may_stand, places_of, stands_at, stands_at_some};
pub use templates::{LONGEST, PATTERNS, allows, template};
