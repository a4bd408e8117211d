//! The messages of a log as archives have them: its lines in version 1, and from version 2 on a
//! line with a time stamp together with the lines behind it that have none.
#![tactic(auto)]

mod heads;
mod laws;
mod reader;

pub use laws::{messages_follow, one_answer, version_one_has_lines};
pub use line_cut::{Cut, CutterRefused, MAX_LINE_LEN, Mark, Progress};
pub use reader::{MAX_MESSAGES, MessageReader};
