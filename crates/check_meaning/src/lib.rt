//! What the check of an archive counts, and where its bytes are damaged, as definitions.
#![tactic(auto)]

mod refusal;
mod summary;

pub use refusal::CheckRefusal;
pub use summary::Summary;
