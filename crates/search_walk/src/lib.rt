//! The way of a search through an archive: what is asked, and which segments, pages and rows it
//! goes over.
#![tactic(auto)]

mod asking;
mod context;
mod deciding;
mod label;
mod lane_scope;
mod loaded;
mod opening;
mod paging;
mod passing;
mod prepared;
mod query;
mod refusal;
mod segments;
mod taking;
mod type_asking;
mod verdicts;

pub use context::Context;
pub use deciding::{decide_page, decide_rows, has_rows, hold_rows};
pub use label::Label;
pub use lane_scope::LaneScope;
pub use loaded::LoadedSegment;
pub use prepared::{AskedArchive, Prepared};
pub use query::{Judgement, Query};
pub use refusal::SearchRefusal;
pub use segments::visit_segments;
pub use taking::TakesPages;
pub use verdicts::{is_certain, is_rejected, verdict_at};
