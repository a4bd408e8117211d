//! What several threads go over, each with a part of the disk.
ghost use Rattle.std.specs.Prelude.{◌≡◌};
ghost use Rattle.search_walk.specs.Held.{named};
ghost use Rattle.search_walk.specs.StepsScope.{IsScope, scope};

use crate::context::Context;
use crate::query::Query;
use archive_open::FileEntry;
use log_seams::Disk;
use row_codec::Layouts;
use subquery_filter::AskedTypes;
use word_places::HeldWords;

/// What all lanes of a walk go over, borrowed, as a [`Context`] does.
#[derive(Clone, Copy)]
pub struct LaneScope<'q> {
    /// What is asked.
    pub query: &'q Query,
    /// The first log types that are held, cut into their constants and slots.
    pub layouts: &'q Layouts,
    /// What the log types tell.
    pub asked: &'q AskedTypes,
    /// The files, each at its number.
    pub files: &'q [FileEntry],
    /// The numbers of the needed words.
    pub found: &'q [Option<u32>],
}

impl<'q> LaneScope<'q> {
    /// What each call of a walk lends on, over a part of the disk. The words are those that were
    /// held when the walk began.
    pub fn context<D: Disk>(self, first: &HeldWords, part: &D) -> Context<'q, D>
        requires { IsScope (named (D.state part.now).seen first.now)
            self.query.now self.layouts.now self.asked.now self.found.now }
        ensures { result ≡ scope (named (D.state part.now).seen first.now)
            self.entry.query.now self.entry.files.now }
    {
        Context::new(
            self.query,
            self.layouts,
            self.asked,
            self.files,
            self.found,
            first,
            part,
        )
    }
}
