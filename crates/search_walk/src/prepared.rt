//! What a walk holds of an archive before it goes over the segments.
ghost use Rattle.std.specs.Prelude.{◌≡◌, IfOk, IsErrOf};
ghost use Rattle.log_seams.specs.Disk.{Rests};
ghost use Rattle.log_seams.specs.Outside.{CountsOf};
ghost use Rattle.query_plan.specs.Laws.{IsSearched};
ghost use Rattle.archive_places.specs.Opened.{ArePlacesOrdered};
ghost use Rattle.search_walk.specs.Held.{named};
ghost use Rattle.search_walk.specs.Prepared.{IsReadyFor, KeepsPlaces, LacksTexts, ReadsTexts};
ghost use Rattle.search_walk.specs.StepsScope.{IsScope, scope};

use crate::asking::ask_words;
use crate::context::{Context, LAID_TYPES};
use crate::query::Query;
use crate::refusal::SearchRefusal;
use crate::type_asking::ask_types;
use archive_open::FileList;
use archive_places::{FrontList, Places};
use log_seams::Disk;
use row_codec::Layouts;
use std::alloc::Global;
use subquery_filter::{AskedTypes, Filter};
use word_places::HeldWords;

/// An archive whose words and log types were asked what a query leaves to them.
#[derive(Drop)]
pub struct AskedArchive {
    /// The files, each at its number.
    pub files: FileList,
    /// The segments, sorted by file and first message.
    pub segments: FrontList,
    /// The first log types that are held, cut into their constants and slots.
    pub layouts: Layouts,
    /// What its log types tell: the filter of the query, with the marks of its words.
    pub asked: AskedTypes,
    /// The numbers of the words that the query needs, each at its place in the plan.
    pub found: Vec<Option<u32>>,
}

impl AskedArchive {
    /// What each call of a walk lends on. The words are those that were asked, on the same disk.
    pub fn context<'q, D: Disk>(
        &'q self,
        query: &'q Query,
        held: &HeldWords,
        disk: &D,
    ) -> Context<'q, D>
        requires { IsScope (named (D.state disk.now).seen held.now) query.now
            self.now.layouts self.now.asked self.now.found.items }
        ensures { result ≡ scope (named (D.state disk.now).seen held.now)
            query.now self.now.files }
    {
        let files = self.files.as_slice();
        let found = self.found.as_slice();
        Context::new(query, &self.layouts, &self.asked, files, found, held, disk)
    }
}

/// What a walk begins with.
#[derive(Drop)]
pub struct Prepared {
    /// The words, none of which is held yet, beside the log types that are left.
    pub held: HeldWords,
    /// What the walk goes over by them.
    pub archive: AskedArchive,
}

impl Prepared {
    /// Asks the words of an archive what a query leaves to them, and then each of its log types as
    /// it is read: most are rejected by what the words do not bring, and only the others are held,
    /// of which the first are cut.
    ///
    /// # Errors
    ///
    /// `DiskFault`, where the disk's count of faults rose; `Damaged`, where no log types or no
    /// words stand at their places; or `OutOfMemory`.
    pub fn of<D: Disk>(
        alloc: Global,
        query: &Query,
        places: Places,
        disk: &mut D,
    ) -> Result<Prepared, SearchRefusal>
        requires searched { IsSearched query.now.pattern }
        requires order { ArePlacesOrdered places }

        // what stays
        ensures rests { Rests (D.state disk.old) (D.state disk.new) }
        ensures reads { ReadsTexts places (D.state disk.old) (D.state disk.new) }

        // by the answer
        ensures kept { IfOk result (KeepsPlaces (D.state disk.old).seen places) }
        ensures ready { IfOk result (IsReadyFor (D.state disk.new).seen query.now) }

        // causes
        ensures damaged { IsErrOf result SearchRefusal.Damaged
            → LacksTexts (D.state disk.old).seen places }
        ensures disk_counts { CountsOf SearchRefusal.DiskFault
            (D.state disk.old).faults (D.state disk.new).faults result }
        ensures sink { ¬ IsErrOf result SearchRefusal.SinkFault }
    {
        let Places {
            header,
            types,
            words,
            files,
            segments,
            ..
        } = places;
        let records = words.as_slice();
        let plan = query.plan();
        let filter = Filter::begin(alloc, plan)?;
        let told = ask_words(alloc, query, filter, records, disk)?;
        let passed = ask_types(alloc, plan, told.filter, types.as_slice(), disk)?;
        let held = HeldWords::new(alloc, passed.texts, header.version, records)?;
        let layouts = Layouts::front(alloc, &held, LAID_TYPES)?;
        let archive = AskedArchive {
            files,
            segments,
            layouts,
            asked: passed.asked,
            found: told.found,
        };
        Ok(Prepared { held, archive })
    }
}
