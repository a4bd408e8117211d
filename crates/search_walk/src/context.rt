//! What each call of a search lends on to the next.
ghost use Rattle.std.specs.Prelude.{◌≡◌, ◌<◌, ◌≤◌, ◌⊎◌, ◌∷◌, ◌↔◌, [], ℕ, List, All, Option, Some, IfSome, IsFalse, IsNone, IsTrue, length, slice_get};
ghost use Rattle.plain_list.specs.Texts.{AreDistinct};
ghost use Rattle.column_store.specs.Row.{row_of};
ghost use Rattle.column_store.specs.declared.row.Row.{Row};
ghost use Rattle.row_codec.specs.Laid.{AreCut};
ghost use Rattle.segment_format.specs.Layout.{IsFixed, IsHead};
ghost use Rattle.archive_places.specs.Fronts.{fixed_in};
ghost use Rattle.query_plan.specs.Laws.{IsSearched};
ghost use Rattle.query_plan.specs.Pieces.{wide_pieces};
ghost use Rattle.barren_segments.specs.Barren.{IsBounded, LeavesOut};
ghost use Rattle.subquery_filter.specs.declared.filter.Filter.{Filter};
ghost use Rattle.subquery_filter.specs.ByTypes.{NeedsNoVariable};
ghost use Rattle.subquery_filter.specs.Filter.{HasNoMatch, Rejects};
ghost use Rattle.subquery_filter.specs.Page.{IsPage};
ghost use Rattle.search_walk.specs.Held.{IsTold, Named, named};
ghost use Rattle.search_meaning.specs.Opened.{IsBarrenFor};
ghost use Rattle.search_walk.specs.Loaded.{OfLoaded};
ghost use Rattle.search_walk.specs.Opened.{IsOpened, NoneTold};
ghost use Rattle.search_walk.specs.Ready.{IsDecided, IsRuledOut};
ghost use Rattle.search_walk.specs.StepsScope.{IsFilterOf, IsScope, scope};

use crate::asking::has_variable;
use crate::loaded::LoadedSegment;
use crate::opening::open_segment;
use crate::query::Query;
use archive_meaning::MAX_MESSAGES;
use archive_open::FileEntry;
use archive_places::SegmentFront;
use column_store::{Columns, RowRef};
use log_seams::Disk;
use query_plan::wide_is_wider;
use row_codec::Layouts;
use segment_pages::SegmentPages;
use std::marker::Model;
use std::snapshot::Snapshot;
use std::sync::ledger::Ledger;
use step_count::Steps;
use subquery_filter::{AskedTypes, Filter, PageTests, Verdict, barren_by, is_outside};
use word_places::HeldWords;

/// Of how many log types a search has layouts: the first ones, which most messages have, since a
/// log type gets its number where its text is first met. Free to tune: a layout costs as much as it
/// saves over some ten messages or twenty, and messages of other log types are written from their
/// texts.
pub(crate) const LAID_TYPES: u32 = 1024;

/// What a search goes over, borrowed: the query, the first log types that are held, cut into
/// pieces, what log types and words tell, and the files. It is the same in all calls of a search.
#[derive(Drop)]
pub struct Context<'q, D: Disk> {
    query: &'q Query,
    layouts: &'q Layouts,
    asked: &'q AskedTypes,
    files: &'q [FileEntry],
    /// The numbers of the needed words.
    found: &'q [Option<u32>],
    /// For proofs alone: what was held when the search began, and the disk, which tells the words.
    held: Snapshot<HeldWords>,
    disk: Snapshot<D>,
}

impl<'q, D: Disk> Model for Context<'q, D> {
    ghost use Rattle.search_walk.specs.Held.{named};
    ghost use Rattle.search_walk.specs.StepsScope.{IsScope, Scope, scope};

    ghost Value = { Scope };

    ghost view = { λ c. scope (named (D.state c.disk.value).seen c.held.value)
        c.query.now c.files.now };

    ghost invariant = { λ c. IsScope (named (D.state c.disk.value).seen c.held.value)
        c.query.now c.layouts.now c.asked.now c.found.now };
}

impl<'q, D: Disk> Context<'q, D> {
    /// What is lent on. The layouts are those of the first log types that are held. Log types and
    /// words that stand on the disk were asked by the query, and the words that it needs have the
    /// numbers that were found.
    pub fn new(
        query: &'q Query,
        layouts: &'q Layouts,
        asked: &'q AskedTypes,
        files: &'q [FileEntry],
        found: &'q [Option<u32>],
        held: &HeldWords,
        disk: &D,
    ) -> Context<'q, D>
        requires { IsScope (named (D.state disk.now).seen held.now)
            query.now layouts.now asked.now found.now }
        ensures { result ≡ scope (named (D.state disk.now).seen held.now) query.now files.now }
    {
        Context {
            query,
            layouts,
            asked,
            files,
            found,
            held: Snapshot::of(held),
            disk: Snapshot::of(disk),
        }
    }

    /// The file of a segment, and a reader of its pages. None where no archive has such a segment.
    pub fn begin_segment<L: Ledger>(
        &self,
        segment: &LoadedSegment,
        opened: &mut Steps<L>,
    ) -> Option<(&FileEntry, SegmentPages)>
        ensures some { IfSome result (λ r. OfLoaded self.now.query segment.now (λ p.
            IsOpened self.now.files p r.0.now r.1 opened.old opened.new)) }
        ensures first { IfSome result (λ _. segment.now.place.head.first ≤ MAX_MESSAGES) }
        ensures row { IfSome result (λ r. r.1.pages.row ≡ 0) }
        ensures none { IsNone result → OfLoaded self.now.query segment.now (λ p.
            (seen : Option (List ℕ)) (n : Named) → NoneTold seen n self.now.files (p ∷ [])) }
    {
        open_segment(self.files, segment, opened)
    }

    /// Whether a segment's front tells that none of its messages is found. The pattern is one that
    /// was read, as the laws of barren segments ask.
    pub fn is_outside(&self, front: &SegmentFront) -> bool
        ensures told { IsTrue result → IsFixed (fixed_in front.now) → (front.now.rows ≡ 0)
            ⊎ (IsBounded self.now.query.range × LeavesOut self.now.query.range
            front.now.stamped front.now.least front.now.greatest) }
        ensures searched { IsSearched self.now.query.pattern }
    {
        is_outside(
            front.rows,
            front.stamped,
            front.least,
            front.greatest,
            self.query.range(),
        )
    }

    /// Whether a segment's head tells that none of its messages is found. The pattern is one that
    /// was read, as the laws of barren segments ask.
    pub fn is_barren(&self, segment: &LoadedSegment) -> bool
        ensures told { OfLoaded self.now.query segment.now (λ p. IsTold self.now.names
            → IsHead p.head → AreDistinct self.now.names.words → IsTrue result ↔ IsBarrenFor
            self.now.names.types self.now.names.words self.now.query p) }
        ensures searched { IsSearched self.now.query.pattern }
    {
        barren_by(
            &segment.place.head,
            self.query.plan(),
            self.query.range(),
            self.asked.constants.as_slice(),
            self.found,
        )
    }

    /// Whether the log types and words that a segment's head lists, and its moments, leave one of
    /// its messages.
    pub fn may_match(&self, segment: &LoadedSegment) -> bool
        ensures { IsFalse result → OfLoaded self.now.query segment.now (λ p.
            IsTold self.now.names → HasNoMatch (wide_pieces self.now.query.pattern)
            self.now.names.types self.now.names.words p.head) }
    {
        let head = &segment.place.head;
        if segment.unread == 0 {
            return self.asked.filter.may_match(head);
        }
        self.asked.filter.may_match_types(head)
    }

    /// Whether the lists of words in heads tell a search nothing: no word brings a token of the
    /// pattern, and no needed word is a variable.
    pub fn spares_words(&self) -> bool
        ensures { IsTrue result → NeedsNoVariable (wide_pieces self.now.query.pattern) }
    {
        if has_variable(self.query.plan().needed_variables()) {
            return false;
        }
        self.asked.filter.spares_words()
    }

    /// Whether these log types tell that no message of a row that has one of them is expanded,
    /// whatever else the row has.
    pub fn rules_out(&self, types: &[u32]) -> bool
        ensures { IsTrue result → IsTold self.now.names
            → All (IsRuledOut self.now.names self.now.query) types.now }
    {
        self.asked.filter.rejects_all(types)
    }

    /// What is told of a row by its moment, and by its numbers alone. One that is out of the range
    /// counts as rejected.
    pub fn decide(&self, row: RowRef<'_>) -> Verdict
        ensures { IsTold self.now.names
            → IsDecided self.now.names self.now.query (row_of row.entry) result }
    {
        self.decide_in(self.filter(), row, &mut PageTests::new())
    }

    /// What log types and words tell of rows.
    pub fn filter(&self) -> &'q Filter
        ensures { IsTold self.now.names
            → IsFilterOf self.now.names self.now.query result.now }
    {
        &self.asked.filter
    }

    /// What is told of a row by its moment, and by its numbers alone, with what goes along from row
    /// to row of a page. The filter is the one that is lent on.
    #[inline]
    pub fn decide_in(&self, filter: &Filter, row: RowRef<'_>, page: &mut PageTests) -> Verdict
        ensures decided { IsPage filter.now page.old
            → (IsTold self.now.names → IsFilterOf self.now.names self.now.query filter.now)
            → IsTold self.now.names
            → IsDecided self.now.names self.now.query (row_of row.entry) result }
        ensures kept { (f : Filter) → IsPage f page.old → IsPage f page.new }
    {
        // What the pattern matches, the one that the search is planned over matches too.
        wide_is_wider();
        if !self.query.range().holds(row.pattern, row.moment) {
            return Verdict::Rejected;
        }
        filter.verdict_in(row, page)
    }

    /// What is told of the row at a place of a page by its moment, and by its numbers alone. It may
    /// be known already that it is rejected.
    #[inline]
    pub fn decide_at(
        &self,
        filter: &Filter,
        known: bool,
        rows: &Columns,
        place: u32,
        page: &mut PageTests,
    ) -> Verdict
        requires { place < length rows.now.rows }
        ensures decided { (row : Row) → slice_get rows.now.rows place ≡ Some row
            → (IsTrue known → Rejects filter.now row) → IsPage filter.now page.old
            → (IsTold self.now.names → IsFilterOf self.now.names self.now.query filter.now)
            → IsTold self.now.names → IsDecided self.now.names self.now.query row result }
        ensures kept { (f : Filter) → IsPage f page.old → IsPage f page.new }
    {
        let query = self.query;
        if known {
            // The pattern is one that was read.
            let _ = query;
            return Verdict::Rejected;
        }
        self.decide_in(filter, rows.row(place), page)
    }

    /// The query.
    pub fn query(&self) -> &'q Query
        ensures { result.now ≡ self.now.query }
    {
        self.query
    }

    /// The first log types that are held, cut into pieces.
    pub fn layouts(&self) -> &'q Layouts
        ensures { AreCut result.now self.now.names.kept.texts }
    {
        self.layouts
    }
}
