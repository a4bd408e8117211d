//! What a search knows of an archive's words and log types, so that rows are tested by bits alone.
ghost use Rattle.std.specs.Prelude.{◌≡◌, ◌≢◌, ◌⊎◌, ◌<◌, ◌≤◌, ℕ, List, IfOk, IsFalse, IsTrue, Some, slice_get, slice_index_or};
ghost use Rattle.std.specs.List.{Contains};
ghost use Rattle.column_store.specs.Row.{row_of};
ghost use Rattle.logtype_text.specs.declared.symbols.Kind.TheVariants.{Word};
ghost use Rattle.wild_match.specs.declared.pattern.Item.{Item};
ghost use Rattle.row_codec.specs.Means.{HasStampText, HasWord};
ghost use Rattle.query_plan.specs.Laws.{IsSearched};
ghost use Rattle.query_plan.specs.Pieces.{wide_pieces};
ghost use Rattle.query_plan.specs.declared.pieces.Piece.{Piece};
ghost use Rattle.subquery_filter.specs.declared.filter.Filter.{Filter};
ghost use Rattle.subquery_filter.specs.declared.slots.Slot.{Slot};
ghost use Rattle.subquery_filter.specs.Filter.{AreCoded, AreMarks, AsksTypes, Has, HasNoMatch, IsFilter, IsRowVerdict, IsToldBy, LacksAll, MarksVariable, StampMarks, TellsSmall, others_of};
ghost use Rattle.subquery_filter.specs.Asking.{HasRejected};
ghost use Rattle.subquery_filter.specs.declared.verdicts.Verdict.TheVariants.{Certain, Rejected};
ghost use Rattle.subquery_filter.specs.Found.{HaveAll};
ghost use Rattle.subquery_filter.specs.Page.{AreStampBits, IsPage};
ghost use Rattle.subquery_filter.specs.StepsFilter.{Brings, BringsWords, GivesAny, HasEach, IsShut, Lacks, LacksStamp, LacksTokens, RunsBring, SlotGives, SlotIs, StampsBring};

use crate::alone::runs_of;
use crate::asking::{Asking, add_all};
use crate::bits::{any_of, has, mark_at};
use crate::laws::{rows_bring_chunks, rows_bring_runs, verdicts_hold};
use crate::marks::WordMarks;
use crate::needing::{Need, open_bits};
use crate::needles::{lists_with, texts_of};
use crate::numbers::{decimal_bits, kind_bits, whole_bits};
use crate::run::Run;
use crate::run_stamps::{mark_runs, runs_within, stamp_runs};
use crate::shared::{PageTests, StampBits};
use crate::slots::{Slot, TypeTest};
use crate::small::SmallNumbers;
use crate::stamps::{bits_within, mark_stamps, stamp_bits};
use crate::token::Token;
use crate::tokens::{all_bits, tokens_of};
use crate::verdicts::Verdict;
use column_store::RowRef;
use logtype_text::Kind;
use plain_list::{NumberList, Text};
use query_plan::Plan;
use row_codec::Names;
use segment_format::Head;
use std::alloc::{AllocError, Global};
use var_codec::one_word;

/// What is known of the log types and the words of an archive, for one search.
///
/// Each token of the pattern has a bit. A row brings the bits of the tokens that stand among the
/// constant bytes of its log type, in the texts of its variables or in its stamp: one that does not
/// bring all of them cannot match.
#[derive(Debug, Drop)]
pub struct Filter {
    pub(crate) tokens: Vec<Token>,
    /// The bits of all tokens, and those of the tokens that are no closed variables, and may stand in
    /// numbers.
    pub(crate) wanted: u8,
    pub(crate) numeric: u8,
    /// What is told of all rows of a log type, by their numbers.
    pub(crate) verdicts: Vec<Verdict>,
    /// What a row of a log type needs, by their numbers.
    pub(crate) needs: Vec<Need>,
    /// What is known of the log types, by their numbers, and their slots.
    pub(crate) tests: Vec<TypeTest>,
    pub(crate) slots: Vec<Slot>,
    /// The texts of the tokens, which are looked for in words.
    pub(crate) needles: Vec<Text>,
    /// The bits of the words.
    pub(crate) marks: WordMarks,
    /// The bits that words may bring.
    pub(crate) brought: u8,
    /// The bits that numbers may bring.
    pub(crate) numbers: u8,
    /// What is told of numbers by their words.
    pub(crate) small: SmallNumbers,
    /// The bits that stamps may bring, by the numbers of their patterns, and those of all patterns.
    pub(crate) stamps: Vec<u8>,
    pub(crate) stamped: u8,
    /// The runs of the pattern, each with a bit too, and those that each log type leaves to stamps,
    /// by their numbers.
    pub(crate) runs: Vec<Run>,
    pub(crate) alone: Vec<u8>,
    /// The bits of the runs that stamps may have, by the numbers of their patterns, and those of
    /// all patterns.
    pub(crate) run_stamps: Vec<u8>,
    pub(crate) run_stamped: u8,
}

/// The bits that listed words have.
fn bits_of_list(marks: &WordMarks, numbers: &[u32]) -> u8
    ensures { HasEach marks.now numbers.now result }
{
    let mut bits = 0;
    for number in numbers {
        bits |= marks.at(u64::from(*number));
    }
    bits
}

/// The word at a place.
#[inline]
fn word_at(words: &[u64], place: usize) -> Option<u64>
    ensures { result ≡ slice_get words.now place }
{
    words.get(place).copied()
}

impl Filter {
    /// Asks no log type and no word: nothing is told of a row before these are asked.
    pub fn begin(alloc: Global, plan: &Plan) -> Result<Filter, AllocError>
        ensures { IfOk result (λ f. (types : List (List ℕ)) → AsksTypes plan.now types f) }
    {
        let pieces = plan.pieces();
        let tokens = tokens_of(alloc, pieces)?;
        let looked = tokens.as_slice();
        let kinds = kind_bits(looked);
        let needles = texts_of(alloc, looked)?;
        let stamps = mark_stamps(alloc, looked)?;
        let wanted = all_bits(looked);
        let stamped = any_of(stamps.as_slice());
        let runs = runs_of(alloc, pieces)?;
        let run_stamps = mark_runs(alloc, runs.as_slice())?;
        let run_stamped = any_of(run_stamps.as_slice());
        let small = SmallNumbers::none(alloc);
        let numeric = open_bits(looked);
        Ok(Filter {
            tokens,
            wanted,
            numeric,
            verdicts: Vec::new(alloc),
            needs: Vec::new(alloc),
            tests: Vec::new(alloc),
            slots: Vec::new(alloc),
            needles,
            marks: WordMarks::none(alloc),
            brought: wanted,
            numbers: kinds.whole | kinds.decimal,
            small,
            stamps,
            stamped,
            runs,
            alone: Vec::new(alloc),
            run_stamps,
            run_stamped,
        })
    }

    /// The bits of the runs that a log type leaves to stamps.
    #[inline]
    fn alone_at(&self, number: u64) -> u8
        ensures { result ≡ slice_index_or self.now.alone.items number 0 }
    {
        mark_at(self.alone.as_slice(), number)
    }

    /// The verdict on all rows of a log type that leaves these runs to stamps. It is given up where
    /// its rows cannot bring all runs, whatever their stamps are, or all tokens, whatever their
    /// words are.
    pub(crate) fn verdict_by(&self, test: &TypeTest, alone: u8) -> Verdict
        ensures { IsToldBy self.now test.now alone result }
    {
        if !has(self.run_stamped, alone) {
            return Verdict::Rejected;
        }
        if test.verdict == Verdict::Tried && self.lacks_all(test, self.stamped, self.brought) {
            return Verdict::Rejected;
        }
        test.verdict
    }

    /// The texts that have to be looked for in words. There are none where the pattern has no
    /// token.
    pub fn needles(&self) -> &[Text]
        ensures { result.now ≡ self.now.needles.items }
    {
        self.needles.as_slice()
    }

    /// Marks the words: for each needle there is a list of the numbers of the words in which it
    /// stands. Where there are no needles, no lists are needed. What log types told before is
    /// forgotten, since it was told by other words.
    ///
    /// Takes memory for the marks: some bytes for each number, and at most one for each word.
    pub fn mark(self, alloc: Global, lists: &[NumberList]) -> Result<Filter, AllocError>
        ensures { IfOk result (λ f. (ps : List Piece) (types : List (List ℕ))
            (words : List (List ℕ)) → AsksTypes ps types self
            → HaveAll self.needles.items words lists.now → IsFilter ps types words f) }
    {
        let marks = WordMarks::of(alloc, self.tokens.as_slice(), lists)?;
        Ok(Filter {
            brought: marks.all(),
            marks,
            verdicts: Vec::new(alloc),
            needs: Vec::new(alloc),
            tests: Vec::new(alloc),
            slots: Vec::new(alloc),
            alone: Vec::new(alloc),
            ..self
        })
    }

    /// The bits that stamps, numbers and words may bring.
    pub(crate) fn others(&self) -> u8
        ensures { result ≡ others_of self.now }
    {
        self.stamped | self.numbers | self.brought
    }

    /// Asks all log types of an archive, after its words: a log type is rejected without a look at
    /// its slots, where its constant bytes do not bring what stamps, numbers and words leave out.
    ///
    /// Takes memory for each log type and for each slot that may bring a token.
    pub fn ask<N: Names>(self, alloc: Global, plan: &Plan, names: &N) -> Result<Filter, AllocError>
        ensures asks { IfOk result (λ f. AsksTypes plan.now (N.types names.now) self
            → AsksTypes plan.now (N.types names.now) f) }
        ensures filter { IfOk result (λ f. (words : List (List ℕ))
            → IsFilter plan.now (N.types names.now) words self
            → IsFilter plan.now (N.types names.now) words f) }
    {
        let mut asking = Asking::begin(alloc, plan, self)?;
        add_all(&mut asking, names)?;
        let asked = asking.finish()?;
        Ok(asked.filter)
    }

    /// Asks all words and all log types of an archive, where the words are in memory.
    pub fn new<N: Names>(alloc: Global, plan: &Plan, names: &N) -> Result<Filter, AllocError>
        ensures { IfOk result (IsFilter plan.now (N.types names.now) (N.words names.now)) }
    {
        let filter = Filter::begin(alloc, plan)?;
        let lists = lists_with(alloc, filter.needles(), names)?;
        let marked = filter.mark(alloc, lists.as_slice())?;
        marked.ask(alloc, plan, names)
    }

    /// What is known of a log type.
    #[inline]
    fn test_at(&self, number: u32) -> Option<TypeTest>
        ensures { result ≡ slice_get self.now.tests.items number }
    {
        self.tests.get(number as usize).copied()
    }

    /// The slot that is listed at a place.
    #[inline]
    fn slot_at(&self, at: usize) -> Option<Slot>
        ensures { result ≡ slice_get self.now.slots.items at }
    {
        self.slots.get(at).copied()
    }

    /// The bits of the tokens that stand in the text of a variable.
    #[inline]
    fn variable_bits(&self, kind: Kind, word: u64) -> u8
        ensures { (words : List (List ℕ)) (variable : List ℕ)
            → (kind ≡ Word → AreMarks self.now.tokens.items words self.now.marks)
            → TellsSmall self.now.tokens.items self.now.small
            → AreCoded self.now.tokens.items → HasWord words kind variable word
            → MarksVariable self.now.tokens.items variable result }
    {
        match kind {
            Kind::Word => self.marks.at(word),
            Kind::Whole => whole_bits(self.tokens.as_slice(), &self.small, word),
            Kind::Decimal => decimal_bits(self.tokens.as_slice(), &self.small, word),
        }
    }

    /// The bits that a row brings by a slot.
    #[inline]
    fn word_bits(&self, slot: Slot, words: &[u64]) -> u8
        ensures { (all : ℕ) → Has all result → (word : ℕ)
            → slice_get words.now slot.place ≡ Some word → SlotGives self.now slot word all }
    {
        match word_at(words, slot.place as usize) {
            Some(word) => self.variable_bits(slot.kind, word),
            None => 0,
        }
    }

    /// The bits that a row may bring by a slot. By one of a word it brings no more than words do.
    #[inline]
    fn may_bring(&self, slot: Slot) -> u8
        ensures { (all : ℕ) → Has all result → (word : ℕ) → SlotGives self.now slot word all }
    {
        match slot.kind {
            Kind::Word => slot.bits & self.brought,
            Kind::Whole | Kind::Decimal => slot.bits,
        }
    }

    /// The bits that a row brings by the slot that is listed at a place, beyond those that it has.
    #[inline]
    fn slot_bits(&self, at: usize, words: &[u64], bits: u8) -> u8
        ensures { (all : ℕ) → Has all bits → Has all result → SlotIs self.now at words.now all }
    {
        let Some(slot) = self.slot_at(at) else {
            return 0;
        };
        if has(bits, self.may_bring(slot)) {
            return 0;
        }
        self.word_bits(slot, words)
    }

    /// These bits, and those that a row brings by its variables.
    #[inline]
    fn with_slots(&self, test: &TypeTest, words: &[u64], bits: u8) -> u8
        ensures more { Has result bits }
        ensures slots { (at : ℕ) → test.now.first ≤ at → at < test.now.end
            → SlotIs self.now at words.now result }
    {
        let mut all = bits;
        for at in test.first..test.end {
            all |= self.slot_bits(at, words, all);
        }
        all
    }

    /// The bits that a row brings by its word at a place, whatever slot it is in, beyond those that
    /// it has.
    #[inline]
    fn any_bits(&self, words: &[u64], place: usize, bits: u8) -> u8
        ensures { (all : ℕ) → Has all bits → Has all result
            → GivesAny self.now words.now place all }
    {
        let Some(word) = word_at(words, place) else {
            return 0;
        };
        let by_word = self.variable_bits(Kind::Word, word);
        if has(bits, self.numbers) {
            return by_word;
        }
        let by_whole = self.variable_bits(Kind::Whole, word);
        by_word | by_whole | self.variable_bits(Kind::Decimal, word)
    }

    /// These bits, and those that a row brings by all its words, whatever slots they are in.
    fn with_all(&self, words: &[u64], bits: u8) -> u8
        ensures more { Has result bits }
        ensures words { (place : ℕ) → GivesAny self.now words.now place result }
    {
        let mut all = bits;
        for place in 0..words.len() {
            all |= self.any_bits(words, place, all);
        }
        all
    }

    /// These bits, and those that a row of a log type brings by its variables.
    #[inline]
    fn with_variables(&self, test: &TypeTest, words: &[u64], bits: u8) -> u8
        ensures more { Has result bits }
        ensures brings { Brings self.now test.now words.now result }
    {
        if test.listed {
            return self.with_slots(test, words, bits);
        }
        self.with_all(words, bits)
    }

    /// The bits that a row brings by the slot that is listed at a place, where it is one of a word.
    #[inline]
    fn dictionary_bits(&self, at: usize, words: &[u64], bits: u8) -> u8
        ensures { (all : ℕ) → Has all bits → Has all result → (slot : Slot)
            → slice_get self.now.slots.items at ≡ Some slot → slot.kind ≡ Word
            → SlotIs self.now at words.now all }
    {
        let Some(slot) = self.slot_at(at) else {
            return 0;
        };
        if slot.kind != Kind::Word {
            return 0;
        }
        self.slot_bits(at, words, bits)
    }

    /// These bits, and those that a row brings by its words.
    #[inline]
    fn with_words(&self, test: &TypeTest, words: &[u64], bits: u8) -> u8
        ensures more { Has result bits }
        ensures slots { (at : ℕ) → test.now.first ≤ at → at < test.now.end → (slot : Slot)
            → slice_get self.now.slots.items at ≡ Some slot → slot.kind ≡ Word
            → SlotIs self.now at words.now result }
    {
        let mut all = bits;
        for at in test.first..test.end {
            all |= self.dictionary_bits(at, words, all);
        }
        all
    }

    /// These bits, among them those of numbers, and those that a row of a log type brings by its
    /// words.
    #[inline]
    fn with_dictionary(&self, test: &TypeTest, words: &[u64], bits: u8) -> u8
        ensures more { Has result bits }
        ensures brings { BringsWords self.now test.now words.now result }
    {
        if test.listed {
            return self.with_words(test, words, bits);
        }
        self.with_all(words, bits)
    }

    /// What a stamp of a page may bring, which has this pattern and this moment.
    #[inline]
    fn stamp_at(&self, pattern: u8, moment: i64, page: &PageTests) -> StampBits
        ensures { IsPage self.now page.now → AreStampBits self.now pattern moment result }
    {
        let number = u64::from(pattern);
        let own = StampBits {
            runs: mark_at(self.run_stamps.as_slice(), number),
            tokens: mark_at(self.stamps.as_slice(), number),
        };
        page.may_at(pattern, moment, own)
    }

    /// Whether a row of a log type does not bring all tokens, whatever its numbers and its stamp
    /// are: so neither are looked at where a token stands in no word of it that only words may
    /// bring.
    #[inline]
    fn lacks_words(&self, test: &TypeTest, row: RowRef<'_>, may: StampBits) -> bool
        ensures { IsTrue result → AreStampBits self.now row.entry.pattern row.entry.moment may
            → Lacks self.now test.now (row_of row.entry) }
    {
        let others = test.has | self.numbers | may.tokens;
        if has(others, self.wanted) {
            return false;
        }
        let all = self.with_dictionary(test, row.words, others);
        !has(all, self.wanted)
    }

    /// These bits, and those that a row brings by its stamp, which is printed only where what it may
    /// bring is all that is missing.
    #[inline]
    fn with_stamp(&self, row: RowRef<'_>, bits: u8, may: u8, page: &mut PageTests) -> u8
        ensures more { Has result bits }
        ensures stamp { (s : List ℕ)
            → (HasStampText row.entry.pattern row.entry.moment s
            → StampMarks self.now.tokens.items s may)
            → HasStampText row.entry.pattern row.entry.moment s
            → StampMarks self.now.tokens.items s result }
        ensures kept { page.new.spans ≡ page.old.spans }
    {
        if !has(bits | may, self.wanted) {
            return bits | may;
        }
        bits | stamp_bits(
            self.tokens.as_slice(),
            may,
            row.pattern,
            row.moment,
            &mut page.printer,
        )
    }

    /// Whether a row of a log type does not bring all tokens: by its constant bytes, its variables,
    /// and at last by its stamp.
    #[inline]
    fn lacks(&self, test: &TypeTest, row: RowRef<'_>, may: StampBits, page: &mut PageTests) -> bool
        ensures lacks { IsTrue result → AreStampBits self.now row.entry.pattern row.entry.moment may
            → Lacks self.now test.now (row_of row.entry) }
        ensures kept { page.new.spans ≡ page.old.spans }
    {
        if self.lacks_words(test, row, may) {
            return true;
        }
        let bits = self.with_variables(test, row.words, test.has);
        if has(bits, self.wanted) {
            return false;
        }
        let all = self.with_stamp(row, bits, may.tokens, page);
        !has(all, self.wanted)
    }

    /// What is told of all rows of a log type.
    #[inline]
    pub(crate) fn verdict_at(&self, number: u32) -> Option<Verdict>
        ensures { result ≡ slice_get self.now.verdicts.items number }
    {
        self.verdicts.get(number as usize).copied()
    }

    /// Whether a run that the row's log type leaves to stamps does not stand in the row's own,
    /// which is printed.
    #[inline]
    fn lacks_own_run(&self, row: RowRef<'_>, page: &mut PageTests) -> bool
        ensures lacks { IsTrue result → LacksStamp self.now (row_of row.entry) }
        ensures kept { page.new.spans ≡ page.old.spans }
    {
        let alone = self.alone_at(u64::from(row.log_type));
        if alone == 0 {
            return false;
        }
        let own = mark_at(self.run_stamps.as_slice(), u64::from(row.pattern));
        let bits = stamp_runs(
            self.runs.as_slice(),
            own,
            row.pattern,
            row.moment,
            &mut page.printer,
        );
        !has(bits, alone)
    }

    /// Whether a row does not bring all tokens, or a run that its log type leaves to stamps. Where
    /// all stamps of the page bring the tokens, neither its variables nor its stamp are looked at;
    /// and where its log type brings them, its variables are not.
    #[inline]
    fn lacks_tokens(&self, row: RowRef<'_>, may: StampBits, page: &mut PageTests) -> bool
        ensures lacks { IsTrue result → AreStampBits self.now row.entry.pattern row.entry.moment may
            → LacksStamp self.now (row_of row.entry) ⊎ LacksTokens self.now (row_of row.entry) }
        ensures kept { page.new.spans ≡ page.old.spans }
    {
        let Some(test) = self.test_at(row.log_type) else {
            return false;
        };
        let shared = page.shared(row.pattern);
        if has(shared, self.wanted) {
            return false;
        }
        if has(test.has, self.wanted) {
            return self.lacks_own_run(row, page);
        }
        !has(test.has | shared, self.wanted)
            && (self.lacks_hits(&test, row, may) || self.lacks(&test, row, may, page))
    }

    /// Whether a run that the row's log type leaves to stamps is none that its stamp may have.
    #[inline]
    fn lacks_runs(&self, row: RowRef<'_>, may: StampBits) -> bool
        ensures { IsTrue result → AreStampBits self.now row.entry.pattern row.entry.moment may
            → LacksStamp self.now (row_of row.entry) }
    {
        !has(may.runs, self.alone_at(u64::from(row.log_type)))
    }

    /// Whether a row does not bring all runs, or all tokens.
    #[inline]
    fn lacks_some(&self, row: RowRef<'_>, page: &mut PageTests) -> bool
        ensures lacks { IsTrue result → IsPage self.now page.old
            → LacksStamp self.now (row_of row.entry) ⊎ LacksTokens self.now (row_of row.entry) }
        ensures kept { page.new.spans ≡ page.old.spans }
    {
        let may = self.stamp_at(row.pattern, row.moment, page);
        self.lacks_runs(row, may) || self.lacks_tokens(row, may, page)
    }

    /// What is known of a row: whether the pattern matches its message, or cannot. Takes no memory.
    ///
    /// That it matches is told by the log types alone, so it holds with any words.
    #[inline]
    pub fn verdict(&self, row: RowRef<'_>) -> Verdict
        ensures told { (p : List Item) (types : List (List ℕ)) (words : List (List ℕ))
            → IsSearched p → IsFilter (wide_pieces p) types words self.now
            → IsRowVerdict (wide_pieces p) types words (row_of row.entry) result }
        ensures certain { result ≡ Certain → (p : List Item) (types : List (List ℕ))
            → AsksTypes (wide_pieces p) types self.now → (words : List (List ℕ))
            → IsRowVerdict (wide_pieces p) types words (row_of row.entry) Certain }
        ensures typed { result ≢ Rejected → ¬ HasRejected self.now row.entry.log_type }
    {
        self.verdict_in(row, &mut PageTests::new())
    }

    /// What goes along while the rows of a page are told, which have these patterns and moments.
    pub fn begin_page(&self, patterns: &[u8], moments: &[i64]) -> PageTests
        ensures { IsPage self.now result }
    {
        if self.stamped | self.run_stamped == 0 {
            return PageTests::new();
        }
        PageTests::of(
            self.tokens.as_slice(),
            self.runs.as_slice(),
            patterns,
            moments,
        )
    }

    /// What is known of a row of a page, as `verdict` tells it, with what goes along from row to
    /// row.
    #[inline]
    pub fn verdict_in(&self, row: RowRef<'_>, page: &mut PageTests) -> Verdict
        ensures told { IsPage self.now page.old
            → (p : List Item) (types : List (List ℕ)) (words : List (List ℕ))
            → IsSearched p → IsFilter (wide_pieces p) types words self.now
            → IsRowVerdict (wide_pieces p) types words (row_of row.entry) result }
        ensures kept { (f : Filter) → IsPage f page.old → IsPage f page.new }
        ensures certain { result ≡ Certain → (p : List Item) (types : List (List ℕ))
            → AsksTypes (wide_pieces p) types self.now → (words : List (List ℕ))
            → IsRowVerdict (wide_pieces p) types words (row_of row.entry) Certain }
        ensures typed { result ≢ Rejected → ¬ HasRejected self.now row.entry.log_type }
    {
        verdicts_hold();
        rows_bring_runs();
        rows_bring_chunks();
        one_word();
        let Some(verdict) = self.verdict_at(row.log_type) else {
            return Verdict::Tried;
        };
        if verdict == Verdict::Tried && self.lacks_some(row, page) {
            return Verdict::Rejected;
        }
        verdict
    }

    /// Whether no row of a log type brings all tokens, where the stamps and the words bring these
    /// bits.
    fn lacks_all(&self, test: &TypeTest, stamped: u8, brought: u8) -> bool
        ensures { IsTrue result → LacksAll self.now test.now stamped brought }
    {
        let sums = test.sums;
        let by_slots = sums.numbers | (sums.words & brought);
        !has(test.has | stamped | by_slots, self.wanted)
    }

    /// Whether a row of a log type may match, whose stamp has these runs, and whose stamp and words
    /// bring these bits.
    fn may_be(&self, number: u32, runs: u8, stamped: u8, brought: u8) -> bool
        ensures { IsFalse result → IsShut self.now runs stamped brought number }
    {
        if !has(runs, self.alone_at(u64::from(number))) {
            return false;
        }
        let Some(test) = self.test_at(number) else {
            return true;
        };
        match test.verdict {
            Verdict::Rejected => false,
            Verdict::Certain => true,
            Verdict::Tried => !self.lacks_all(&test, stamped, brought),
        }
    }

    /// Whether a row of one of these log types may match, whose stamp has these runs, and whose
    /// stamp and words bring these bits.
    pub(crate) fn some_may(&self, types: &[u32], runs: u8, stamped: u8, brought: u8) -> bool
        ensures { IsFalse result → (t : ℕ) → Contains types.now t
            → IsShut self.now runs stamped brought t }
    {
        for number in types {
            if self.may_be(*number, runs, stamped, brought) {
                return true;
            }
        }
        false
    }

    /// The bits that the stamps of a segment may bring, by its least and its greatest moment.
    pub(crate) fn stamps_of(&self, head: &Head) -> u8
        ensures { StampsBring self.now head.now result }
    {
        let stamps = self.stamps.as_slice();
        let none = mark_at(stamps, 0);
        if !head.stamped {
            return none;
        }
        none | bits_within(self.tokens.as_slice(), stamps, head)
    }

    /// The bits of the runs that the stamps of a segment may have.
    pub(crate) fn stamped_runs(&self, head: &Head) -> u8
        ensures { RunsBring self.now head.now result }
    {
        if !head.stamped {
            return 0;
        }
        runs_within(self.runs.as_slice(), head)
    }

    /// Whether the pattern may match a message of a segment, by what its head lists and by its
    /// least and its greatest moment. Takes no memory.
    ///
    /// The words are asked only where no stamp and no number may bring what is missing.
    pub fn may_match(&self, head: &Head) -> bool
        ensures { IsFalse result → (p : List Item) (names : List (List ℕ)) (texts : List (List ℕ))
            → IsSearched p → IsFilter (wide_pieces p) names texts self.now
            → HasNoMatch (wide_pieces p) names texts head.now }
    {
        verdicts_hold();
        rows_bring_runs();
        rows_bring_chunks();
        let types = head.types.as_slice();
        let runs = self.stamped_runs(head);
        let stamped = self.stamps_of(head);
        if self.some_may(types, runs, stamped, 0) {
            return true;
        }
        let brought = bits_of_list(&self.marks, head.words.as_slice());
        self.some_may(types, runs, stamped, brought)
    }
}
