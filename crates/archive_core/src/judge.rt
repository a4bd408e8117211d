//! A judge over the entries of a journal.
ghost use Rattle.std.specs.Prelude.{◌≡◌, [], ℕ, ◌+◌, ◌<◌, ◌≤◌, ◌↔◌, ◌^◌, All, IfNone, IfOk, IfSome, IsTrue, IsErrOf, OnErr, OnOk, length, min};
ghost use Rattle.std.specs.List.{flat_map, sum_by};
ghost use Rattle.column_store.specs.Row.{variable_count};
ghost use Rattle.row_codec.specs.Numbers.{numbers_of_row};
ghost use Rattle.record_format.specs.Header.{IsHeader};
ghost use Rattle.record_format.specs.Lists.{texts_payload};
ghost use Rattle.archive_core.specs.declared.refusal.JudgeRefusal.TheVariants.{Illegal};
ghost use Rattle.archive_meaning.specs.declared.entry.JournalEntry.TheVariants.{Files, Segment, Types, Words};
ghost use Rattle.archive_meaning.specs.Spelled.{record_of, words_named};
ghost use Rattle.archive_core.specs.Part.{segment_of};
ghost use Rattle.archive_meaning.specs.Sums.{AddsNames, Admits, Sums};

use crate::books::Books;
use crate::log_types::{LogType, add_types};
use crate::numbers::words_of;
use crate::refusal::JudgeRefusal;
use crate::rows::{Rows, rows_say};
use crate::segment::{Part, ends_well, may_follow};
use crate::texts::add_texts;
use archive_meaning::{FileSum, MAX_FILES, MAX_NAME_LEN, MAX_NAMES};
use dict_core::Book;
use plain_list::{NumberList, Text, TextList};
use record_format::{Header, MIN_ARCHIVE_LEN, room_for};
use row_codec::{Layouts, Which};
use std::alloc::{AllocError, Global};
use std::marker::Model;

// The bytes that a record takes beside its payload: its gate, its kind and its length.
const FRAME_LEN: u64 = 10;

const NO_MESSAGES: FileSum = FileSum {
    messages: 0,
    whole: false,
    open_end: false,
};

/// What decides over the next entry of a journal. Contracts see the sums of the entries so far.
#[derive(Drop)]
pub struct Judge {
    header: Header,
    books: Books,
    // What is known of each log type.
    known: Vec<LogType>,
    // Those of the first log types: of all that there were at the last segment.
    layouts: Layouts,
    files: Vec<FileSum>,
    end: u64,
    alloc: Global,
}

impl Model for Judge {
    ghost use Rattle.archive_core.specs.Judged.{IsJudge};
    ghost use Rattle.archive_meaning.specs.Sums.{Sums};

    ghost Value = { Sums };

    ghost view = { λ j. record {
      header = j.header;
      types = j.books.types.texts;
      words = j.books.words.texts;
      files = j.files.items;
      end = j.end;
    } };

    ghost invariant = { λ j. IsJudge j.header j.books.version j.books.types j.books.words
        j.known.items j.layouts j.files.items j.end };
}

// How many bytes the payload of a record of texts takes, or the greatest number where they are more.
fn texts_len(texts: &[Text]) -> usize
    ensures { (first : ℕ) → result ≡ min (length (texts_payload first texts.now)) usize.MAX }
{
    room_for(texts).saturating_add(4)
}

// Whether these names may follow so many others.
fn names_fit(count: usize, names: &[Text]) -> bool
    requires { count ≤ MAX_FILES }
    ensures { IsTrue result ↔ AddsNames count names.now }
{
    !names.is_empty()
        && names.len() <= MAX_NAMES
        && count + names.len() <= MAX_FILES
        && names
            .iter()
            .all(|name| name.as_slice().len() <= MAX_NAME_LEN)
}

impl Judge {
    /// A judge over no entries. Takes no memory.
    pub fn new(alloc: Global, header: &Header) -> Judge
        requires { IsHeader header.now }
        ensures header { result.header ≡ header.now }
        ensures types { result.types ≡ [] }
        ensures words { result.words ≡ [] }
        ensures files { result.files ≡ [] }
        ensures end { result.end ≡ 33 }
    {
        Judge {
            header: *header,
            books: Books {
                types: Book::new(alloc, header.types_limit),
                words: Book::new(alloc, header.words_limit),
                version: header.version,
            },
            known: Vec::new(alloc),
            layouts: Layouts::new(alloc),
            files: Vec::new(alloc),
            end: MIN_ARCHIVE_LEN,
            alloc,
        }
    }

    // Whether a record with a payload of so many bytes keeps the archive within its limit of length.
    fn has_room(&self, payload: usize) -> bool
        ensures { IsTrue result ↔ (self.now.end + 10 + payload ≤ self.now.header.length_limit) }
    {
        let room = self.header.length_limit - self.end;
        room >= FRAME_LEN && room - FRAME_LEN >= payload as u64
    }

    /// Admits the names of further files. A refusal changes nothing.
    ///
    /// # Errors
    ///
    /// [`JudgeRefusal::Illegal`] exactly where the entries with them are not legal, or
    /// [`JudgeRefusal::OutOfMemory`].
    pub fn admit_names(&mut self, names: &TextList) -> Result<(), JudgeRefusal>
        ensures admitted { OnOk result (Admits self.old (Files names.now) self.new) }
        ensures illegal { IsErrOf result Illegal → (more : Sums)
            → ¬ Admits self.old (Files names.now) more }
        ensures err { OnErr result (self.new ≡ self.old) }
    {
        let names = names.as_slice();
        let payload = room_for(names);
        if !names_fit(self.files.len(), names) || !self.has_room(payload) {
            return Err(JudgeRefusal::Illegal);
        }
        self.files
            .resize(self.files.len() + names.len(), NO_MESSAGES)?;
        self.end += FRAME_LEN + payload as u64;
        Ok(())
    }

    // Whether the texts behind `count` others, numbered from `first` on, keep within the limit of length.
    fn goes_on(&self, count: u32, first: u32, payload: usize, texts: &[Text]) -> bool
        ensures { IsTrue result ↔ (first ≡ count) × (0 < length texts.now)
            × (self.now.end + 10 + payload ≤ self.now.header.length_limit) }
    {
        first == count && !texts.is_empty() && self.has_room(payload)
    }

    /// Admits texts of log types, numbered from `first` on. A refusal changes nothing.
    ///
    /// # Errors
    ///
    /// As for names.
    pub fn admit_types(&mut self, first: u32, texts: &TextList) -> Result<(), JudgeRefusal>
        ensures admitted { OnOk result (Admits self.old (Types first texts.now) self.new) }
        ensures illegal { IsErrOf result Illegal → (more : Sums)
            → ¬ Admits self.old (Types first texts.now) more }
        ensures err { OnErr result (self.new ≡ self.old) }
    {
        let texts = texts.as_slice();
        let payload = texts_len(texts);
        if !self.goes_on(self.books.types.len(), first, payload, texts) {
            return Err(JudgeRefusal::Illegal);
        }
        add_types(self.alloc, &mut self.books.types, &mut self.known, texts)?;
        self.end += FRAME_LEN + payload as u64;
        Ok(())
    }

    /// Admits words of variables, numbered from `first` on. A refusal changes nothing.
    ///
    /// # Errors
    ///
    /// As for names.
    pub fn admit_words(&mut self, first: u32, texts: &TextList) -> Result<(), JudgeRefusal>
        ensures admitted { OnOk result (Admits self.old (Words first texts.now) self.new) }
        ensures illegal { IsErrOf result Illegal → (more : Sums)
            → ¬ Admits self.old (Words first texts.now) more }
        ensures err { OnErr result (self.new ≡ self.old) }
    {
        let texts = texts.as_slice();
        let payload = texts_len(texts);
        if !self.goes_on(self.books.words.len(), first, payload, texts) {
            return Err(JudgeRefusal::Illegal);
        }
        add_texts(&mut self.books.words, Which::Words, texts)?;
        self.end += FRAME_LEN + payload as u64;
        Ok(())
    }

    /// Admits a segment of these rows, whose record has a payload of so many bytes. A refusal changes
    /// nothing.
    ///
    /// # Errors
    ///
    /// [`JudgeRefusal::Illegal`] exactly where the entries with it are not legal, or
    /// [`JudgeRefusal::OutOfMemory`].
    pub fn admit_segment<R: Rows>(
        &mut self,
        alloc: Global,
        part: Part,
        rows: &R,
        payload: usize,
    ) -> Result<(), JudgeRefusal>
        requires { payload ≡ length
            (record_of self.old.types (Segment (segment_of part (R.rows rows.now)))).payload }
        ensures admitted { OnOk result
            (Admits self.old (Segment (segment_of part (R.rows rows.now))) self.new) }
        ensures illegal { IsErrOf result Illegal → (more : Sums)
            → ¬ Admits self.old (Segment (segment_of part (R.rows rows.now))) more }
        ensures err { OnErr result (self.new ≡ self.old) }
    {
        let file = part.file as usize;
        if file >= self.files.len() || !self.has_room(payload) {
            return Err(JudgeRefusal::Illegal);
        }
        let sum = self.files[file];
        rows.fit();
        if !may_follow(sum, part, rows) {
            return Err(JudgeRefusal::Illegal);
        }
        self.layouts.extend(&self.books)?;
        let found = rows_say(
            alloc,
            self.books.version,
            &self.books,
            &mut self.known,
            &self.layouts,
            sum.open_end,
            rows,
        )?;
        let Some(open_end) = found else {
            return Err(JudgeRefusal::Illegal);
        };
        if !ends_well(part, open_end) {
            return Err(JudgeRefusal::Illegal);
        }
        self.files[file] = FileSum {
            messages: sum.messages + rows.count() as u64,
            whole: part.last,
            open_end,
        };
        self.end += FRAME_LEN + payload as u64;
        Ok(())
    }

    /// The numbers of dictionary words that rows have by the texts so far, sorted, each once; `None` where
    /// one has more than 32 bits.
    pub fn words_of<R: Rows>(
        &self,
        alloc: Global,
        rows: &R,
    ) -> Result<Option<NumberList>, AllocError>
        ensures some { IfOk result (λ found. IfSome found (λ numbers.
            numbers ≡ words_named self.now.types (R.rows rows.now))) }
        ensures few { IfOk result (λ found. IfSome found (λ numbers.
            length numbers ≤ variable_count (R.rows rows.now))) }
        ensures none { IfOk result (λ found. IfNone found (
            ¬ All (λ n. n < 2 ^ 32) (flat_map (numbers_of_row self.now.types) (R.rows rows.now)))) }
    {
        words_of(alloc, self.known.as_slice(), rows)
    }

    /// How many files have names, and how many messages all files have.
    pub fn counts(&self) -> (u64, u64)
        ensures files { result.0 ≡ length self.now.files }
        ensures messages { result.1 ≡ sum_by (λ f. f.messages) self.now.files }
    {
        let mut messages = 0;
        for sum in &self.files {
            messages += sum.messages;
        }
        (self.files.len() as u64, messages)
    }
}
