//! Logs in memory that are opened by name.
ghost use Rattle.std.specs.Prelude.{◌≡◌, ◌≢◌, ◌<◌, ◌≤◌, ◌↔◌, ◌⊎◌, List, ℕ, ◌∷◌, min, length, IfOk, IsSome, IsNone, IsErr, IsErrOf, OnErr, OnOk, ◌++◌, [], Contains, option_copied};
ghost use Rattle.log_seams.specs.MemShelf.{file_of, IsOpened};
ghost use Rattle.log_seams.specs.Memory.{CalledOnce};
ghost use Rattle.log_seams.specs.Outside.{Counts, Rose, Takes};

use crate::calls::Calls;
use crate::closed_logs::ClosedLogs;
use crate::{Failed, MemSource, OpenRefused, Shelf, Source};
use plain_list::Text;
use std::alloc::{AllocError, Global};
use std::marker::Model;
use std::mem;

/// A file of a shelf in memory: its name, its bytes, and the numbers of the reads that fail each
/// time that it is opened.
#[derive(Drop)]
pub struct MemFile {
    pub name: String,
    pub bytes: Text,
    pub read_fails: Vec<u64>,
}

/// A log that a `MemShelf` opened. It tells its bytes and its name.
#[derive(Drop)]
pub struct ShelfSource {
    log: MemSource,
    name: Text,
    place: Box<ClosedLogs>,
}

impl Model for ShelfSource {
    ghost use Rattle.log_seams.specs.Memory.{NamedState};

    ghost Value = { NamedState };

    ghost view = { λ s. record { name = s.name; log = s.log } };
}

impl Source for ShelfSource {
    ghost use Rattle.std.specs.Prelude.{Some};

    ghost left = { λ s. Some s.log.left };

    ghost name = { λ s. Some s.name };

    ghost faults = { λ s. s.log.faults };

    fn read(&mut self, buf: &mut [u8]) -> Result<usize, Failed>
        requires { 0 < length buf.old }
        // As of every source.
        ensures within { IfOk result (λ n. n ≤ length buf.old) }
        ensures taken { IfOk result
            (λ n. Takes n buf.new (Some self.old.log.left) (Some self.new.log.left)) }
        ensures untaken { OnErr result (self.new.log.left ≡ self.old.log.left) }
        ensures name { self.new.name ≡ self.old.name }
        ensures cause { Counts self.old.log.faults self.new.log.faults result }

        // As of a log in memory.
        ensures listed { IsErr result ↔ Contains self.old.log.calls.fails self.old.log.calls.made }
        ensures full { IfOk result (λ n. n ≡ min (length buf.old) (length self.old.log.left)) }
        ensures calls { CalledOnce self.old.log.calls self.new.log.calls }
    {
        self.log.read(buf)
    }
}

/// A shelf in memory whose openings with certain numbers fail. It tells the bytes of its files
/// and the faults of each of its names.
#[derive(Drop)]
pub struct MemShelf {
    alloc: Global,
    files: Vec<MemFile>,
    calls: Calls,
    absent: u64,
    refused: Vec<Text>,
    closed: ClosedLogs,
}

impl Model for MemShelf {
    ghost use Rattle.log_seams.specs.MemShelf.{ShelfState};

    ghost Value = { ShelfState };

    ghost view = { λ s. record {
      files = s.files.items;
      calls = s.calls;
      absent = s.absent;
      refused = s.refused.items;
      closed = s.closed;
    } };
}

impl MemShelf {
    ghost use Rattle.log_seams.specs.MemShelf.{shelf_open_faults, shelf_read_faults};

    /// The shelf of these files, whose openings with a number in `fails` will fail. The first
    /// opening has the number 0.
    ///
    /// Of two files with one name the first is opened. `alloc` is for the copies that are opened.
    pub fn new(alloc: Global, files: Vec<MemFile>, fails: Vec<u64>) -> MemShelf
        ensures files { result.files ≡ files.items }
        ensures made { result.calls.made ≡ 0 }
        ensures fails { result.calls.fails ≡ fails.items }
        ensures opens { (n : List ℕ) → shelf_open_faults result n ≡ 0 }
        ensures reads { (n : List ℕ) → shelf_read_faults result n ≡ 0 }
    {
        MemShelf {
            alloc,
            files,
            calls: Calls::new(fails),
            absent: 0,
            refused: Vec::new(alloc),
            closed: ClosedLogs::new(),
        }
    }
}

/// The first of the files that has this name.
fn find_file<'a>(files: &'a [MemFile], name: &str) -> Option<&'a MemFile>
    ensures { option_copied result ≡ file_of files.entry.now name.now }
{
    files.iter().find(|file| file.name.as_str() == name)
}

/// A log of a file's bytes from the first on, under this name.
fn opened(alloc: Global, file: &MemFile, name: &str) -> Result<ShelfSource, AllocError>
    ensures left { IfOk result (λ s. s.log.left ≡ file.now.bytes) }
    ensures name { IfOk result (λ s. s.name ≡ name.now) }
    ensures made { IfOk result (λ s. s.log.calls.made ≡ 0) }
    ensures fails { IfOk result (λ s. s.log.calls.fails ≡ file.now.read_fails.items) }
    ensures faults { IfOk result (λ s. s.log.faults ≡ 0) }
{
    let bytes = Text::new(file.bytes.as_slice().to_vec(alloc)?);
    let fails = file.read_fails.as_slice().to_vec(alloc)?;
    Ok(ShelfSource {
        log: MemSource::new(bytes, fails),
        name: Text::new(name.as_bytes().to_vec(alloc)?),
        place: Box::new(alloc, ClosedLogs::new())?,
    })
}

/// Adds a name to those that were refused.
fn refuse(alloc: Global, refused: &mut Vec<Text>, name: &str) -> Result<(), AllocError>
    ensures ok { OnOk result (refused.new.items ≡ refused.old.items ++ name.now ∷ []) }
    ensures err { OnErr result (refused.new.items ≡ refused.old.items) }
{
    let name = Text::new(name.as_bytes().to_vec(alloc)?);
    Ok(refused.push(name)?)
}

impl Shelf for MemShelf {
    ghost use Rattle.log_seams.specs.MemShelf.{shelf_content, shelf_unread, shelf_open_faults, shelf_read_faults};
    ghost use Rattle.log_seams.specs.declared.refusals.OpenRefused.{OpenRefused};

    type Src = ShelfSource;

    ghost content = { shelf_content };

    ghost unread = { shelf_unread };

    ghost open_faults = { shelf_open_faults };

    ghost read_faults = { shelf_read_faults };

    fn open_log(&mut self, name: &str) -> Result<ShelfSource, OpenRefused>
        // What stays.
        ensures stays { (self.new.files ≡ self.old.files) × (self.new.closed ≡ self.old.closed) }
        ensures calls { CalledOnce self.old.calls self.new.calls }

        // The opened log.
        ensures opened { IfOk result (IsOpened (file_of self.old.files name.now) name.now) }

        // The counts in opening.
        ensures opens { (n : List ℕ) → shelf_open_faults self.old n ≤ shelf_open_faults self.new n }
        ensures others { (n : List ℕ) → n ≢ name.now → IsSome (file_of self.old.files n)
            → shelf_open_faults self.new n ≡ shelf_open_faults self.old n }
        ensures steady { OnOk result
            ((n : List ℕ) → shelf_open_faults self.new n ≡ shelf_open_faults self.old n) }
        ensures cause { IsErrOf result OpenRefused.Failed
            → Rose (shelf_open_faults self.old name.now) (shelf_open_faults self.new name.now) }

        // Which openings fail.
        ensures absent { IsNone (file_of self.old.files name.now)
            → IsErrOf result OpenRefused.Failed }
        ensures listed { Contains self.old.calls.fails self.old.calls.made → IsErr result }
        ensures only { IsErrOf result OpenRefused.Failed
            → IsNone (file_of self.old.files name.now)
            ⊎ Contains self.old.calls.fails self.old.calls.made }
    {
        let listed = self.calls.next_fails();
        let Some(file) = find_file(self.files.as_slice(), name) else {
            self.absent = self.absent.saturating_add(1);
            return Err(OpenRefused::Failed);
        };
        if listed {
            refuse(self.alloc, &mut self.refused, name)?;
            return Err(OpenRefused::Failed);
        }
        Ok(opened(self.alloc, file, name)?)
    }

    fn close_log(&mut self, src: ShelfSource)
        ensures files { self.new.files ≡ self.old.files }
        ensures calls { self.new.calls ≡ self.old.calls }
        ensures opens { (self.new.absent ≡ self.old.absent)
            × (self.new.refused ≡ self.old.refused) }
        ensures closed { self.new.closed ≡ (record {
          name = src.name;
          left = src.log.left;
          faults = src.log.faults;
        }) ∷ self.old.closed }
    {
        let ShelfSource { log, name, place } = src;
        let older = mem::replace(&mut self.closed, ClosedLogs::new());
        self.closed = older.with(place, name, log);
    }
}
