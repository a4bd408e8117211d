//! The names of files behind a journal, in groups.
ghost use Rattle.std.specs.Prelude.{◌≡◌, ◌+◌, ◌≤◌, length, All, IfOk};
ghost use Rattle.disk_journal.specs.Journal.{state_of};
ghost use Rattle.archive_meaning.specs.declared.TheConstants.{MAX_FILES};
ghost use Rattle.disk_seal.specs.Opening.{MayOpen};
ghost use Rattle.disk_seal.specs.Registered.{HoldsNames};
ghost use Rattle.name_records.specs.Named.{AreNamed, IsShort, names_of};
ghost use Rattle.name_records.specs.StepsNamed.{IsGroupNamed, MayBeNamed};

use archive_meaning::MAX_NAMES;
use archive_open::FileEntry;
use disk_journal::Journal;
use disk_seal::{RegisterRefusal, register};
use log_seams::Disk;
use plain_list::{Text, TextList};
use std::alloc::{AllocError, Global};

/// How many files have their names in the journal, and why not all have.
#[derive(Drop)]
pub struct Registered {
    /// How many files have their names in the journal.
    pub count: usize,
    /// Why not all have.
    pub refusal: Option<RegisterRefusal>,
}

/// The names of files.
fn texts_of(alloc: Global, files: &[FileEntry]) -> Result<TextList, AllocError>
    ensures { IfOk result (λ texts. texts ≡ names_of files.now) }
{
    let mut texts = Vec::with_capacity(alloc, files.len())?;
    for file in files {
        let bytes = Vec::from_slice(alloc, file.name.as_slice())?;
        texts.push_reserved(Text::new(bytes));
    }
    Ok(TextList::new(texts))
}

/// Appends the names of a group of files to a journal with `held` names.
fn register_group<D: Disk>(
    alloc: Global,
    journal: &mut Journal<'_, D>,
    held: u32,
    files: &[FileEntry],
) -> Result<(), RegisterRefusal>
    requires names { MayBeNamed held (names_of files.now) (state_of journal.old) }
    ensures { IsGroupNamed held (names_of files.now) result journal.old journal.new }
{
    let names = texts_of(alloc, files)?;
    register(alloc, journal, held, &names)?;
    Ok(())
}

/// Appends the names of files to a journal at its end, in groups of as many as a record may have,
/// until one is refused. The first file has this number, which is how many names the archive holds.
pub fn register_names<D: Disk>(
    alloc: Global,
    journal: &mut Journal<'_, D>,
    first: u32,
    files: &[FileEntry],
) -> Registered
    requires opens { MayOpen (state_of journal.old) }
    requires holds { HoldsNames first (state_of journal.old) }
    requires short { All IsShort (names_of files.now) }
    requires few { first + length files.now ≤ MAX_FILES }
    ensures { AreNamed first (names_of files.now) result.count result.refusal
        (state_of journal.old) (state_of journal.new) }
{
    let mut count = 0;
    for group in files.chunks(MAX_NAMES) {
        match register_group(alloc, journal, first + count as u32, group) {
            Ok(()) => count += group.len(),
            Err(refusal) => {
                return Registered {
                    count,
                    refusal: Some(refusal),
                };
            }
        }
    }
    Registered {
        count,
        refusal: None,
    }
}
