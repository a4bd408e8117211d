//! A source over a file of an archive.
ghost use Rattle.std.specs.Prelude.{◌≡◌, ◌≢◌, None, Some};
ghost use Rattle.archive_jobs.specs.Lent.{IsRead, LeavesCause, cause_name, first_of};

use crate::lent::Lent;
use crate::stored_file::StoredFile;
use archive_text::{ClosedText, FileText, StoredText, TextCause, TextRoom};
use log_seams::{Disk, Failed, Source};
use row_codec::{Layouts, Names};
use std::alloc::Global;
use std::marker::{Model, PhantomData};

/// A source over the text of a file, which has the disk meanwhile. Once a text could not be had,
/// none behind it is read: each read of it fails.
#[derive(Drop)]
pub struct FileSource<'a, D: Disk, N: Names, L: Lent> {
    text: FileText<'a, D, N>,
    /// Why a text before it could not be had.
    first: Option<TextCause>,
    lent: PhantomData<L>,
}

/// What is left of a source at its end.
pub(crate) struct ClosedFile<'a, D: Disk, N: Names, L: Lent> {
    /// The file, as far as it was read.
    pub(crate) file: StoredFile<'a, D, N, L>,
    /// The disk that was lent to it.
    pub(crate) disk: &'a mut D,
    /// The memory that was lent to it.
    pub(crate) room: TextRoom,
    /// Why this text or one before it could not be had.
    pub(crate) cause: Option<TextCause>,
}

impl<'a, D: Disk, N: Names, L: Lent> Model for FileSource<'a, D, N, L> {
    ghost use Rattle.archive_jobs.specs.Lent.{FileState, IsOpen};

    ghost Value = { FileState D };

    ghost view = { λ s. record { text = s.text; first = s.first } };

    ghost invariant = { λ s. IsOpen D.state L.lent s.first s.text };
}

// The source over a text, which is not read where there is a cause.
fn open_text<'a, D: Disk, N: Names>(
    alloc: Global,
    text: StoredText<'a, D, N>,
    layouts: &'a Layouts,
    disk: &'a mut D,
    room: TextRoom,
    first: Option<TextCause>,
) -> FileText<'a, D, N>
    requires seen { (D.state disk.old).seen ≡ (D.state text.disk).seen }
    requires layouts { layouts.now ≡ text.types }

    // the text
    ensures left { result.left ≡ text.entry.left }
    ensures types { result.types ≡ text.entry.types }
    ensures faults { result.faults ≡ text.entry.faults }
    ensures refused { first ≢ None → result.cause ≡ Some TextCause.Refused }

    // the disk
    ensures name { result.name ≡ disk.entry.ghost_name }
    ensures opened { result.opened ≡ disk.old }
{
    match first {
        Some(_) => FileText::refused(alloc, text, layouts, disk, room),
        None => FileText::new(alloc, text, layouts, disk, room),
    }
}

/// Why a text could not be had first. That a text was read before is no cause of the archive's: it
/// counts as want of memory.
fn first_cause(first: Option<TextCause>, cause: Option<TextCause>) -> Option<TextCause>
    ensures { result ≡ first_of first cause }
{
    if first.is_some() {
        return first;
    }
    match cause {
        Some(TextCause::Refused) => Some(TextCause::OutOfMemory),
        _ => cause,
    }
}

impl<'a, D: Disk, N: Names, L: Lent> FileSource<'a, D, N, L> {
    /// A source over a file, which is read only where no text before it failed.
    pub(crate) fn new(
        alloc: Global,
        file: StoredFile<'a, D, N, L>,
        layouts: &'a Layouts,
        disk: &'a mut D,
        room: TextRoom,
        first: Option<TextCause>,
    ) -> FileSource<'a, D, N, L>
        requires layouts { layouts.now ≡ L.lent.types }
        requires read { IsRead D.state L.lent first disk.ghost_name disk.old }
        ensures left { result.text.left ≡ file.entry.left }
        ensures faults { result.text.faults ≡ file.entry.faults }
        ensures first { result.first ≡ first }
    {
        let text = open_text(alloc, file.into_text(), layouts, disk, room, first);
        FileSource::<'a, D, N, L> {
            text,
            first,
            lent: PhantomData,
        }
    }

    /// Ends the source. Take the answer apart at once: a contract follows the disk by its field.
    pub(crate) fn close(self) -> ClosedFile<'a, D, N, L>
        ensures left { result.file.left ≡ self.entry.text.left }
        ensures faults { result.file.faults ≡ self.entry.text.faults }

        // the disk, and why a text could not be had
        ensures read { IsRead D.state L.lent result.cause result.disk.ghost_name result.disk.now }
        ensures leaves { LeavesCause result.cause result.file.faults }
        ensures first { self.entry.first ≢ None → result.cause ≡ self.entry.first }
    {
        let FileSource {
            text,
            first,
            lent: _,
        } = self;
        let ClosedText {
            text,
            disk,
            room,
            cause,
        } = text.close();
        ClosedFile {
            file: StoredFile::of(text),
            disk,
            room,
            cause: first_cause(first, cause),
        }
    }
}

impl<'a, D: Disk, N: Names, L: Lent> Source for FileSource<'a, D, N, L> {
    ghost left = { λ s. s.text.left };

    ghost name = { λ s. Some (cause_name s.first) };

    ghost faults = { λ s. s.text.faults };

    fn read(&mut self, buf: &mut [u8]) -> Result<usize, Failed> {
        self.text.give(buf)
    }
}
