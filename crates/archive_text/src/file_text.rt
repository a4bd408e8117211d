//! The text of one file of an archive as a source.
ghost use Rattle.std.specs.Prelude.{◌≡◌, ◌≢◌, ◌≤◌, ◌<◌, None, Some, IfOk, IfSome, OnErr, length};
ghost use Rattle.log_seams.specs.Disk.{Rests};
ghost use Rattle.log_seams.specs.Outside.{Counts, Takes};
ghost use Rattle.archive_open.specs.Shown.{StandsForNone};
ghost use Rattle.archive_text.specs.Caused.{CountsBy};
ghost use Rattle.archive_text.specs.Told.{disk_name};

use crate::cause::TextCause;
use crate::giving::give_next;
use crate::stored_text::StoredText;
use crate::told_text::ToldText;
use crate::walk::{TextRoom, Walk};
use log_seams::{Disk, Failed, Source};
use row_codec::{Layouts, Names};
use std::alloc::Global;
use std::marker::Model;
use std::snapshot::Snapshot;

/// The text of one file of an archive. It reads the disk as it is read itself, a page of rows at a
/// time. Once a read has failed, each one fails.
#[derive(Drop)]
pub struct FileText<'a, D: Disk, N: Names> {
    told: ToldText<'a, D, N>,
    /// The log types of the archive.
    layouts: &'a Layouts,
    disk: &'a mut D,
    /// For contracts alone: the disk when the source was made.
    opened: Snapshot<D>,
    walk: Walk<'a>,
    faults: u64,
    /// Why it fails.
    cause: Option<TextCause>,
}

/// What is left of a source at its end.
#[derive(Drop)]
pub struct ClosedText<'a, D: Disk, N: Names> {
    /// The text, as far as it was read.
    pub text: StoredText<'a, D, N>,
    /// The disk that was lent to it.
    pub disk: &'a mut D,
    /// The memory that was lent to it.
    pub room: TextRoom,
    /// Why a read failed, if one did.
    pub cause: Option<TextCause>,
}

impl<'a, D: Disk, N: Names> Model for FileText<'a, D, N> {
    ghost use Rattle.std.specs.Prelude.{drop, option_map};
    ghost use Rattle.archive_text.specs.State.{TextState};

    ghost Value = { TextState D };

    ghost use Rattle.archive_text.specs.Told.{file_parts};
    ghost use Rattle.archive_text.specs.Kept.{IsReading};

    ghost view = { λ s. record {
      disk = s.disk.now;
      name = s.disk.ghost_name;
      opened = s.opened.value;
      types = s.layouts.now;
      left = option_map (drop s.walk.lines.given) s.told.has.0;
      faults = s.faults;
      cause = s.cause;
    } };

    ghost invariant = { λ s. IsReading (record {
      file = file_parts (N.types s.told.names.now) (N.words s.told.names.now)
          s.told.places.now s.told.open_end;
      told = s.told.has.0;
      asked = (D.state s.told.disk.value).seen;
      layouts = s.layouts.now;
      opened = D.state s.opened.value;
      disk = D.state s.disk.now;
      walk = s.walk;
      faults = s.faults;
      cause = s.cause;
    }) };
}

// Why a text is not read, of which so many bytes were given and so many reads failed.
fn refused_by(given: u64, faults: u64) -> Option<TextCause>
    ensures none { result ≡ None → (given ≡ 0) × (faults ≡ 0) }
    ensures unread { given ≡ 0 → faults ≡ 0 → result ≡ None }
    ensures fault { result ≢ Some TextCause.DiskFault }
    ensures damaged { result ≢ Some TextCause.Damaged }
{
    if given == 0 && faults == 0 {
        None
    } else {
        Some(TextCause::Refused)
    }
}

// The source over a text, which is not read where there is a cause.
fn with_cause<'a, D: Disk, N: Names>(
    alloc: Global,
    text: StoredText<'a, D, N>,
    layouts: &'a Layouts,
    disk: &'a mut D,
    room: TextRoom,
    cause: Option<TextCause>,
) -> FileText<'a, D, N>
    requires seen { (D.state disk.old).seen ≡ (D.state text.disk).seen }
    requires layouts { layouts.now ≡ text.types }
    requires none { cause ≡ None → (text.given ≡ 0) × (text.faults ≡ 0) }
    requires fault { cause ≢ Some TextCause.DiskFault }
    requires damaged { cause ≢ Some TextCause.Damaged }

    // the text
    ensures left { result.left ≡ text.entry.left }
    ensures types { result.types ≡ text.entry.types }
    ensures faults { result.faults ≡ text.entry.faults }
    ensures cause { result.cause ≡ cause }

    // the disk
    ensures name { result.name ≡ disk.entry.ghost_name }
    ensures disk { result.disk ≡ disk.old }
    ensures opened { result.opened ≡ disk.old }
{
    let StoredText {
        told,
        given,
        faults,
    } = text;
    let opened = Snapshot::of(&*disk);
    let walk = Walk::new(alloc, told.places, room, given);
    FileText {
        told,
        layouts,
        disk,
        opened,
        walk,
        faults,
        cause,
    }
}

impl<'a, D: Disk, N: Names> FileText<'a, D, N> {
    /// A source over a text, which stands on the disk. The layouts are those of the archive's log
    /// types, and the room may have served another file. Where some of the text was read before,
    /// each read fails. Makes no call of the disk, and takes no memory.
    pub fn new(
        alloc: Global,
        text: StoredText<'a, D, N>,
        layouts: &'a Layouts,
        disk: &'a mut D,
        room: TextRoom,
    ) -> FileText<'a, D, N>
        requires seen { (D.state disk.old).seen ≡ (D.state text.disk).seen }
        requires layouts { layouts.now ≡ text.types }

        // the text
        ensures left { result.left ≡ text.entry.left }
        ensures types { result.types ≡ text.entry.types }
        ensures faults { result.faults ≡ text.entry.faults }
        ensures cause { text.entry.given ≡ 0 → text.entry.faults ≡ 0 → result.cause ≡ None }

        // the disk
        ensures name { result.name ≡ disk.entry.ghost_name }
        ensures disk { result.disk ≡ disk.old }
        ensures opened { result.opened ≡ disk.old }
    {
        let cause = refused_by(text.given, text.faults);
        with_cause(alloc, text, layouts, disk, room, cause)
    }

    /// A source over a text that is not to be read: each read fails.
    pub fn refused(
        alloc: Global,
        text: StoredText<'a, D, N>,
        layouts: &'a Layouts,
        disk: &'a mut D,
        room: TextRoom,
    ) -> FileText<'a, D, N>
        requires seen { (D.state disk.old).seen ≡ (D.state text.disk).seen }
        requires layouts { layouts.now ≡ text.types }

        // the text
        ensures left { result.left ≡ text.entry.left }
        ensures types { result.types ≡ text.entry.types }
        ensures faults { result.faults ≡ text.entry.faults }
        ensures cause { result.cause ≡ Some TextCause.Refused }

        // the disk
        ensures name { result.name ≡ disk.entry.ghost_name }
        ensures disk { result.disk ≡ disk.old }
        ensures opened { result.opened ≡ disk.old }
    {
        with_cause(alloc, text, layouts, disk, room, Some(TextCause::Refused))
    }

    /// Gives the next bytes to the front of a buffer, which is not empty, and answers how many, as
    /// a read of a source does. The disk that was lent stays the one that it is.
    pub fn give(&mut self, buf: &mut [u8]) -> Result<usize, Failed>
        requires { 0 < length buf.old }

        // as each source
        ensures within { IfOk result (λ n. n ≤ length buf.old) }
        ensures taken { IfOk result (λ n. Takes n buf.new self.old.left self.new.left) }
        ensures untaken { OnErr result (self.new.left ≡ self.old.left) }
        ensures cause { Counts self.old.faults self.new.faults result }

        // what stays
        ensures name { self.new.name ≡ self.old.name }
        ensures opened { self.new.opened ≡ self.old.opened }
        ensures types { self.new.types ≡ self.old.types }
        ensures kept { self.old.cause ≢ None → self.new.cause ≡ self.old.cause }
    {
        if self.cause.is_some() {
            self.faults = self.faults.saturating_add(1);
            return Err(Failed);
        }
        match give_next(
            self.told.names,
            self.layouts,
            self.told.open_end,
            self.disk,
            &mut self.walk,
            buf,
        ) {
            Ok(count) => Ok(count),
            Err(refusal) => {
                self.cause = Some(TextCause::from(refusal));
                self.faults = self.faults.saturating_add(1);
                Err(Failed)
            }
        }
    }

    /// Ends the source. Take the answer apart at once: a contract follows the disk by its field.
    pub fn close(self) -> ClosedText<'a, D, N>
        // the text, which stands on the disk as before
        ensures seen { (D.state result.text.disk).seen ≡ (D.state self.entry.opened).seen }
        ensures types { result.text.types ≡ self.entry.types }
        ensures left { result.text.left ≡ self.entry.left }
        ensures faults { result.text.faults ≡ self.entry.faults }

        // the disk, which was only read
        ensures name { result.disk.ghost_name ≡ self.entry.name }
        ensures disk { result.disk.now ≡ self.entry.disk }
        ensures rests { Rests (D.state self.entry.opened) (D.state self.entry.disk) }

        // causes
        ensures cause { result.cause ≡ self.entry.cause }
        ensures quiet { result.cause ≡ None → self.entry.faults ≡ 0 }
        ensures damaged { result.cause ≡ Some TextCause.Damaged
            → IfSome (D.state self.entry.opened).seen StandsForNone }
        ensures counts { CountsBy (D.state self.entry.opened).faults
            (D.state self.entry.disk).faults result.cause }
    {
        let FileText {
            told,
            layouts: _,
            disk,
            opened: _,
            walk,
            faults,
            cause,
        } = self;
        let given = walk.lines.given;
        let room = walk.into_room();
        let text = StoredText {
            told,
            given,
            faults,
        };
        ClosedText {
            text,
            disk,
            room,
            cause,
        }
    }
}

impl<'a, D: Disk, N: Names> Source for FileText<'a, D, N> {
    ghost left = { λ s. s.left };

    ghost name = { λ s. Some
        (disk_name s.name (D.state s.opened).seen (D.state s.opened).faults) };

    ghost faults = { λ s. s.faults };

    fn read(&mut self, buf: &mut [u8]) -> Result<usize, Failed> {
        self.give(buf)
    }
}
