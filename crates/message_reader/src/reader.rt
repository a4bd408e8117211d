//! A reader of the messages of a log.
ghost use Rattle.std.specs.Prelude.{◌≡◌, ◌≤◌, IfOk, IfErr, IfSome, IfNone, IsErrOf};
ghost use Rattle.log_seams.specs.Outside.{CountsOf};
ghost use Rattle.line_cut.specs.declared.cut.Cut.{Cut};
ghost use Rattle.line_cut.specs.declared.cut.Progress.{Progress};
ghost use Rattle.message_reader.specs.Reading.{IsNewReader, ReadMessage, ReadToEnd, ReaderStays, ReadsAgain, RefusedToRead};

use crate::heads::Stamps;
use line_cut::{Cut, Cutter, CutterRefused, Joiner, MAX_LINE_LEN, Mark};
use log_seams::Source;
use std::alloc::Global;
use std::marker::Model;

/// The most messages that a log may have in an archive.
pub const MAX_MESSAGES: u64 = 4_294_967_294;

/// What cuts the bytes, by the version.
#[derive(Drop)]
enum Cuts<S: Source> {
    /// Version 1: each line is a message.
    Lines(Cutter<S>),
    /// The versions above: a line with a stamp has the lines behind it that have none.
    Groups(Joiner<S, Stamps>),
}

/// Gives the messages of a log in order, as an archive of its version has them, and after them the
/// end or a refusal.
#[derive(Drop)]
pub struct MessageReader<S: Source> {
    cuts: Cuts<S>,
}

impl<S: Source> Model for MessageReader<S> {
    ghost use Rattle.message_reader.specs.Reading.{ReaderState};
    ghost use Rattle.message_reader.specs.StepsReading.{HasArchiveLimits, reader_of};

    ghost Value = { ReaderState S };

    ghost view = { λ r. reader_of r.cuts };

    ghost invariant = { λ r. HasArchiveLimits r.cuts };
}

impl<S: Source> MessageReader<S> {
    /// A reader of the messages of a source for an archive of this version, which is from 1 to 3:
    /// at most `MAX_MESSAGES` of them, of lines within `MAX_LINE_LEN` bytes.
    ///
    /// It takes all the memory that it needs. Where there is none the source is handed back.
    pub fn new(alloc: Global, version: u32, source: S) -> Result<MessageReader<S>, CutterRefused<S>>
        requires first { 1 ≤ version }
        requires last { version ≤ 3 }
        ensures fresh { IfOk result (IsNewReader version source) }
        ensures refused { IfErr result (λ r. r.source ≡ source) }
    {
        let cuts = if version == 1 {
            Cuts::Lines(Cutter::new(alloc, source, MAX_LINE_LEN, MAX_MESSAGES)?)
        } else {
            let stamps = Stamps {
                micro: version == 3,
            };
            Cuts::Groups(Joiner::new(alloc, source, stamps, MAX_LINE_LEN, MAX_MESSAGES)?)
        };
        Ok(MessageReader { cuts })
    }

    /// Goes on to the next message, whose bytes `message` then lends. Lets go of the one before.
    ///
    /// `Ok(None)` is the end of the log; it comes after the last message, and from then on. A line
    /// that is too long is refused behind the messages before it, with its number among all lines,
    /// and so is one message more than `MAX_MESSAGES`: in version 1 before the length of its line
    /// is known, in the others once its first line was taken whole. Where a read failed, the
    /// messages given are those of the lines that ended in the bytes taken, in the versions above
    /// 1 without the last one where it has a stamp, since more lines might belong to it. After an
    /// error the same error comes from then on, and nothing is read.
    pub fn advance(&mut self) -> Result<Option<Mark>, Cut>
        // by the answer
        ensures message { IfOk result (λ o. IfSome o (λ m.
            ReadMessage S.left m.ended self.old self.new)) }
        ensures at_end { IfOk result (λ o. IfNone o (ReadToEnd S.left self.old self.new)) }
        ensures again { ReadsAgain self.old.progress self.old self.new result }

        // causes
        ensures refused { IfErr result (RefusedToRead S.left S.faults self.old self.new) }
        ensures memory { ¬ IsErrOf result Cut.OutOfMemory }
        ensures counts { self.old.progress ≡ Progress.Open
            → CountsOf Cut.ReadFault (S.faults self.old.source) (S.faults self.new.source) result }

        // what stays
        ensures stays { ReaderStays S.name S.faults self.old self.new }
    {
        match &mut self.cuts {
            Cuts::Lines(cutter) => cutter.advance(),
            Cuts::Groups(joiner) => joiner.advance(),
        }
    }

    /// The bytes of the message that `advance` came to, without its last newline. They stay until
    /// the next call of `advance`. Where there is no message they are empty.
    pub fn message(&self) -> &[u8]
        ensures { result.now ≡ self.now.message }
    {
        match &self.cuts {
            Cuts::Lines(cutter) => cutter.line(),
            Cuts::Groups(joiner) => joiner.line(),
        }
    }

    /// The source, with the bytes that it was not asked for.
    pub fn into_source(self) -> S
        ensures { result ≡ self.source }
    {
        let MessageReader { cuts } = self;
        match cuts {
            Cuts::Lines(cutter) => cutter.into_source(),
            Cuts::Groups(joiner) => joiner.into_source(),
        }
    }
}
