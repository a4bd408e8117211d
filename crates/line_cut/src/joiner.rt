//! The messages of a source, where a message is a group of lines.
ghost use Rattle.std.specs.Prelude.{◌≡◌, ◌≢◌, ◌+◌, ◌*◌, ◌<◌, ◌≤◌, [], length, take, drop, IfOk, IfErr, IfSome, IfNone, IsErrOf, None, nat_lt};
ghost use Rattle.log_seams.specs.Outside.{CountsOf, Rose};
ghost use Rattle.line_cut.specs.Cutting.{Repeats, left_of, without_line};
ghost use Rattle.line_cut.specs.Joining.{EndedJoining, GaveMessage, IsNewJoiner, JoinerStays, RefusedToJoin, stamped_by};
ghost use Rattle.line_cut.specs.StepsJoining.{Finds, IsInFront, at_message};
ghost use Rattle.line_cut.specs.declared.cut.Cut.{Cut};
ghost use Rattle.line_cut.specs.declared.cut.Progress.{Progress};
ghost use Rattle.line_cut.specs.declared.message.Seen.{Seen};

use crate::cut::{Cut, CutterRefused, Mark, Piece, Progress};
use crate::cutter::MAX_LINE_LEN;
use crate::heads::Heads;
use crate::join::Joined;
use crate::message::{Seen, look_for_message};
use crate::next_line::NextLine;
use crate::window::{READ_SIZE, Window, let_go};
use log_seams::Source;
use plain_list::Text;
use std::alloc::{AllocError, Global};
use std::marker::Model;

/// The most messages that a joiner can be asked to give.
pub const MAX_GIVEN_MESSAGES: u64 = 4_294_967_295;

/// Gives the messages of a source in order, and after them the end or a refusal.
///
/// A message is a line that begins one, as its `Heads` tell, with the lines behind it that do not,
/// a newline between each two of them, up to the limit of bytes; any other line is a message of
/// its own.
#[derive(Drop)]
pub struct Joiner<S: Source, T> {
    alloc: Global,
    source: S,
    heads: T,
    window: Window,
    /// How many bytes at the front of the window are the message that was given last.
    message: usize,
    /// How many bytes they are with its newline.
    step: usize,
    /// What stands behind them, where that was looked at.
    behind: Option<NextLine>,
    lines: u64,
    given: u64,
    max_line: usize,
    max_messages: u64,
    progress: Progress,
}

impl<S: Source, T> Model for Joiner<S, T> {
    ghost use Rattle.std.specs.Prelude.{◌+◌, ◌*◌, ◌<◌, ◌≤◌, IfSome, drop, length, take};
    ghost use Rattle.line_cut.specs.Joining.{JoinerState};
    ghost use Rattle.line_cut.specs.Standing.{Stands};
    ghost use Rattle.line_cut.specs.declared.cutter.TheConstants.{MAX_LINE_LEN};
    ghost use Rattle.line_cut.specs.declared.joiner.TheConstants.{MAX_GIVEN_MESSAGES};

    ghost Value = { JoinerState S T };

    ghost view = { λ c. record {
      cutter = record {
        source = c.source;
        pending = drop c.step c.window.held;
        line = take c.message c.window.held;
        given = c.given;
        max_line = c.max_line;
        max_lines = c.max_messages;
        room = c.window.size;
        progress = c.progress;
      };
      heads = c.heads;
      lines = c.lines;
      behind = c.behind;
    } };

    ghost invariant = { λ c. (c.message ≤ c.step) × (c.step ≤ length c.window.held)
        × (c.max_line * 2 + 1 < c.window.size) × (c.max_line ≤ MAX_LINE_LEN)
        × (c.given ≤ c.max_messages) × (c.max_messages ≤ MAX_GIVEN_MESSAGES)
        × (c.lines ≤ c.given * (MAX_LINE_LEN + 1))
        × IfSome c.behind (Stands c.max_line (drop c.step c.window.held) (S.left c.source)) };
}

impl<S: Source, T: Heads + Drop> Joiner<S, T> {
    /// A joiner that gives the messages of a source, at most `max_messages` of them, each of lines
    /// and bytes within `max_line`. `max_line` is from 1 to `MAX_LINE_LEN`, and `max_messages` at
    /// most `MAX_GIVEN_MESSAGES`.
    ///
    /// It takes all the memory that `advance` needs. Where there is none the source is handed
    /// back.
    pub fn new(
        alloc: Global,
        source: S,
        heads: T,
        max_line: usize,
        max_messages: u64,
    ) -> Result<Joiner<S, T>, CutterRefused<S>>
        requires least { 1 ≤ max_line }
        requires most { max_line ≤ MAX_LINE_LEN }
        requires count { max_messages ≤ MAX_GIVEN_MESSAGES }
        ensures fresh { IfOk result (IsNewJoiner source heads max_line max_messages) }
        ensures refused { IfErr result (λ r. r.source ≡ source) }
    {
        // room for the longest message, the longest line behind it, and for one read
        let Ok(window) = Window::new(alloc, max_line * 2 + READ_SIZE) else {
            return Err(CutterRefused { source });
        };
        Ok(Joiner {
            alloc,
            source,
            heads,
            window,
            message: 0,
            step: 0,
            behind: None,
            lines: 0,
            given: 0,
            max_line,
            max_messages,
            progress: Progress::Open,
        })
    }

    /// Looks for the next message, and leaves it where it is. Lets go of the message before.
    fn look_ahead(&mut self) -> Seen
        ensures line { self.new.cutter.line ≡ [] }
        ensures after_end { self.old.cutter.progress ≡ Progress.Ended
            → (result ≡ Seen.End) × (self.new.cutter ≡ without_line self.old.cutter) }
        ensures after_refusal { (e : Cut) → self.old.cutter.progress ≡ Progress.Refused e
            → (result ≡ Seen.Refused e) × (self.new.cutter ≡ without_line self.old.cutter) }
        ensures finds { self.old.cutter.progress ≡ Progress.Open
            → Finds (stamped_by T.starts self.old) (self.old.lines + 1) self.old.cutter.max_line
            (nat_lt self.old.cutter.given self.old.cutter.max_lines) self.old.behind
            self.new.cutter.pending (S.left self.new.cutter.source)
            (Rose (S.faults self.old.cutter.source) (S.faults self.new.cutter.source)) result }
        ensures steady { result ≢ Seen.Refused Cut.ReadFault
            → S.faults self.new.cutter.source ≡ S.faults self.old.cutter.source }

        // what stays
        ensures left { left_of S.left self.new.cutter ≡ left_of S.left self.old.cutter }
        ensures given { self.new.cutter.given ≡ self.old.cutter.given }
        ensures lines { self.new.lines ≡ self.old.lines }
        ensures behind { self.new.behind ≡ None }
        ensures progress { self.new.cutter.progress ≡ self.old.cutter.progress }
        ensures stays { JoinerStays S.name S.faults self.old self.new }
    {
        let_go(&mut self.window, &mut self.message, &mut self.step);
        let behind = self.behind;
        self.behind = None;
        match self.progress {
            Progress::Open => look_for_message(
                &mut self.source,
                &mut self.window,
                &self.heads,
                behind,
                self.lines + 1,
                self.max_line,
                self.given < self.max_messages,
            ),
            Progress::Ended => Seen::End,
            Progress::Refused(cut) => Seen::Refused(cut),
        }
    }

    /// Comes to a message that was found.
    fn come_to(&mut self, joined: Joined)
        requires front { IsInFront (stamped_by T.starts self.old) self.old.cutter.max_line
            self.old.cutter.pending (S.left self.old.cutter.source) joined }
        requires room { self.old.cutter.given < self.old.cutter.max_lines }
        ensures { self.new ≡ at_message joined self.old }
    {
        // behind `look_ahead` this skips nothing; here it puts the message at the window's front
        self.window.consume(self.step);
        self.message = joined.len;
        self.step = joined.len + usize::from(joined.ended);
        self.behind = joined.behind;
        self.lines += joined.lines;
        self.given += 1;
        self.progress = if joined.ended {
            Progress::Open
        } else {
            Progress::Ended
        };
    }

    /// Goes on to the next message, whose bytes `line` then lends.
    ///
    /// `Ok(None)` is the end of the input; it comes after the last message, and from then on. A
    /// line that is too long is refused behind the message before it, and so is a message after
    /// `max_messages` of them, once its first line was taken whole; a line's length goes first.
    /// Where a read failed the last message of whole lines is not given if it begins with a stamp,
    /// since more lines might belong to it. After an error the same error comes from then on, and
    /// nothing is read.
    pub fn advance(&mut self) -> Result<Option<Mark>, Cut>
        // by the answer
        ensures message { IfOk result (λ o. IfSome o (λ m.
            GaveMessage S.left T.starts m.ended self.new.cutter.line self.old self.new)) }
        ensures at_end { IfOk result (λ o. IfNone o (EndedJoining S.left self.old self.new)) }
        ensures again { Repeats self.old.cutter.progress self.old.cutter self.new.cutter result }

        // causes
        ensures refused { IfErr result (RefusedToJoin S.left S.faults T.starts self.old self.new) }
        ensures memory { IsErrOf result Cut.OutOfMemory → self.old.cutter.progress ≢ Progress.Open }
        ensures counts { self.old.cutter.progress ≡ Progress.Open
            → CountsOf Cut.ReadFault (S.faults self.old.cutter.source)
            (S.faults self.new.cutter.source) result }

        // what stays
        ensures stays { JoinerStays S.name S.faults self.old self.new }
    {
        match self.look_ahead() {
            Seen::Message(joined) => {
                self.come_to(joined);
                Ok(Some(Mark {
                    ended: joined.ended,
                }))
            }
            Seen::End => {
                self.progress = Progress::Ended;
                Ok(None)
            }
            Seen::Refused(cut) => {
                self.progress = Progress::Refused(cut);
                Err(cut)
            }
        }
    }

    /// A copy of the next `len` bytes, which are not yet given.
    fn copy_ahead(&self, len: usize) -> Result<Text, AllocError>
        requires { len ≤ length self.now.cutter.pending }
        ensures { IfOk result (λ text. text ≡ take len self.now.cutter.pending) }
    {
        let ahead = &self.window.held()[self.step..];
        Ok(Text::new(ahead[..len].to_vec(self.alloc)?))
    }

    /// Goes on to the next message, and gives a copy of it; the answers are those of `advance`.
    ///
    /// It takes memory for the copy alone. Where there is none the message is not given, and the
    /// same error comes from then on.
    pub fn next(&mut self) -> Result<Option<Piece>, Cut>
        // by the answer
        ensures piece { IfOk result (λ o. IfSome o (λ p.
            GaveMessage S.left T.starts p.ended p.line self.old self.new)) }
        ensures line { IfOk result (λ o. IfSome o (λ p. self.new.cutter.line ≡ p.line)) }
        ensures at_end { IfOk result (λ o. IfNone o (EndedJoining S.left self.old self.new)) }
        ensures again { Repeats self.old.cutter.progress self.old.cutter self.new.cutter result }

        // causes
        ensures refused { IfErr result (RefusedToJoin S.left S.faults T.starts self.old self.new) }
        ensures counts { self.old.cutter.progress ≡ Progress.Open
            → CountsOf Cut.ReadFault (S.faults self.old.cutter.source)
            (S.faults self.new.cutter.source) result }

        // what stays
        ensures stays { JoinerStays S.name S.faults self.old self.new }
    {
        match self.look_ahead() {
            Seen::Message(joined) => {
                let Ok(line) = self.copy_ahead(joined.len) else {
                    self.progress = Progress::Refused(Cut::OutOfMemory);
                    return Err(Cut::OutOfMemory);
                };
                self.come_to(joined);
                Ok(Some(Piece {
                    line,
                    ended: joined.ended,
                }))
            }
            Seen::End => {
                self.progress = Progress::Ended;
                Ok(None)
            }
            Seen::Refused(cut) => {
                self.progress = Progress::Refused(cut);
                Err(cut)
            }
        }
    }

    /// The bytes of the message that `advance` came to, without its last newline. They stay until
    /// the next call of `advance` or `next`. Where there is no message they are empty.
    pub fn line(&self) -> &[u8]
        ensures { result.now ≡ self.now.cutter.line }
    {
        &self.window.held()[..self.message]
    }

    /// The source, with the bytes that it was not asked for.
    pub fn into_source(self) -> S
        ensures { result ≡ self.cutter.source }
    {
        let Joiner {
            alloc: _,
            source,
            heads: _,
            window: _,
            message: _,
            step: _,
            behind: _,
            lines: _,
            given: _,
            max_line: _,
            max_messages: _,
            progress: _,
        } = self;
        source
    }
}
